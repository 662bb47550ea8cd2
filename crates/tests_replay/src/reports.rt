//! Runs with their complete reports: the arguments of the program and an input, and its status and the lines of its
//! report.
use crate::inputs::lines_of;
use crate::runs::{FREE, parts_of, run_row};
use std::alloc::Global;

// The domain, and the lines of a schedule.
const REPLAYS: &str = "\
replay ring schedule frames | inject A 0 64 65535 8 0 00ff => 4 | refused 1 event 7 Edge 3 SiLarge 65535
replay ring schedule frames | inject A 0 64 - 8 0 00ff => 4 | refused 1 event 7 Edge 1 NoEgress
replay ring schedule frames | inject A 0 64 0,65535 8 0 00ff => 4 | refused 1 event 7 Edge 2 IdZero
replay fork schedule frames | settle 3 / inject A 0 64 3 8 0 00ff / settle 2 => 0 | 3 got C 1 3 00ff / done lines 3 injected 1 named 1 got 1 dropped 0 flight 0
replay fork schedule frames | settle 3 / inject A 0 64 3,4 8 0 00ff / settle 2 => 0 | 3 got C 1 3 00ff / 3 got D 1 4 00ff / done lines 3 injected 1 named 2 got 2 dropped 0 flight 0
replay fork schedule frames | inject P 0 64 3 8 0 00ff => 4 | refused 1 event 7 Edge 4 NotBfr
replay ring schedule frames | inject A 0 128 3 8 0 00ff => 4 | refused 1 event 7 Edge 5 BslUnknown
replay ring schedule frames | settle 4 / inject A 0 64 3 8 0 00ff / inject A 0 64 3 8 1 00ff / settle 4 => 0 | 4 got C 1 3 00ff / 4 got C 2 3 00ff / done lines 4 injected 2 named 2 got 2 dropped 0 flight 0
replay ring schedule frames | settle 4 / down B C / inject A 0 64 3 3 0 00ff / take A B 0 / take B A 0 / take A B 0 => 0 | 6 drop B 1 ttl 3 / done lines 6 injected 1 named 1 got 0 dropped 1 flight 0
replay twin schedule frames | settle 4 / inject A 0 64 2,3 8 0 00ff / settle 2 => 0 | 2 drop A 1 none 3 / 3 got B 1 2 00ff / done lines 3 injected 1 named 2 got 1 dropped 1 flight 0
replay pair schedule frames | down A B / up A B / down A B / up A B / down A B / up A B / settle 2 / restart A / send A B / take A B 0 / take A B 0 / send B A / take B A 0 / send A B => 0 | done lines 14 injected 0 named 0 got 0 dropped 0 flight 0
replay ring schedule frames | settle 4 / inject A 0 64 2,3 1 0 00ff / take A B 0 => 0 | 3 got B 1 2 00ff / 3 drop B 1 ttl 3 / done lines 3 injected 1 named 2 got 1 dropped 1 flight 0
replay ring schedule frames | settle 4 / inject A 0 64 3 8 0 00ff / again A B 0 => 4 | refused 3 event 6 NotControl
replay line schedule frames | settle 3 / inject A 0 64 2,3 8 0 00ff / settle 1 => 0 | 2 drop A 1 none 3 / 3 got B 1 2 00ff / done lines 3 injected 1 named 2 got 1 dropped 1 flight 0
replay pair schedule frames | settle 2 / relabel B 0 64 900 / inject A 0 64 2 8 0 00 / settle 2 / inject A 0 64 2 8 0 00 / settle 1 => 0 | 4 got B 1 2 00 / 6 got B 2 2 00 / done lines 6 injected 2 named 2 got 2 dropped 0 flight 0
replay pair schedule frames | settle 2 / leave B 0 / inject A 0 64 2 8 0 00 / settle 2 / join B 0 / settle 2 / inject A 0 64 2 8 0 00 / settle 1 => 0 | 4 drop B 1 none 2 / 8 got B 2 2 00 / done lines 8 injected 2 named 2 got 1 dropped 1 flight 0
replay pair schedule frames | relabel B 0 64 200 => 4 | refused 1 event 11 LabelUsed 200
replay pair schedule frames | join B 0 => 4 | refused 1 event 9 SubState
replay pair schedule frames | relabel B 0 128 900 => 4 | refused 1 event 8 NoSub
replay pair schedule frames | leave B 1 => 4 | refused 1 event 8 NoSub
replay pair schedule frames | leave B 0 / leave B 0 => 4 | refused 2 event 9 SubState
replay pair schedule frames | relabel B 0 64 1048575 / relabel B 0 64 200 => 4 | refused 2 event 11 LabelUsed 200
replay pair schedule frames | relabel B 0 64 15 => 4 | refused 1 text 2 Number
replay pair schedule frames | relabel B 0 64 => 4 | refused 1 text 1 Word
replay pair schedule frames | leave B 256 => 4 | refused 1 text 2 Number
replay pair schedule frames | leave B 0 / relabel B 0 64 900 / join B 0 / settle 2 / inject A 0 64 2 8 0 00 / settle 1 => 0 | 6 got B 1 2 00 / done lines 6 injected 1 named 1 got 1 dropped 0 flight 0
handshake pair schedule frames | hello A B / greet A B 0 / hello B A / greet B A 0 / hello A B / greet A B 0 => 0 | 4 up A B / 6 up B A / done lines 6 injected 0 named 0 got 0 dropped 0 flight 0
handshake pair schedule frames | settle 4 / inject A 0 64 2 8 0 00ff / settle 1 => 0 | 1 up B A / 1 up A B / 3 got B 1 2 00ff / done lines 3 injected 1 named 1 got 1 dropped 0 flight 0
handshake pair schedule frames | greet A B 0 => 4 | refused 1 event 5 NoFrame 0 0
handshake pair schedule frames | up A B => 4 | refused 1 text 1 Word
check pair schedule frames | quiet / settle 3 / quiet / cover A 0 64 1,2,3 8 0 => 0 | 1 quiet no data A B 0000.0000.0001.00-00 / 3 quiet yes / 4 cover 1,2 / done lines 4 injected 0 named 0 got 0 dropped 0 flight 0
check pair schedule frames | settle 3 / down A B / quiet / cover A 0 64 - 8 0 => 4 | 3 quiet no half A B / refused 4 event 7 Edge 1 NoEgress
replay pair schedule frames | settle 2 / leave A 0 / inject A 0 64 2 8 0 00 => 4 | refused 3 event 7 Edge 4 NotBfr
replay sets schedule frames | relabel B 0 64 1048575 => 4 | refused 1 event 10 LabelHigh
replay pair schedule frames | send A B / send A B / take A B 5 => 4 | refused 3 event 5 NoFrame 5 3
replay-ng pair schedule frames | send A B => 0 | done lines 1 injected 0 named 0 got 0 dropped 0 flight 0
replay pair schedule frames | send A B => 0 | done lines 1 injected 0 named 0 got 0 dropped 0 flight 0
replay pair schedule frames |  => 0 | done lines 0 injected 0 named 0 got 0 dropped 0 flight 0
replay same schedule frames |  => 3 | refused conf 3 Duplicate router[1].system
replay open schedule frames |  => 3 | refused conf 1 Toml -
replay pair schedule frames | send A B / lose A B 0 => 0 | 2 drop B - lost - / done lines 2 injected 0 named 0 got 0 dropped 0 flight 0
replay ring schedule frames | inject Z 0 64 3 8 0 00 => 4 | refused 1 text 3 Name
replay ring schedule frames | inject A 0 65 3 8 0 00 => 4 | refused 1 text 2 Number
replay ring schedule frames | inject A 0 64 3 8 0 0g => 4 | refused 1 text 4 Hex
replay ring schedule frames | jump A => 4 | refused 1 text 1 Word
replay ring schedule frames | up A B => 4 | refused 1 event 3 EndState
replay ring schedule frames | take A C 0 => 4 | refused 1 event 2 NoLink
replay pair schedule frames | tick A / tick B => 0 | done lines 2 injected 0 named 0 got 0 dropped 0 flight 0
replay pair schedule frames | send A B / again A B 0 / take A B 0 / take A B 0 / take A B 0 / take A B 0 => 4 | refused 6 event 5 NoFrame 0 0
replay pair schedule frames | send A B / down B A / take A B 0 => 0 | 3 drop B - link - / done lines 3 injected 0 named 0 got 0 dropped 0 flight 0
replay ring schedule frames | settle 4 / inject A 0 64 3 8 0 00ff / down B A / take A B 0 => 0 | 4 drop B 1 link 3 / done lines 4 injected 1 named 1 got 0 dropped 1 flight 0
replay ring schedule frames | settle 4 / inject A 0 64 3 8 0 00ff / lose A B 0 => 0 | 3 drop B 1 lost 3 / done lines 3 injected 1 named 1 got 0 dropped 1 flight 0
replay ring schedule frames | settle 4 / inject A 0 64 3 8 0 00ff / settle 3 / down A B / down B A / settle 3 / inject A 0 64 3 8 0 00ff / settle 3 => 0 | 3 got C 1 3 00ff / 8 got C 2 3 00ff / done lines 8 injected 2 named 2 got 2 dropped 0 flight 0
replay ring schedule frames | settle 4 / inject A 0 64 1,2,3,4 8 0 00ff / lose A B 0 => 0 | 2 got A 1 1 00ff / 3 drop B 1 lost 2,3 / done lines 3 injected 1 named 4 got 1 dropped 2 flight 1
replay pair schedule frames | tick A\r /  / \r /    / # / # jump\r /  # jump => 4 | refused 7 text 1 Word
replay ring schedule frames | inject A 0 64 3 8 0 f*4000 => 0 | 1 drop A 1 none 3 / done lines 1 injected 1 named 1 got 0 dropped 1 flight 0
replay ring schedule frames | inject A 0 64 3 8 0 f*4002 => 4 | refused 1 text 4 Hex
replay pair schedule frames | tick A *16379 => 4 | refused 1 text 5 LineLong
replay pair schedule frames | #*16384 => 0 | done lines 1 injected 0 named 0 got 0 dropped 0 flight 0
replay pair schedule frames | #*16385 => 4 | refused 1 text 5 LineLong
replay pair schedule frames | take A B 4294967295 => 4 | refused 1 event 5 NoFrame 4294967295 0
replay pair schedule frames | take A B 4294967296 => 4 | refused 1 text 2 Number
replay pair schedule frames | take A B 00000000001 => 4 | refused 1 text 2 Number
replay pair schedule frames | settle 0001 / settle 1001 => 4 | refused 2 text 2 Number
replay pair schedule frames | settle - => 4 | refused 1 text 2 Number
replay pair schedule frames | TICK A => 4 | refused 1 text 1 Word
replay pair schedule frames | tick\tA => 4 | refused 1 text 1 Word
replay pair schedule frames | tick => 4 | refused 1 text 1 Word
replay pair schedule frames | tick A A => 4 | refused 1 text 1 Word
replay pair schedule frames | take A B => 4 | refused 1 text 1 Word
replay pair schedule frames | take A B 1 2 => 4 | refused 1 text 1 Word
replay pair schedule frames | tick A\r\r => 4 | refused 1 text 3 Name
replay pair schedule frames | tick A\r$ => 4 | refused 1 text 3 Name
replay pair schedule frames | tick A$ => 0 | done lines 1 injected 0 named 0 got 0 dropped 0 flight 0
replay pair schedule frames | inject A 0 64 3 8 0 => 4 | refused 1 text 1 Word
replay pair schedule frames | inject A 256 65 x 0 x 0 => 4 | refused 1 text 2 Number
replay pair schedule frames | inject A 0 65 x 0 x 0 => 4 | refused 1 text 2 Number
replay pair schedule frames | inject A 0 64 x 0 x 0 => 4 | refused 1 text 2 Number
replay pair schedule frames | inject A 0 64 1,,2 8 0 00 => 4 | refused 1 text 2 Number
replay pair schedule frames | inject A 0 64 65536 8 0 00 => 4 | refused 1 text 2 Number
replay pair schedule frames | inject A 0 64 -1 8 0 00 => 4 | refused 1 text 2 Number
replay pair schedule frames | inject A 0 64 3 0 0 00 => 4 | refused 1 text 2 Number
replay pair schedule frames | inject A 0 64 3 256 0 00 => 4 | refused 1 text 2 Number
replay pair schedule frames | inject A 0 64 3 8 1048576 00 => 4 | refused 1 text 2 Number
replay pair schedule frames | inject A 0 64 3 8 0 000 => 4 | refused 1 text 4 Hex
replay pair schedule frames | inject A 0 64 3 8 0 -- => 4 | refused 1 text 4 Hex
replay pair schedule frames | take a B x => 4 | refused 1 text 3 Name
replay pair schedule frames | take Z Z x => 4 | refused 1 text 3 Name
replay pair schedule frames | settle 3 / inject A 000 0000000064 1,0002 255 1048575 aBfF / settle 1 => 0 | 2 got A 1 1 abff / 3 got B 1 2 abff / done lines 3 injected 1 named 2 got 2 dropped 0 flight 0
replay pair schedule frames | settle 3 / inject B 0 64 1 1 0 - / settle 1 => 0 | 3 got A 1 1 - / done lines 3 injected 1 named 1 got 1 dropped 0 flight 0
replay sets schedule frames | settle 3 / inject A 0 64 65,1 8 0 00ff / settle 1 => 0 | 2 got A 1 1 00ff / 3 got B 1 65 00ff / done lines 3 injected 1 named 2 got 2 dropped 0 flight 0
replay sets schedule frames | inject A 0 64 129 8 0 00 => 0 | 1 drop A 1 none 129 / done lines 1 injected 1 named 1 got 0 dropped 1 flight 0
replay ring schedule frames | inject A 0 64 16385 8 0 00 => 4 | refused 1 event 7 Edge 3 SiLarge 16385
replay ring schedule frames | inject A 9 64 3 8 0 00 => 4 | refused 1 event 7 Edge 4 NotBfr
replay pair schedule frames | restart A / settle 1 => 0 | done lines 2 injected 0 named 0 got 0 dropped 0 flight 0";

// The router, and what it received: a second and a frame each. After these come a router that does not exist, and LSPs
// with B's system ID that B did not send, with sequence number 9 and with the last one; then frames that are dropped,
// each for another rule of another parser or for another cause; then a packet of which one copy is forwarded and one is
// delivered.
const NODES: &str = "\
node pair B capture frames | 100 A 105 A => 0 | done records 2 used 2 passed 0 got 0 dropped 0 sent 3
node pair B capture frames | 100 A 1000 A => 0 | done records 2 used 2 passed 0 got 0 dropped 0 sent 182
node pair B capture frames | 100 A 70000 A => 8 | refused record 2 7 Gap 100 70000
node pair Z capture frames | 100 A => 3 | refused conf 6 Reference words[2]
node pair B capture frames | 100 09002b000005020000000001001efefe03831b010014010000001b04b0000000000002000000000009e01103 105 A => 0 | done records 2 used 2 passed 0 got 0 dropped 0 sent 2
node pair B capture frames | 100 09002b000005020000000001001efefe03831b010014010000001b04b00000000000020000fffffffff20803 105 A => 0 | done records 2 used 2 passed 0 got 0 dropped 0 sent 2
node pair B capture frames | 100 A 100 02000001000002000000000100 100 09002b000005020000000001001a 100 020000010000020000000001884700000000 100 0200000100000200000000018847 100 0200000100000200000000018847000c8108d0100000000400010000000000000002 100 0200000100000200000000018847000c810851100000000400010000000000000006 100 0200000100000200000000010800 100 0200000100000200000000010800c500002e00000000012fa59e0a0000010a000003 100 02000001000002000000000108004700002e00000000092f9d9f0a0000010a00000200 100 02000001000002000000000108004500002e00000000092f9d9e0a0000010a000003 100 02000001000002000000000108004500002600000000092f9d9f0a0000010a00000200008847000c8108501000000004000100000000 100 02000001000002000000000108004500002e00000001092f9d9f0a0000000a00000200008847000c81085010000000040001000000000000000200ff 100 02000001000002000000000108004500002e00000000092b9d9f0a0400010a00000200008847000c81085010000000040001000000000000000200ff 100 02000001000002000000000108004500001600000000092f9db70a0000010a0000020000 100 02000001000002000000000108004500002e00000000092f9d9f0a0000010a00000200808847000c10085010000000040001000000000000000200ff 100 02000001000002000000000108004500002e00000000012fa59e0a0000010a0000030000ff47000c81085010000000040001000000000000000200ff 100 09002b0000050200000000010004fefe0383 100 09002b000005020000000001001bfefe03872101001901000000180000000000010000000000000000 100 09002b000005020000000001001bfefe03831b050014010000001b0000000000000001000000000005 100 09002b000005020000000001001bfefe03832101101901000000330000000000010000000000000000 100 09002b000005020000000001001bfefe038304010014010000001804b00000000000020000ffffffff 100 09002b000005020000000001000dfefe03831b010014010000001b04 100 09002b000005020000000001001efefe03831b010014010600001b04b0000000000001000000000000fe0103 100 09002b000005020000000001001bfefe03831101001b010000001800000000000100091004b0000000 100 09002b000005020000000001001efefe03831b010014010000001b04b0000000000001000000000000fa0103 100 0200000100000200000000018847000c810850100000000400010040000000000004 100 0200000100000200000000018847000c810050100000000400010000000000000001 100 02000001000002000000000108004500002e00000000012fa59e0a0000010a00000300008847000c81085010000000040001000000000000000200ff 100 02000001000002000000000108004500002e00000000092f9d9e0a0000010a00000300008847000c81085010000000040001000000000000000200ff 105 000000000000000000000000 => 0 | 2 drop frame-1 - / 3 drop frame-2 - / 4 drop label - / 5 drop head-1 - / 6 drop head-2 - / 7 drop head-3 - / 8 drop ip-1 - / 9 drop ip-2 - / 10 drop ip-3 - / 11 drop ip-4 - / 12 drop ip-5 - / 13 drop ip-6 - / 14 drop ip-7 - / 15 drop ip-8 - / 16 drop ip-9 - / 17 drop ip-10 - / 18 drop pdu-1 - / 19 drop pdu-2 - / 20 drop pdu-3 - / 21 drop pdu-4 - / 22 drop pdu-5 - / 23 drop pdu-6 - / 24 drop pdu-7 - / 25 drop pdu-8 - / 26 drop sequence - / 27 drop none 3,55 / 28 drop ttl 1 / 29 drop outer - / 30 drop route - / done records 31 used 30 passed 1 got 0 dropped 29 sent 3
node pair B capture frames | 100 A 101 0200000100000200000000018847000c8f035030002195460002000000000000000300ff => 0 | 2 got 0 2 2 00ff / done records 2 used 2 passed 0 got 1 dropped 0 sent 1";

// The lines of rows and packets.
const HOPS: &str = "\
hop input | bsl 64 / self 1 / row 2 B / row 3 B / row 4 D / packet 1,2,3,4 => 0 | 6 local 1 / 6 copy B 2,3 / 6 copy D 4 / done lines 6 packets 1
hop input | bsl 64 / self 1 / row 2 B / row 3 B / row 4 D / packet 1,2,3,4 / packet 2,9 => 0 | 6 local 1 / 6 copy B 2,3 / 6 copy D 4 / 7 copy B 2 / 7 drop none 9 / done lines 7 packets 2
hop input | bsl 64 / self 1 / row 2 B / row 3 B / row 4 D / packet 1,2,3,4 / #*70000 => 4 | 6 local 1 / 6 copy B 2,3 / 6 copy D 4 / refused 7 text 5 LineLong
hop input | x*65537$ => 4 | refused 1 text 5 LineLong
hop input | bsl 64 /  *16385 => 4 | refused 2 text 5 LineLong
hop input | # all\r /  bsl  4096 \r / self 0\r / row 4096 z\r / \r / packet -\r / packet 4096$ => 0 | 7 copy z 4096 / done lines 7 packets 2
hop input | bsl 64 / self 65 => 4 | refused 2 text 2 Number
hop input | bsl 64 / self 1 / row 2 2 => 4 | refused 3 text 3 Name
hop input | bsl 64 / self 1 / row 2 B / row 3 B / row 5 B / row 4 D / packet 1,2,3,4 / packet 2,9 / packet 4,5 / packet 3 / packet 1 / packet - => 0 | 7 local 1 / 7 copy B 2,3 / 7 copy D 4 / 8 copy B 2 / 8 drop none 9 / 9 copy D 4 / 9 copy B 5 / 10 copy B 3 / 11 local 1 / done lines 12 packets 6
hop input | bsl 64 / self 1 / row 64 y / packet 1,64 => 0 | 4 local 1 / 4 copy y 64 / done lines 4 packets 1
hop input | bsl 128 / self 1 / row 64 y / row 128 z / packet 1,64,65,128 => 0 | 5 local 1 / 5 copy y 64 / 5 copy z 128 / 5 drop none 65 / done lines 5 packets 1
hop input | bsl 256 / self 1 / row 64 y / row 256 z / packet 1,64,65,256 => 0 | 5 local 1 / 5 copy y 64 / 5 copy z 256 / 5 drop none 65 / done lines 5 packets 1
hop input | bsl 512 / self 1 / row 64 y / row 512 z / packet 1,64,65,512 => 0 | 5 local 1 / 5 copy y 64 / 5 copy z 512 / 5 drop none 65 / done lines 5 packets 1
hop input | bsl 1024 / self 1 / row 64 y / row 1024 z / packet 1,64,65,1024 => 0 | 5 local 1 / 5 copy y 64 / 5 copy z 1024 / 5 drop none 65 / done lines 5 packets 1
hop input | bsl 2048 / self 1 / row 64 y / row 2048 z / packet 1,64,65,2048 => 0 | 5 local 1 / 5 copy y 64 / 5 copy z 2048 / 5 drop none 65 / done lines 5 packets 1
hop input | bsl 4096 / self 1 / row 64 y / row 4096 z / packet 1,64,65,4096 => 0 | 5 local 1 / 5 copy y 64 / 5 copy z 4096 / 5 drop none 65 / done lines 5 packets 1";

// A capture.
const HEADERS: &str = "\
headers input | d4c3b2a1020004000000000000000000ffff000001000000010000000000000022000000220000000200000100000200000000018847000641405010000a000400010000000000000005 => 0 | 1 mpls 100 64 64 10 4 1 1,3 / done records 1 headers 1
headers input | d4c3b2a1020004000000000000000000ffff000001000000010000000000000022000000220000000200000100000200000000018847000641405010000a000400010000000000000005010000000000000022000000220000000200000100000200000000018847000641405010000a0004000100000000000000050100000000000000220000002200000002000001000002000000 => 8 | 1 mpls 100 64 64 10 4 1 1,3 / 2 mpls 100 64 64 10 4 1 1,3 / refused record 3 5 CutRecord
headers input | d4c3b2a1020004000000000000000000ffff00000100000001000000000000002a0000002a000000020000010000020000000001ab37000640400020000a0004000180000000000000000000000000000000010000000000000022000000220000000200000100000200000000018847000641405110000a000400010000000000000005 => 0 | 1 bier 100 64 128 10 4 1 128 / 2 bad 3 Version / done records 2 headers 1
topo input 2 0 0000.0000.0001 | d4c3b2a1020004000000000000000000ffff00000100000001000000000000005e0000005e00000009002b0000050200000000010050fefe03831b010014010000004d04b0000000000001000000000001554e030104034900018101cc890141160b0000000000020000000a00871700000000600a0000010d200b0000000001010400100064 => 0 | node 0000.0000.0001 transit / bier 0000.0000.0001 0 1 10.0.0.1 / done records 1 lsps 1 nodes 1
topo input 2 2 0000.0000.0001 | d4c3b2a1020004000000000000000000ffff00000100000001000000000000003f0000003f00000009002b0000050200000000010031fefe03831b010014010000002e04b000000000000100000000000158be03e5020002de0d00020000000000020000000a0001000000000000003f0000003f00000009002b0000050200000000010031fefe03831b010014010000002e04b0000000000002000000000001028a03e5028002de0d00020000000000010000001400 => 0 | node 0000.0000.0001 transit / node 0000.0000.0002 overload / edge 0000.0000.0001 0000.0000.0002 10 / edge 0000.0000.0002 0000.0000.0001 20 / path 0000.0000.0002 10 / done records 2 lsps 2 nodes 2
topo input 2 3 0000.0000.0001 | d4c3b2a1020004000000000000000000ffff00000100000001000000000000003f0000003f00000009002b0000050200000000010031fefe03831b010014010000002e04b000000000000100000000000158be03e5020002de0d00020000000000020000000a0001000000000000003f0000003f00000009002b0000050200000000010031fefe03831b010014010000002e04b0000000000002000000000001028a03e5028002de0d00020000000000010000001400 => 0 | done records 2 lsps 2 nodes 0
topo input 1 2 0000.0000.0001 | d4c3b2a1020004000000000000000000ffff00000100000001000000000000003f0000003f00000009002b0000050200000000010031fefe03831b010014010000002e04b000000000000100000000000158be03e5020002de0d00020000000000020000000a0001000000000000003f0000003f00000009002b0000050200000000010031fefe03831b010014010000002e04b0000000000002000000000001028a03e5028002de0d00020000000000010000001400 => 0 | done records 2 lsps 0 nodes 0
headers input | 0a0d0d0a1c0000004d3c2b1a01000000ffffffffffffffff1c000000010000001400000001000000ffff0000140000000600000044000000000000000000000040420f0022000000220000000200000100000200000000018847000641405010000a000400010000000000000005000044000000 => 0 | 1 mpls 100 64 64 10 4 1 1,3 / done records 1 headers 1
headers input | 0a0d0d0a1c0000004d3c2b1a01000000ffffffffffffffff1c000000010000001400000001000000 => 8 | refused record 1 18 NgCut
headers input |  => 8 | refused record 0 4 CutHeader
headers input | 010000000000000022000000220000000200000100000200000000018847000641405010000a000400010000000000000005 => 8 | refused record 0 1 Magic
headers input | 0a0d0d0a1c0000004d3c2b1a01000000ffffffffffffffff1c000000010000001400000001000000ffff000014000000010000001400000071000000ffff0000140000000600000044000000010000000000000040420f0022000000220000000200000100000200000000018847000641405010000a0004000100000000000000050000440000000600000044000000000000000000000040420f0022000000220000000200000100000200000000018847000641405010000a0004000100000000000000050000440000000a0d0d0a1c0000004d3c2b1a01000000ffffffffffffffff1c0000000600000044000000000000000000000040420f0022000000220000000200000100000200000000018847000641405010000a000400010000000000000005000044000000 => 8 | 2 mpls 100 64 64 10 4 1 1,3 / refused record 3 15 NgInterface";

// The number of routers: it has no sign, no leading zero and no space, and is neither too small nor too large.
const GROWN: &str = "\
grow 3 |  => 0 | grow 3 injected 16 named 48 got 48 dropped 0 flight 0
grow 12 |  => 0 | grow 12 injected 16 named 192 got 192 dropped 0 flight 0
grow 40 |  => 0 | grow 40 injected 16 named 640 got 640 dropped 0 flight 0
grow 250 |  => 0 | grow 250 injected 16 named 4000 got 4000 dropped 0 flight 0
grow 300 |  => 0 | grow 300 injected 16 named 4800 got 4800 dropped 0 flight 0
topo input 2 4096 0000.0000.0001 |  => 2 | usage: bier_domain replay CONF SCHEDULE FRAMES | node CONF ROUTER CAPTURE FRAMES | hop INPUT | headers CAPTURE | grow N | handshake CONF SCHEDULE FRAMES | topo CAPTURE LEVEL MT FROM | replay-ng CONF SCHEDULE FRAMES | check CONF SCHEDULE FRAMES
topo input 3 0 0000.0000.0001 |  => 2 | usage: bier_domain replay CONF SCHEDULE FRAMES | node CONF ROUTER CAPTURE FRAMES | hop INPUT | headers CAPTURE | grow N | handshake CONF SCHEDULE FRAMES | topo CAPTURE LEVEL MT FROM | replay-ng CONF SCHEDULE FRAMES | check CONF SCHEDULE FRAMES
topo input 2 00 0000.0000.0001 |  => 2 | usage: bier_domain replay CONF SCHEDULE FRAMES | node CONF ROUTER CAPTURE FRAMES | hop INPUT | headers CAPTURE | grow N | handshake CONF SCHEDULE FRAMES | topo CAPTURE LEVEL MT FROM | replay-ng CONF SCHEDULE FRAMES | check CONF SCHEDULE FRAMES
topo input 2 0 0000.0000 |  => 2 | usage: bier_domain replay CONF SCHEDULE FRAMES | node CONF ROUTER CAPTURE FRAMES | hop INPUT | headers CAPTURE | grow N | handshake CONF SCHEDULE FRAMES | topo CAPTURE LEVEL MT FROM | replay-ng CONF SCHEDULE FRAMES | check CONF SCHEDULE FRAMES
grow 2 |  => 2 | usage: bier_domain replay CONF SCHEDULE FRAMES | node CONF ROUTER CAPTURE FRAMES | hop INPUT | headers CAPTURE | grow N | handshake CONF SCHEDULE FRAMES | topo CAPTURE LEVEL MT FROM | replay-ng CONF SCHEDULE FRAMES | check CONF SCHEDULE FRAMES
grow 0 |  => 2 | usage: bier_domain replay CONF SCHEDULE FRAMES | node CONF ROUTER CAPTURE FRAMES | hop INPUT | headers CAPTURE | grow N | handshake CONF SCHEDULE FRAMES | topo CAPTURE LEVEL MT FROM | replay-ng CONF SCHEDULE FRAMES | check CONF SCHEDULE FRAMES
grow 1001 |  => 2 | usage: bier_domain replay CONF SCHEDULE FRAMES | node CONF ROUTER CAPTURE FRAMES | hop INPUT | headers CAPTURE | grow N | handshake CONF SCHEDULE FRAMES | topo CAPTURE LEVEL MT FROM | replay-ng CONF SCHEDULE FRAMES | check CONF SCHEDULE FRAMES
grow 10000 |  => 2 | usage: bier_domain replay CONF SCHEDULE FRAMES | node CONF ROUTER CAPTURE FRAMES | hop INPUT | headers CAPTURE | grow N | handshake CONF SCHEDULE FRAMES | topo CAPTURE LEVEL MT FROM | replay-ng CONF SCHEDULE FRAMES | check CONF SCHEDULE FRAMES
grow 012 |  => 2 | usage: bier_domain replay CONF SCHEDULE FRAMES | node CONF ROUTER CAPTURE FRAMES | hop INPUT | headers CAPTURE | grow N | handshake CONF SCHEDULE FRAMES | topo CAPTURE LEVEL MT FROM | replay-ng CONF SCHEDULE FRAMES | check CONF SCHEDULE FRAMES
grow +12 |  => 2 | usage: bier_domain replay CONF SCHEDULE FRAMES | node CONF ROUTER CAPTURE FRAMES | hop INPUT | headers CAPTURE | grow N | handshake CONF SCHEDULE FRAMES | topo CAPTURE LEVEL MT FROM | replay-ng CONF SCHEDULE FRAMES | check CONF SCHEDULE FRAMES
grow 12a |  => 2 | usage: bier_domain replay CONF SCHEDULE FRAMES | node CONF ROUTER CAPTURE FRAMES | hop INPUT | headers CAPTURE | grow N | handshake CONF SCHEDULE FRAMES | topo CAPTURE LEVEL MT FROM | replay-ng CONF SCHEDULE FRAMES | check CONF SCHEDULE FRAMES
grow  |  => 2 | usage: bier_domain replay CONF SCHEDULE FRAMES | node CONF ROUTER CAPTURE FRAMES | hop INPUT | headers CAPTURE | grow N | handshake CONF SCHEDULE FRAMES | topo CAPTURE LEVEL MT FROM | replay-ng CONF SCHEDULE FRAMES | check CONF SCHEDULE FRAMES";

/// Returns whether a run ends with that status and that report.
fn reports(alloc: Global, given: &str, status: Option<u8>, report: &[u8]) -> Option<bool> {
    let outcome = run_row(alloc, given, FREE)?;
    Some(status == Some(outcome.status.number()) && outcome.report.as_slice() == report)
}

/// Returns whether the run of a row ends and reports as the row expects.
fn stands(alloc: Global, line: &str) -> Option<bool> {
    let (given, status, report) = parts_of(line)?;
    let report = lines_of(alloc, report).ok()?;
    reports(alloc, given, status.parse::<u8>().ok(), report.as_slice())
}

#[test]
fn reports_are_written(rt: HostRuntime) {
    for table in [REPLAYS, NODES, HOPS, HEADERS, GROWN] {
        for line in table.lines() {
            assert!(rt; stands(rt.alloc(), line) == Some(true), "at {line}");
        }
    }
}
