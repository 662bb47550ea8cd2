//! Frames and label stacks whose parsed values were computed by other software.
use crate::told::Told;
use link_frame::{Class, classify, read_stack};

/// Frames, their classes, and the index where their payload starts and where an IS-IS PDU may end.
pub const FRAMES: &str = "\
frame 1501db0cf1ea94aab58367a70003fefe03061a5086e1ec8a5e06eaf9d26d5b -> isis 17 17
frame 7be66c31008089f830c53e608847fefe0351013792060b61bcf94386f45001 -> mpls 14
frame 12f7e639a9bb1eb78bc48fea0005fefe03f31866f3c43bb7c88bc0151c -> isis 17 19
frame 694517fc09b15f7b -> fault 1 Short
frame 9919ef079cfce83b45eae7970806c064135eb6a47924b996a35d -> other
frame f46b3fd54581a946afa0b9cf88478b -> mpls 14
frame 3880f3056ac9b3d209611cc400029fa09e10c098434dcfec56bf2225f57038e266c54b6d7a43515c908b -> other
frame 30ea797de0e23ceecceec560ab37fefe034116057c74e5685bb68593585ee5be0d90cb5d89220e -> bier 14
frame 58b8f447ef9c511012097f300800fefe03aec3fd -> ip 14
frame 42b251db7c -> fault 1 Short
frame b608b7360ad5ae4f24e8f5dc05ddfefe03a3e688cdf509a5b4ba35 -> other
frame f948bd99b5fd34732b8247f5 -> fault 1 Short
frame 66557d1afaaa4aadab445f190003 -> fault 2 Length
frame ba7ea86bbc9100a5dc1fb227000d7963d9837def115597abec2b482d8758fea761af7b5875268e -> other
frame d839d81d3d274adf6e9e1cc105 -> fault 1 Short
frame 1c07869c4b5ff316bf91dbeaab37b4b2ddeba061010be333277067d19c2192f8f95592f0b9 -> bier 14
frame 12e685438e1f66e3d65648ac05dcfefe032eb70b88 -> fault 2 Length
frame adfd90e20c936dca23e1d27888470448031f4192d112f12219d6ade075482cf7a3799d -> mpls 14
frame 0bda8a28642b523702a26901ab37fefe0300aa1f96ad82b4ff -> bier 14
frame a20c4093608400793dbdd7e60003fefe0393b0c8dacec49888fcf2a92b1a7b9576073f -> isis 17 17
frame 114c886b1ee20276faf891190012fefe03c954c851a9407cc6497c5289 -> fault 2 Length
frame 6fe24c5169bef26fe7991b6105dcfefe039636206ba84edc6f585a0ec9a5 -> fault 2 Length
frame a1ab6b958cd2fecec537b2b78847fefe03e16f3cd3 -> mpls 14
frame ae3bc804fc3d0db80285d9ab0003fefe03ce7ffbb17bbe -> isis 17 17
frame 6f2809d65f4351449aa97fe3ab37fefe034e -> bier 14
frame 1739f095065a4082077489410800354de0b33e02 -> ip 14
frame b8f2a6f67fde5a9010dfe1f70800fefe038bf6ad2e3447ba490dd46b1f0f4d24f55a -> ip 14";

/// Octets, and the value, traffic class and TTL of each label of the stack at their start.
pub const STACKS: &str = "\
stack 069e9e4342c1bf657f94df53cb42e6b2 -> 27113/7/67 273435/7/101
stack 5c96a225ca864201eefd2af5a48f7a75ea8c299ee693b39c9ab3ee512a9574225f02e0decd -> 379242/1/37 829540/1/1 978898/5/245 674039/5/117 960706/4/158
stack 621c4aebd4 -> fault 1 NoBottom
stack 4bef250eacfdbd513471b19d0d81955b04704e378a741676213dc8db8d34b0db50171e26 -> 311026/2/14
stack  -> fault 1 NoBottom
stack 8c53cd56df7dcc51eb1f8db0224581 -> 574780/6/86
stack 5e971bf59bdb -> 387441/5/245
stack 4e557c273ed054b6206b864fcece7043475fce600f68859d766507faf37b88697900e6 -> 320855/6/39 257285/2/182 132792/3/79 847079/0/67 292348/7/96 63112/2/157
stack b0ed351566cd -> 724691/2/21
stack 756cfff5769d74871d3aa57d1384d6cde90ff0ff72654990537f0fe881 -> 480975/7/245
stack d5d6fa76aae158718f9e6c79 -> fault 1 NoBottom
stack 7b4fc8da54a772a49a6dc617ba2782565827d2c0e1885f11a1eb7e51b3c6e81279f28239fd -> 505084/4/218 346743/1/164 632540/3/23 762488/1/86 361085/1/192 923781/7/17
stack c422e84b3a2ee7fb3c44bf0156c88f0cb6c266e32925d49d4b -> 803374/4/75 238318/3/251
stack 628fce932248a6b955786b22ecdc9f709cca12cf277318f75447541114c41b5df923fa7c -> 403708/7/147 140426/3/185 350086/5/34
stack 69e67ec3238b3cdf10797a670a971ed8d0d5a388ff67 -> 433767/7/195 145587/6/223 67479/5/103 43377/7/216 855386/1/136
stack 96951ce5c9d80cda517ce29f -> fault 1 NoBottom
stack b0dbd07700b5ce63596b4c8a4fe9eba84ed6daa5e65b6c38 -> 724413/0/119 2908/7/99 366260/6/138 327326/5/168
stack 7cb4cc6c642f7bfd8c005f -> 510796/6/108 410359/5/253
stack ffce36916628b22552d3bfe75298b10aba9ca87bceb604321c3ec8c7 -> 1047779/3/145 418443/1/37 339259/7/231
stack f6292e5496ff45b9cc9a35fac95e -> 1008274/7/84 618484/2/185
stack c567aefbd8f096daf0337517d084804325fd8f -> 808570/7/251 888585/3/218 983863/2/23
stack 8990c646d04884907f9de6ac0db7dfe51cf1a21a53c39831aa2b70ab83c5ba470f0f11 -> 563468/3/70 853128/2/144 522718/3/172 56189/7/229
stack 23da5e0ed1d4cbbf5fc1a8f1d27783b200ae50d8fbae52dd98515ab1 -> 146853/7/14 859468/5/191
stack 7e9544a4b08cbcca98a8d84d453c1e083aa4cb13924b12033f567e -> 518484/2/164 723147/6/202 625293/4/77 283585/7/8 240204/5/19
stack 3f33b857bc2f02de9cd23e92409086dba64b9b62e8a48dbe3587a85d7243fb -> 258875/4/87 770800/1/222 642339/7/146 264456/3/219 681145/5/98
stack 2f28349a082fccb1365c4dd415d1f0f222e9ee33eb09 -> 193155/2/154 33532/6/177 222660/6/212
stack 1949083877d422ad3e3d471a60771ac82bbefe09a87dff22580657b5034c0cceaa1e4d -> 103568/4/56 490818/1/173 254932/3/26
stack fb199e4e1fc8dc148a4f5c3ea501c4b8713cd6fc7ac904b1de229b5192996b592f68a1d2a280 -> 1028505/7/78 130189/6/20 566517/6/62 675868/2/184 463821/3/252 502928/2/177 909865/5/81
stack 75c76024377c98682aee3c9918c0ea154f23fd3167502356c8eddadebd7e463692b3 -> 482422/0/36 227273/4/104 175843/6/153 101390/5/21 324159/6/49
stack a5c5b01ae767c07b1cb8ca618bc8d5f2b3ef4a3c6c -> 679003/0/26 947836/0/123 117644/5/97 572557/2/242
stack 0000004000000040000000400000004000000040000000400000004000000040 -> fault 2 Deep
stack 000010400000104000001040000010400000104000001040000010400003ffffaa -> 1/0/64 1/0/64 1/0/64 1/0/64 1/0/64 1/0/64 1/0/64 63/7/255";

pub fn tell_frame(told: &mut Told, octets: &[u8]) {
    match classify(octets) {
        Err(fault) => told.fault(fault.number(), fault.name()),
        Ok(Class::Isis { from, to }) => {
            told.number("isis ", from as u64);
            told.number(" ", to as u64);
        }
        Ok(Class::Mpls { from }) => told.number("mpls ", from as u64),
        Ok(Class::Bier { from }) => told.number("bier ", from as u64),
        Ok(Class::Ip { from }) => told.number("ip ", from as u64),
        Ok(Class::Other) => told.word("other"),
    }
}

pub fn tell_stack(told: &mut Told, octets: &[u8]) {
    match read_stack(octets) {
        Err(fault) => told.fault(fault.number(), fault.name()),
        Ok(labels) => {
            let mut before = "";
            for label in labels.as_slice() {
                told.number(before, u64::from(label.value));
                told.number("/", u64::from(label.tc));
                told.number("/", u64::from(label.ttl));
                before = " ";
            }
        }
    }
}
