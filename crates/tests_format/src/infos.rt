//! BIER Info.
use crate::told::Told;
use bier_subtlv::read_info;

/// Values of a sub-TLV 32 as another implementation parses them.
pub const INFOS: &str = "\
info 01076de88f0204ff1fffff0104ff6fffff -> fault 3 Algorithm
info 0000ff5c020104ffdffff0 -> sd 255 id 23554 ranges -
info 00002806ec0104007ffff00104004fffff0104fffffff0010403219102 -> sd 40 id 1772 ranges 4096/0/1048560 512/0/1048575 128/3/102658
info 0000cf0e460104002fffff010400affff0010400cffff0010403bffff0 -> sd 207 id 3654 ranges 128/0/1048575
info 00002e332f0104030ffff0010403bfffff0104ff61e0d3010403cffff0 -> sd 46 id 13103 ranges 2048/255/123091
info 000058f6d5010400c69d150104038fffff0204ff0fffff0104ff2e89f6 -> sd 88 id 63189 ranges 128/255/952822
info 000080ffa70104ff46e0f4 -> sd 128 id 65447 ranges 512/255/450804
info 0000da4643010403bfffff0104ffe8aa920104ffa77723 -> sd 218 id 17987 ranges -
info 00004df5630104ff8437150104036ce68e0104035c6bb30104031ffff0 -> sd 77 id 62819 ranges 2048/3/845454 1024/3/814003 64/3/1048560
info 0007a350080104ff6d0a87090400fc8ba4010400052d9a0104002fffff -> fault 3 Algorithm
info 0000bec47d017c00afff003104ff2fff -> fault 1 Short
info 000015006104ff -> fault 1 Short
info 01008f378e010403ce34230104ff9fffff010400bffff0 -> fault 3 Algorithm
info 00005c413a010400cffff00104005ffff0010403bffff00104033fffff -> sd 92 id 16698 ranges 1024/0/1048560
info 00009003360204033a7bf60104ff19eab2 -> sd 144 id 822 ranges 64/255/649906
info 0000da4a98010403fffff00904002ffff0 -> sd 218 id 19096 ranges -
info 0000770f68 -> sd 119 id 3944 ranges -
info 0000946a3d -> sd 148 id 27197 ranges -
info 00ff41afff010403efffff090403affff0010400872a700104ff7ff00104ff2fffff -> fault 3 Algorithm
info 08 -> fault 1 Short
info 0000db26be01040072e67c0104ff2fffff0104ff238b50 -> fault 2 RepeatedLength
info 0000000001010400300064010401300100 -> fault 2 RepeatedLength
info 0000000001010400300064010401400100 -> sd 0 id 1 ranges 256/0/100 512/1/256
info 00000000010104003000640104014fffff -> sd 0 id 1 ranges 256/0/100
info 00000000 -> fault 1 Short
info 0001000000 -> fault 3 Algorithm
info 0100000000 -> fault 3 Algorithm
info 00000000010103003000 -> fault 1 Short
info 0000000001010400800064010400000064 -> sd 0 id 1 ranges -
info 000000000101 -> fault 1 Short
info 00000000010104014fffff0104004fffff -> fault 2 RepeatedLength";

pub fn tell_info(told: &mut Told, octets: &[u8]) {
    match read_info(octets) {
        Err(fault) => told.fault(fault.number(), fault.name()),
        Ok(info) => {
            told.number("sd ", u64::from(info.sd));
            told.number(" id ", u64::from(info.id));
            told.word(" ranges");
            for range in info.ranges.as_slice() {
                told.number(" ", u64::from(range.bsl.bits()));
                told.number("/", u64::from(range.max_si));
                told.number("/", u64::from(range.label));
            }
            if info.ranges.as_slice().is_empty() {
                told.word(" -");
            }
        }
    }
}
