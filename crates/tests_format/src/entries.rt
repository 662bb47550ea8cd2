//! TLVs and the entries of the TLVs 22 and 135.
use crate::told::Told;
use isis_tlv::{TlvWalk, read_prefix, read_reach};

/// Entries of TLV 22 as another implementation parses them.
pub const REACHES: &str = "\
reach 2fc7d702a7c9e98e905900d8f3 -> neighbour 2fc7d702a7c9 pseudonode 233 metric 9343065 subs - size 11
reach 73bcc9eae73603997ec600 -> neighbour 73bcc9eae736 pseudonode 3 metric 10059462 subs - size 11
reach 2fa423b271c7c5ada1df0927646e72225b92e695f753 -> neighbour 2fa423b271c7 pseudonode 197 metric 11379167 subs 27646e72225b92e695 size 20
reach f98c36defe4b0c51ce2a034650cc -> neighbour f98c36defe4b pseudonode 12 metric 5361194 subs 4650cc size 14
reach 441e170178f14cb58508003e59 -> neighbour 441e170178f1 pseudonode 76 metric 11896072 subs - size 11
reach 4716bf6ae9af08806cb109b022bab7711ce3f49000 -> neighbour 4716bf6ae9af pseudonode 8 metric 8416433 subs b022bab7711ce3f490 size 20
reach ed77031035085a2c952e0070 -> neighbour ed7703103508 pseudonode 90 metric 2921774 subs - size 11
reach 166ae27317ff52054e3803f1ff6e4066 -> neighbour 166ae27317ff pseudonode 82 metric 347704 subs f1ff6e size 14
reach 170a546498efd2514c150919e425690ee84433a7 -> neighbour 170a546498ef pseudonode 210 metric 5327893 subs 19e425690ee84433a7 size 20
reach e36bfccf52dffc122cb7034f2c729c -> neighbour e36bfccf52df pseudonode 252 metric 1191095 subs 4f2c72 size 14
reach c74649a0324c0329e863094d19e3621be59f2e74f55e -> neighbour c74649a0324c pseudonode 3 metric 2746467 subs 4d19e3621be59f2e74 size 20
reach f0dc055ff0cf72fc6273001d54 -> neighbour f0dc055ff0cf pseudonode 114 metric 16540275 subs - size 11
reach 4ce7856ee84168e01ffe093b65189e0db0153d3a -> neighbour 4ce7856ee841 pseudonode 104 metric 14688254 subs 3b65189e0db0153d3a size 20
reach 067f7eb8005950e5d93509f77b821c5d4f4e8f6626 -> neighbour 067f7eb80059 pseudonode 80 metric 15063349 subs f77b821c5d4f4e8f66 size 20
reach 24d19aca31aa383ad5f609d8e1312c2a293c52f0a2 -> neighbour 24d19aca31aa pseudonode 56 metric 3855862 subs d8e1312c2a293c52f0 size 20
reach 01b7af -> fault 2 EntryShort
reach 259db23b21fb7ab4359c001685 -> neighbour 259db23b21fb pseudonode 122 metric 11810204 subs - size 11
reach 24d683028cf35bfb47250029c9 -> neighbour 24d683028cf3 pseudonode 91 metric 16467749 subs - size 11
reach 6b88eeea684b552cd3ef09e0c11f28daf75a2093 -> neighbour 6b88eeea684b pseudonode 85 metric 2937839 subs e0c11f28daf75a2093 size 20
reach fcccff53c3 -> fault 2 EntryShort
reach 23 -> fault 2 EntryShort
reach f5d672746cc1cfb9fb00 -> fault 2 EntryShort";

/// Entries of TLV 135 as another implementation parses them.
pub const PREFIXES: &str = "\
prefix d50ba9562861d33f0cc8 -> fault 3 PrefixLen
prefix c9642a0a28a0326b1ad2 -> fault 3 PrefixLen
prefix 13460958961d5f025330 -> metric 323357016 control 150 length 22 octets 1d5f0200 subs - size 8
prefix c8ff0ac2a0d1d9a3b4 -> metric 3372157634 control 160 length 32 octets d1d9a3b4 subs - size 9
prefix 79336f8680 -> metric 2033414022 control 128 length 0 octets 00000000 subs - size 5
prefix 7ed556332002dd399d -> metric 2127910451 control 32 length 32 octets 02dd399d subs - size 9
prefix c7b95f2b204f534b31 -> metric 3350814507 control 32 length 32 octets 4f534b31 subs - size 9
prefix 9d4794a789a1cb -> metric 2638714023 control 137 length 9 octets a1cb0000 subs - size 7
prefix 011bcea7c900cf -> fault 2 EntryShort
prefix c5b1cd3218c247e5 -> metric 3316763954 control 24 length 24 octets c247e500 subs - size 8
prefix 3e1992ba49414a32666b -> fault 2 EntryShort
prefix cc97f15ba174a55e0165 -> fault 3 PrefixLen
prefix 1f7cadc12120d821e2c4 -> fault 3 PrefixLen
prefix 4a98d4de40078d31a74171b07f -> metric 1251529950 control 64 length 0 octets 00000000 subs 8d31a74171b07f size 13
prefix 4d11623b20fb645ee0 -> metric 1292984891 control 32 length 32 octets fb645ee0 subs - size 9
prefix 4ff373b05820805a00 -> metric 1341354928 control 88 length 24 octets 20805a00 subs - size 9
prefix 9af05ecce064cdf19707159baf04bfbb00 -> metric 2599444172 control 224 length 32 octets 64cdf197 subs 159baf04bfbb00 size 17
prefix 6e06636ee05cac20a500 -> metric 1845912430 control 224 length 32 octets 5cac20a5 subs - size 10
prefix 872ada00 -> fault 2 EntryShort
prefix d8a646758818 -> metric 3634775669 control 136 length 8 octets 18000000 subs - size 6
prefix d54e7b3d80 -> metric 3578690365 control 128 length 0 octets 00000000 subs - size 5
prefix f306cc -> fault 2 EntryShort";

/// Sequences of TLVs: code and value of each, and how the sequence ends.
pub const WALKS: &str = "\
walk 01 -> overrun
walk  -> end
walk 0104034900018101cc -> 1:03490001 129:cc end
walk 8101cc8901 -> 129:cc overrun
walk 0500 -> 5:- end
walk 05000a02ff -> 5:- overrun";

pub fn tell_reach(told: &mut Told, octets: &[u8]) {
    match read_reach(octets) {
        Err(fault) => told.fault(fault.number(), fault.name()),
        Ok((reach, size)) => {
            told.digits("neighbour ", &reach.neighbour.0);
            told.number(" pseudonode ", u64::from(reach.pseudonode));
            told.number(" metric ", u64::from(reach.metric));
            told.digits(" subs ", reach.subs);
            told.number(" size ", size as u64);
        }
    }
}

pub fn tell_prefix(told: &mut Told, octets: &[u8]) {
    match read_prefix(octets) {
        Err(fault) => told.fault(fault.number(), fault.name()),
        Ok((prefix, size)) => {
            told.number("metric ", u64::from(prefix.metric));
            told.number(" control ", u64::from(prefix.control));
            told.number(" length ", u64::from(prefix.length));
            told.digits(" octets ", &prefix.octets);
            told.digits(" subs ", prefix.subs);
            told.number(" size ", size as u64);
        }
    }
}

pub fn tell_walk(told: &mut Told, octets: &[u8]) {
    let mut walk = TlvWalk::new(octets);
    for _ in 0..8 {
        match walk.next() {
            Err(_) => return told.word("overrun"),
            Ok(None) => return told.word("end"),
            Ok(Some(tlv)) => {
                told.number("", u64::from(tlv.code));
                told.digits(":", tlv.value);
                told.word(" ");
            }
        }
    }
}
