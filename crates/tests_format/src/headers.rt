//! BIER headers whose parsed values were computed by other software.
ghost use Rattle.bier_head.specs.Views.{header_of};
ghost use Rattle.wire_base.specs.model.BierHeader.{FieldsFit};

use crate::told::Told;
use bier_head::{Header, read_by_field, read_header, write_header};
use wire_base::{Bsl, Kind};

/// Headers, parsed with the length that the BIFT-id implies and with the one in the length field.
pub const HEADERS: &str = "\
mpls-64 000641405010000a000400010000000000000005 -> bift 100 tc 0 s 1 ttl 64 nibble 5 bsl_code 1 entropy 10 oam 0 rsv 0 dscp 0 proto 4 bfir 1 positions 1,3
mpls 000641405010000a000400010000000000000005 -> bift 100 tc 0 s 1 ttl 64 nibble 5 bsl_code 1 entropy 10 oam 0 rsv 0 dscp 0 proto 4 bfir 1 positions 1,3
mpls-64 000641405010000a0004000100000000000000 -> fault 1 Short
mpls 000641405010000a0004000100000000000000 -> fault 1 Short
mpls-64 000641404010000a000400010000000000000005 -> fault 2 Nibble
mpls 000641404010000a000400010000000000000005 -> fault 2 Nibble
mpls-64 000641405110000a000400010000000000000005 -> fault 3 Version
mpls 000641405110000a000400010000000000000005 -> fault 3 Version
mpls-64 000641405080000a000400010000000000000005 -> bift 100 tc 0 s 1 ttl 64 nibble 5 bsl_code 8 entropy 10 oam 0 rsv 0 dscp 0 proto 4 bfir 1 positions 1,3
mpls 000641405080000a000400010000000000000005 -> fault 4 BslCode
mpls-64 298700c650 -> fault 1 Short
mpls 298700c650 -> fault 1 Short
mpls-128 5eb4eebe50d3758f0165851900 -> fault 1 Short
mpls 5eb4eebe50d3758f0165851900 -> fault 4 BslCode
bier-64 951d42fb501a11a95f76f38a00ff000000080000 -> bift 610772 tc 1 s 0 ttl 251 nibble 5 bsl_code 1 entropy 659881 oam 1 rsv 1 dscp 61 proto 54 bfir 62346 positions 20,49,50,51,52,53,54,55,56
bier 951d42fb501a11a95f76f38a00ff000000080000 -> bift 610772 tc 1 s 0 ttl 251 nibble 5 bsl_code 1 entropy 659881 oam 1 rsv 1 dscp 61 proto 54 bfir 62346 positions 20,49,50,51,52,53,54,55,56
mpls-64 b2a980de501f688e7afca1d54000c00004000000 -> bift 731800 tc 0 s 0 ttl 222 nibble 5 bsl_code 1 entropy 1009806 oam 1 rsv 3 dscp 43 proto 60 bfir 41429 positions 27,47,48,63
mpls b2a980de501f688e7afca1d54000c00004000000 -> bift 731800 tc 0 s 0 ttl 222 nibble 5 bsl_code 1 entropy 1009806 oam 1 rsv 3 dscp 43 proto 60 bfir 41429 positions 27,47,48,63
bier-64 1a4adcdb151f3a2fac7020bd4000200000000802 -> fault 3 Version
bier 1a4adcdb151f3a2fac7020bd4000200000000802 -> fault 3 Version
mpls-64 1c11970a5115a219e3e1d0458000000000011400 -> fault 3 Version
mpls 1c11970a5115a219e3e1d0458000000000011400 -> fault 3 Version
bier-64 4c92e3baf01fa07e279fb4a8000080004000000c -> bift 313646 tc 1 s 1 ttl 186 nibble 15 bsl_code 1 entropy 1024126 oam 0 rsv 2 dscp 30 proto 31 bfir 46248 positions 3,4,31,48
bier 4c92e3baf01fa07e279fb4a8000080004000000c -> bift 313646 tc 1 s 1 ttl 186 nibble 15 bsl_code 1 entropy 1024126 oam 0 rsv 2 dscp 30 proto 31 bfir 46248 positions 3,4,31,48
bier-64 1d18cad250a6215eda6f08654000000000100800 -> bift 119180 tc 5 s 0 ttl 210 nibble 5 bsl_code 10 entropy 401758 oam 3 rsv 1 dscp 41 proto 47 bfir 2149 positions 12,21,63
bier 1d18cad250a6215eda6f08654000000000100800 -> fault 4 BslCode
mpls-64 21160d8e101d421c7beab24e0000000000000000 -> fault 2 Nibble
mpls 21160d8e101d421c7beab24e0000000000000000 -> fault 2 Nibble
mpls-64 81d65e579014058ee5ee40520000000000000000 -> fault 2 Nibble
mpls 81d65e579014058ee5ee40520000000000000000 -> fault 2 Nibble
mpls-128 586a5b3f502184a59cc77b1001000100000000000000000000400002 -> bift 362149 tc 5 s 1 ttl 63 nibble 5 bsl_code 2 entropy 99493 oam 2 rsv 1 dscp 51 proto 7 bfir 31504 positions 2,23,105,121
mpls 586a5b3f502184a59cc77b1001000100000000000000000000400002 -> bift 362149 tc 5 s 1 ttl 63 nibble 5 bsl_code 2 entropy 99493 oam 2 rsv 1 dscp 51 proto 7 bfir 31504 positions 2,23,105,121
mpls-128 502cdddf5028ca861ff3d0fd01001000000000100000000200000000 -> bift 328397 tc 6 s 1 ttl 223 nibble 5 bsl_code 2 entropy 576134 oam 0 rsv 1 dscp 63 proto 51 bfir 53501 positions 34,69,109,121
mpls 502cdddf5028ca861ff3d0fd01001000000000100000000200000000 -> bift 328397 tc 6 s 1 ttl 223 nibble 5 bsl_code 2 entropy 576134 oam 0 rsv 1 dscp 63 proto 51 bfir 53501 positions 34,69,109,121
mpls-128 b2257fab50005100b059989f00000000000108008200010000002000 -> bift 729687 tc 7 s 1 ttl 171 nibble 5 bsl_code 0 entropy 20736 oam 2 rsv 3 dscp 1 proto 25 bfir 39071 positions 14,41,58,64,76,81
mpls b2257fab50005100b059989f00000000000108008200010000002000 -> fault 4 BslCode
bier-256 9a0e1d4350511b94efe8ac770000020000000000000000000000000000000000000000000000000000000000 -> bift 631009 tc 6 s 1 ttl 67 nibble 5 bsl_code 5 entropy 72596 oam 3 rsv 2 dscp 63 proto 40 bfir 44151 positions 234
bier 9a0e1d4350511b94efe8ac770000020000000000000000000000000000000000000000000000000000000000 -> fault 1 Short
mpls-256 3eab79ef50393f8a2f2996090000000000400000000000000000000000000000000000000000070000000400 -> bift 256695 tc 4 s 1 ttl 239 nibble 5 bsl_code 3 entropy 606090 oam 0 rsv 2 dscp 60 proto 41 bfir 38409 positions 11,41,42,43,215
mpls 3eab79ef50393f8a2f2996090000000000400000000000000000000000000000000000000000070000000400 -> bift 256695 tc 4 s 1 ttl 239 nibble 5 bsl_code 3 entropy 606090 oam 0 rsv 2 dscp 60 proto 41 bfir 38409 positions 11,41,42,43,215
mpls-512 7d799299504ae10e83d0b4a400000000000000000000000000000000000000000000000000000000000000000000000000000000400000000000000000000000000000000000000000000004 -> bift 513945 tc 1 s 0 ttl 153 nibble 5 bsl_code 4 entropy 712974 oam 2 rsv 0 dscp 15 proto 16 bfir 46244 positions 3,191
mpls 7d799299504ae10e83d0b4a400000000000000000000000000000000000000000000000000000000000000000000000000000000400000000000000000000000000000000000000000000004 -> bift 513945 tc 1 s 0 ttl 153 nibble 5 bsl_code 4 entropy 712974 oam 2 rsv 0 dscp 15 proto 16 bfir 46244 positions 3,191";

/// Returns the length in the keyword of a parser.
pub fn bsl_in(reader: &str) -> Bsl {
    match reader {
        "mpls-64" | "bier-64" => Bsl::B64,
        "mpls-128" => Bsl::B128,
        "mpls-256" | "bier-256" => Bsl::B256,
        _ => Bsl::B512,
    }
}

pub fn tell_header(told: &mut Told, kind: Kind, bsl: Bsl, octets: &[u8]) {
    match read_header(kind, bsl, octets) {
        Err(fault) => told.fault(fault.number(), fault.name()),
        Ok(header) => {
            tell_fields(told, &header);
            if !stands_at(&header, octets) {
                told.word(" written otherwise");
            }
        }
    }
}

pub fn tell_coded(told: &mut Told, kind: Kind, octets: &[u8]) {
    match read_by_field(kind, octets) {
        Err(fault) => told.fault(fault.number(), fault.name()),
        Ok(header) => tell_fields(told, &header),
    }
}

fn tell_fields(told: &mut Told, header: &Header) {
    told.number("bift ", u64::from(header.bift));
    told.number(" tc ", u64::from(header.tc));
    told.number(" s ", u64::from(header.s));
    told.number(" ttl ", u64::from(header.ttl));
    told.number(" nibble ", u64::from(header.nibble));
    told.number(" bsl_code ", u64::from(header.bsl_code));
    told.number(" entropy ", u64::from(header.entropy));
    told.number(" oam ", u64::from(header.oam));
    told.number(" rsv ", u64::from(header.rsv));
    told.number(" dscp ", u64::from(header.dscp));
    told.number(" proto ", u64::from(header.proto));
    told.number(" bfir ", u64::from(header.bfir));
    told.positions(" positions ", &header.bits);
}

// Returns whether a header is written as the octets at the start of a slice.
fn stands_at(header: &Header, octets: &[u8]) -> bool
    requires { FieldsFit (header_of header.now) }
{
    let mut out = [0xff; 524];
    let length = 12 + usize::from(header.bits.bsl().bits() / 8);
    write_header(header, &mut out[..length]);
    octets.starts_with(&out[..length])
}
