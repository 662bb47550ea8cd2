//! Each row of a table has the keyword of a parser, octets, and what the parser returns for them.
use crate::entries::{PREFIXES, REACHES, WALKS, tell_prefix, tell_reach, tell_walk};
use crate::frames::{FRAMES, STACKS, tell_frame, tell_stack};
use crate::headers::{HEADERS, bsl_in, tell_coded, tell_header};
use crate::infos::{INFOS, tell_info};
use crate::pdus::{CHECKSUMS, PDUS, tell_checksum, tell_pdu};
use crate::told::Told;
use crate::tunnels::{TUNNELS, tell_tunnel};
use std::test::Fail;
use wire_base::{Kind, Level};

const TABLES: [&str; 10] = [
    FRAMES, STACKS, TUNNELS, HEADERS, REACHES, PREFIXES, WALKS, INFOS, PDUS, CHECKSUMS,
];

/// Reports what the parser with that keyword returns for octets.
fn tell(told: &mut Told, reader: &str, octets: &[u8]) {
    match reader {
        "frame" => tell_frame(told, octets),
        "stack" => tell_stack(told, octets),
        "tunnel" => tell_tunnel(told, octets),
        "reach" => tell_reach(told, octets),
        "prefix" => tell_prefix(told, octets),
        "walk" => tell_walk(told, octets),
        "info" => tell_info(told, octets),
        "pdu-1" => tell_pdu(told, Level::One, octets),
        "pdu-2" => tell_pdu(told, Level::Two, octets),
        "checksum" => tell_checksum(told, octets),
        "mpls" => tell_coded(told, Kind::Mpls, octets),
        "bier" => tell_coded(told, Kind::Configured, octets),
        _ => tell_by_length(told, reader, octets),
    }
}

/// Reports a header whose BitStringLength is in the parser's keyword.
fn tell_by_length(told: &mut Told, reader: &str, octets: &[u8]) {
    let kind = if reader.starts_with("mpls") {
        Kind::Mpls
    } else {
        Kind::Configured
    };
    tell_header(told, kind, bsl_in(reader), octets);
}

#[test]
fn octets_are_read(rt: HostRuntime) -> Result<(), Fail> {
    for table in TABLES {
        for line in table.lines() {
            let (given, wanted) = line.split_once(" -> ").ok_or("a line without an arrow")?;
            let (reader, digits) = given.split_once(" ").ok_or("a line without a reader")?;
            let octets = hex::decode(rt.alloc(), digits)?;
            let mut told = Told::new(rt.alloc());
            tell(&mut told, reader, octets.as_slice());
            assert_eq!(rt; told.text(), wanted.as_bytes(), "at {given}");
        }
    }
    Ok(())
}
