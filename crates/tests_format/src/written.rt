//! PDUs that are written from their fields, octet by octet.
use crate::told::Told;
use isis_pdu::{LspHead, checksum_at, write_csnp, write_lsp};
use std::alloc::Global;
use std::test::Fail;
use wire_base::{Level, LspId, M, Octets, Summary, SystemId};

/// The area, IPv4, the name, a link, the prefix and its BIER Info, as a router with one link and one label range
/// advertises them.
const CONTENT: &[u8] =
    b"\x01\x04\x03\x49\0\x01\x81\x01\xcc\x89\x01\x41\x16\x0b\0\0\0\0\0\x02\0\0\0\x0a\0\x87\x17\0\0\0\0\x60\x0a\0\0\x01\x0d\x20\x0b\0\0\0\0\x01\x01\x04\0\x10\0\x64";

/// Its first LSP, and a CSNP that lists that LSP.
const LSP: &str =
    "831b010014010000004d04b0000000000001000000000001554e030104034900018101cc890141160b0000000000020000000a00871700000000600a0000010d200b0000000001010400100064";

const CSNP: &str =
    "83210100190100000033000000000001000000000000000000ffffffffffffffff091004b0000000000001000000000001554e";

fn system() -> SystemId {
    SystemId([0, 0, 0, 0, 0, 1])
}

fn id_of(octet: u8) -> LspId {
    LspId {
        system: SystemId([octet; 6]),
        pseudonode: octet,
        fragment: octet,
    }
}

/// Returns the LSP with that checksum.
fn lsp(alloc: Global, sum: u16) -> M<Octets> {
    let head = LspHead {
        life: 1200,
        id: LspId::fragment_0(system()),
        seq: 1,
        sum,
        flags: 3,
    };
    write_lsp(alloc, Level::Two, &head, CONTENT)
}

/// Returns the checksum of an LSP that was written with 0 in its place; it begins behind the Remaining Lifetime.
fn sum_of(pdu: &[u8]) -> u16 {
    if pdu.len() < 26 || pdu.len() > 1500 || pdu[24] != 0 || pdu[25] != 0 {
        return 0;
    }
    checksum_at(&pdu[12..], 12)
}

fn lsp_with_its_sum(alloc: Global) -> M<Octets> {
    let open = lsp(alloc, 0)?;
    lsp(alloc, sum_of(open.as_slice()))
}

fn csnp(alloc: Global) -> M<Octets> {
    let row = Summary {
        life: 1200,
        id: LspId::fragment_0(system()),
        seq: 1,
        sum: 0x554e,
    };
    write_csnp(alloc, Level::Two, system(), id_of(0), id_of(0xff), &[row])
}

#[test]
fn pdus_are_written_from_their_fields(rt: HostRuntime) -> Result<(), Fail> {
    let mut told = Told::new(rt.alloc());
    told.digits("", lsp_with_its_sum(rt.alloc())?.as_slice());
    assert_eq!(rt; told.text(), LSP.as_bytes());
    let mut told = Told::new(rt.alloc());
    told.digits("", csnp(rt.alloc())?.as_slice());
    assert_eq!(rt; told.text(), CSNP.as_bytes());
    Ok(())
}
