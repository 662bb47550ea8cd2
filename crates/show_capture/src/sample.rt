//! The frames of the sample, built with the same calls that a router uses.
use bier_subtlv::push_info;
use isis_hello::{Hello, Tri, write_hello};
use isis_pdu::{LspHead, checksum_at, write_csnp, write_lsp, write_psnp};
use isis_tlv::{PrefixEntry, Reach, push_prefix, push_reach, push_tlv};
use link_frame::write_eth;
use pcap_frames::{write_cap_header, write_cap_record};
use std::alloc::Global;
use wire_base::codepoints::{
    NLPID_IPV4, TLV_AREA_ADDRESSES, TLV_DYNAMIC_HOSTNAME, TLV_EXTENDED_IP_REACH,
    TLV_EXTENDED_IS_REACH, TLV_PROTOCOLS_SUPPORTED,
};
use wire_base::{Bsl, LabelRange, Level, LspId, M, Mac, Octets, OwnSub, Rows, Summary, SystemId};

/// The destination address of IS-IS frames (ISO/IEC 10589, 8.4).
const ALL_ROUTERS: Mac = Mac([0x09, 0x00, 0x2b, 0x00, 0x00, 0x05]);

const AREA: [u8; 3] = [0x49, 0, 1];

fn system(n: u8) -> SystemId {
    SystemId([0, 0, 0, 0, 0, n])
}

/// Returns the hello of a router whose circuit has the same number as the router, by the state of its adjacency and the neighbor
/// that it lists.
fn hello(alloc: Global, n: u8, state: Tri, named: Option<u8>) -> M<Octets> {
    let area = Octets::from_slice(alloc, &AREA)?;
    let hello = Hello {
        source: system(n),
        hold: 30,
        circuit: u32::from(n),
        state,
        named: match named {
            Some(neighbor) => Some((system(neighbor), u32::from(neighbor))),
            None => None,
        },
    };
    write_hello(alloc, Level::Two, &area, &hello)
}

fn fragment_0(n: u8) -> LspId {
    LspId {
        system: system(n),
        pseudonode: 0,
        fragment: 0,
    }
}

/// Returns the BIER Info of a router, with label ranges for BitStrings of 64 and of 256 bits.
fn info(alloc: Global, n: u8) -> M<Octets> {
    let mut ranges = Rows::new(alloc);
    ranges.push(LabelRange {
        bsl: Bsl::B64,
        max_si: 3,
        label: 100,
    })?;
    let mut out = Octets::new(alloc);
    push_info(
        &mut out,
        &OwnSub {
            sd: 0,
            id: u16::from(n),
            ranges,
        },
    )?;
    Ok(out)
}

/// Returns the links of a router to its two neighbors.
fn links(alloc: Global, neighbours: [u8; 2]) -> M<Octets> {
    let mut out = Octets::new(alloc);
    for neighbour in neighbours {
        push_reach(
            &mut out,
            &Reach {
                neighbour: system(neighbour),
                pseudonode: 0,
                metric: 10,
                subs: &[],
            },
        )?;
    }
    Ok(out)
}

/// Returns the prefix of a router, with its BIER Info.
fn prefix(alloc: Global, n: u8) -> M<Octets> {
    let info = info(alloc, n)?;
    let mut out = Octets::new(alloc);
    if info.len() <= 255 {
        push_prefix(
            &mut out,
            &PrefixEntry {
                metric: 0,
                control: 0x60,
                length: 32,
                octets: [10, 0, 0, n],
                subs: info.as_slice(),
            },
        )?;
    }
    Ok(out)
}

/// Returns the TLVs of a router's own LSP.
fn tlvs(alloc: Global, n: u8, neighbours: [u8; 2]) -> M<Octets> {
    let links = links(alloc, neighbours)?;
    let prefix = prefix(alloc, n)?;
    let mut out = Octets::new(alloc);
    push_tlv(&mut out, TLV_AREA_ADDRESSES, &[3, 0x49, 0, 1])?;
    push_tlv(&mut out, TLV_PROTOCOLS_SUPPORTED, &[NLPID_IPV4])?;
    push_tlv(&mut out, TLV_DYNAMIC_HOSTNAME, b"router".as_slice())?;
    if links.len() <= 255 && prefix.len() <= 255 {
        push_tlv(&mut out, TLV_EXTENDED_IS_REACH, links.as_slice())?;
        push_tlv(&mut out, TLV_EXTENDED_IP_REACH, prefix.as_slice())?;
    }
    Ok(out)
}

/// Returns the checksum of an LSP whose checksum field is still 0.
fn sum_of(lsp: &[u8]) -> u16 {
    if lsp.len() < 27 || lsp.len() > 65_535 || lsp[24] != 0 || lsp[25] != 0 {
        return 0;
    }
    checksum_at(&lsp[12..], 12)
}

/// Returns a live LSP with its checksum.
fn lsp(alloc: Global, n: u8, seq: u32, neighbours: [u8; 2]) -> M<Octets> {
    let tlvs = tlvs(alloc, n, neighbours)?;
    let mut head = LspHead {
        life: 1200,
        id: fragment_0(n),
        seq,
        sum: 0,
        flags: 3,
    };
    if tlvs.len() > 1470 {
        return Ok(Octets::new(alloc));
    }
    let bare = write_lsp(alloc, Level::Two, &head, tlvs.as_slice())?;
    head.sum = sum_of(bare.as_slice());
    write_lsp(alloc, Level::Two, &head, tlvs.as_slice())
}

/// Returns a purge: only the LSP header, with Remaining Lifetime 0.
fn purge(alloc: Global, n: u8, seq: u32) -> M<Octets> {
    let head = LspHead {
        life: 0,
        id: fragment_0(n),
        seq,
        sum: 0,
        flags: 0,
    };
    write_lsp(alloc, Level::Two, &head, &[])
}

/// Returns the entry of a CSNP or PSNP for a written LSP.
fn row(n: u8, seq: u32, lsp: &[u8]) -> Summary {
    let sum = if lsp.len() < 27 {
        0
    } else {
        u16::from(lsp[24]) * 256 + u16::from(lsp[25])
    };
    Summary {
        life: 1200,
        id: fragment_0(n),
        seq,
        sum,
    }
}

/// Appends the record of a PDU in its frame.
fn push_record(alloc: Global, out: &mut Octets, sec: u32, from: u8, pdu: &[u8]) -> M<()> {
    if pdu.len() > 1497 {
        return Ok(());
    }
    let mut head = [0u8; 17];
    write_eth(
        &mut head,
        ALL_ROUTERS,
        Mac([2, 0, 0, 0, 0, from]),
        (3 + pdu.len()) as u16,
    );
    head[14] = 0xfe;
    head[15] = 0xfe;
    head[16] = 0x03;
    let mut frame = Octets::new(alloc);
    frame.append_two(&head, pdu)?;
    write_cap_record(out, sec, 0, frame.as_slice())
}

/// Appends the hellos by which the routers 1 and 2 bring their adjacency up: one in each state.
fn push_hellos(alloc: Global, out: &mut Octets) -> M<()> {
    let first = hello(alloc, 1, Tri::Down, None)?;
    push_record(alloc, out, 0, 1, first.as_slice())?;
    let answer = hello(alloc, 2, Tri::Initializing, Some(1))?;
    push_record(alloc, out, 0, 2, answer.as_slice())?;
    let last = hello(alloc, 1, Tri::Up, Some(2))?;
    push_record(alloc, out, 0, 1, last.as_slice())
}

/// Returns the capture.
pub fn capture(alloc: Global) -> M<Octets> {
    let one = lsp(alloc, 1, 1, [2, 3])?;
    let two = lsp(alloc, 2, 1, [1, 3])?;
    let three = lsp(alloc, 3, 7, [1, 2])?;
    let last = LspId {
        system: SystemId([255; 6]),
        pseudonode: 255,
        fragment: 255,
    };
    let rows = [
        row(1, 1, one.as_slice()),
        row(2, 1, two.as_slice()),
        row(3, 7, three.as_slice()),
    ];
    let csnp = write_csnp(alloc, Level::Two, system(1), LspId::default(), last, &rows)?;
    let psnp = write_psnp(alloc, Level::Two, system(2), &rows[..1])?;
    let mut out = Octets::new(alloc);
    write_cap_header(&mut out)?;
    push_hellos(alloc, &mut out)?;
    push_record(alloc, &mut out, 1, 1, csnp.as_slice())?;
    push_record(alloc, &mut out, 1, 1, one.as_slice())?;
    push_record(alloc, &mut out, 2, 2, psnp.as_slice())?;
    push_record(alloc, &mut out, 2, 2, two.as_slice())?;
    push_record(alloc, &mut out, 3, 3, three.as_slice())?;
    let gone = purge(alloc, 3, 8)?;
    push_record(alloc, &mut out, 4, 3, gone.as_slice())?;
    Ok(out)
}
