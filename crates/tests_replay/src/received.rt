//! What a router does with frames that it receives.
use crate::domains::PAIR;
use crate::inputs::{LSP_OF_A, octets_of};
use crate::views::second;
use domain_conf::read_domain;
use router_core::{Effects, Router};
use std::alloc::Global;
use wire_base::{Cause, M, PduFault};

// A's own LSP, whose last octet is another one, so that its checksum is wrong.
const DAMAGED: &str =
    "09002b0000050200000000010050fefe03831b010014010000004d04b0000000000001000000000001554e030104034900018101cc890141160b0000000000020000000a00871700000000600a0000010d200b0000000001010400100065";

/// What became of a frame: the cause of its drop, how many frames the router sent at once, how many LSPs its LSDB then has, and how many
/// frames it then has to send on its first interface.
#[derive(Clone, Copy, PartialEq, Eq, Debug)]
struct Became {
    dropped: Option<Cause>,
    sent: usize,
    lsps: usize,
    due: usize,
}

fn cause_of(effects: &Effects) -> Option<Cause> {
    match effects.drops.as_slice() {
        [note] => Some(note.cause),
        _ => None,
    }
}

/// Gives a router a frame on its first interface.
fn receive(router: &mut Router, frame: &[u8]) -> M<Option<Became>> {
    if router.conf().ends.len() == 0 || frame.len() > 65_000 {
        return Ok(None);
    }
    let effects = router.frame(0, frame)?;
    let due = if router.is_up(0) {
        router.pending(0)
    } else {
        0
    };
    Ok(Some(Became {
        dropped: cause_of(&effects),
        sent: effects.sent.len(),
        lsps: router.store().len(),
        due,
    }))
}

/// Returns what becomes of a frame at the second router of the pair, which has just started.
fn becomes(alloc: Global, digits: &str) -> Option<Became> {
    let frame = octets_of(alloc, digits)?;
    let domain = read_domain(alloc, PAIR.as_bytes()).ok()?;
    let mut router = second(alloc, &domain)?;
    receive(&mut router, frame.as_slice()).ok()?
}

// Before it receives anything, the router has its own LSP, and a CSNP and that LSP to send. It acknowledges the LSP that it takes by a
// PSNP.
#[test]
fn a_damaged_lsp_is_dropped(rt: HostRuntime) {
    let dropped = Became {
        dropped: Some(Cause::Pdu(PduFault::Checksum)),
        sent: 0,
        lsps: 1,
        due: 2,
    };
    let taken = Became {
        dropped: None,
        sent: 0,
        lsps: 2,
        due: 3,
    };
    assert!(rt; becomes(rt.alloc(), DAMAGED) == Some(dropped));
    assert!(rt; becomes(rt.alloc(), LSP_OF_A) == Some(taken));
}
