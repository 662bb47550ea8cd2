//! Twelve routers in a ring with three chords, and twenty injections: each reaches all of the twelve.
use crate::made::{push_link, push_router};
use crate::runs::{FREE, Outcome, holds, run_in};
use std::alloc::Global;
use std::fmt::Write;
use wire_base::{M, Octets};

// Sub-domain 0 has labels, and sub-domain 1 a BIFT-id table.
const SUBDOMAINS: &str = "\
subdomain=[{sd=0,kind='mpls'},{sd=1,kind='configured'}]
row=[{sd=1,bsl=64,si=0,bift=5000}]
";

const CHORDS: [(u16, u16); 3] = [(0, 6), (5, 11), (10, 4)];

// The deliveries of the last line as another implementation has them: the router and the packet in sub-domain 0, each of which is
// followed by that of the packet of the same entropy in sub-domain 1.
const DELIVERIES: &str = "\
1:1 11:1 6:1 0:2 2:2 2:1 1:3 3:3 3:2 3:1 2:4 4:4 4:3 4:2 4:1 3:5 5:5 5:4 5:3 5:2 10:5 10:4 4:6 6:6 6:5 6:4 6:3 11:6 11:5 5:7 \
5:1 7:7 7:1 7:6 7:5 7:4 7:3 0:7 6:8 8:8 8:7 8:6 8:5 8:4 7:9 9:9 9:8 9:7 9:6 8:10 10:10 10:9 10:8 10:7 9:5 9:4 11:10 11:9 \
11:8 4:10 10:1 10:6 0:6 0:10 0:9 1:7 1:10 1:9 11:2 11:7 6:2 0:3 2:10 1:4 2:5 3:6 3:10 4:7 5:8 7:2 0:8 6:9 7:10 9:1 10:2 1:8 \
11:3 0:4 1:5 2:6 3:7 4:8 5:9 6:10 8:1 9:2 10:3 11:4 0:5 1:6 2:7 3:8 4:9 5:10 8:2 9:3 2:8 3:9 8:3 2:9";

// The first copy of line 12: the BIFT-id 5000, the bit S, and a TTL of 64.
const FIRST_COPY: &[u8] =
    b"\x0c\x00\x00\x00\x00\x00\x00\x00\x23\x00\x00\x00\x23\x00\x00\x00\x02\x00\x00\x01\x00\x00\x02\x00\x00\x00\x00\x01\xab\x37\x01\x38\x81\x40";

/// Appends the memberships and the labels of a router.
fn push_member(out: &mut String, place: u16) -> M<()> {
    let id = place.saturating_add(1);
    for sd in 0..2u8 {
        writeln!(out, "[[bier]]\nrouter='r{place}'\nsd={sd}\nid={id}")?;
    }
    writeln!(
        out,
        "[[labels]]\nrouter='r{place}'\nsd=0\nbsl=256\nmax_si=0\nlabel=16000"
    )?;
    Ok(())
}

/// Appends the link between two routers.
fn push_between(alloc: Global, out: &mut String, a: u16, b: u16, metric: u8) -> M<()> {
    let (a, b) = (format!(in alloc; "r{a}")?, format!(in alloc; "r{b}")?);
    push_link(out, a.as_str(), b.as_str(), metric)
}

/// Returns the domain file.
fn domain(alloc: Global) -> M<String> {
    let mut out = String::from_str(alloc, SUBDOMAINS)?;
    for place in 0..12u16 {
        let name = format!(in alloc; "r{place}")?;
        push_router(&mut out, name.as_str(), place + 1)?;
        push_member(&mut out, place)?;
    }
    for place in 0..12u16 {
        push_between(alloc, &mut out, place, (place + 1) % 12, 10)?;
    }
    for (a, b) in CHORDS {
        push_between(alloc, &mut out, a, b, 25)?;
    }
    Ok(out)
}

/// Returns the schedule: ten routers inject for all twelve, in one sub-domain and then in the other.
fn schedule(alloc: Global) -> M<String> {
    let mut out = String::from_str(alloc, "settle 40\n")?;
    for (sd, bsl) in [(0u8, 256u16), (1, 64)] {
        for n in 0..10u8 {
            writeln!(
                out,
                "inject r{n} {sd} {bsl} 1,2,3,4,5,6,7,8,9,10,11,12 64 {n} 00"
            )?;
        }
    }
    out.push_str("settle 40\n")?;
    Ok(out)
}

/// Appends the delivery of a packet at a router.
fn push_got(out: &mut String, line: u16, router: u16, packet: u16) -> M<()> {
    let id = router.saturating_add(1);
    writeln!(out, "{line} got r{router} {packet} {id} 00")?;
    Ok(())
}

fn number_of(digits: &str) -> u16 {
    digits.parse::<u16>().unwrap_or(0)
}

/// Appends a delivery of the last line, and the one after it.
fn push_both(out: &mut String, delivery: &str) -> M<()> {
    let (router, packet) = delivery.split_once(":").unwrap_or(("", ""));
    let (router, packet) = (number_of(router), number_of(packet));
    push_got(out, 22, router, packet)?;
    push_got(out, 22, router, packet.saturating_add(10))
}

/// Returns the report: each router delivers its own packets at once.
fn report(alloc: Global) -> M<String> {
    let mut out = String::new(alloc);
    for place in 0..20u16 {
        push_got(&mut out, place + 2, place % 10, place + 1)?;
    }
    for delivery in DELIVERIES.split(' ') {
        push_both(&mut out, delivery)?;
    }
    out.push_str("done lines 22 injected 20 named 240 got 240 dropped 0 flight 0\n")?;
    Ok(out)
}

fn octets(text: String) -> Octets {
    Octets::from_vec(text.into_bytes())
}

fn outcome(alloc: Global) -> M<Outcome> {
    let words = ["replay", "twelve", "schedule", "frames"];
    run_in(
        alloc,
        &words,
        octets(domain(alloc)?),
        octets(schedule(alloc)?),
        FREE,
    )
}

/// Returns whether a run has that report, and sends the copy.
fn is_as_wanted(outcome: &Outcome, report: &str) -> (bool, bool) {
    (
        outcome.report.as_slice() == report.as_bytes(),
        holds(outcome.frames.as_slice(), FIRST_COPY),
    )
}

fn reaches_all(alloc: Global) -> M<(bool, bool)> {
    let wanted = report(alloc)?;
    Ok(is_as_wanted(&outcome(alloc)?, wanted.as_str()))
}

#[test]
fn each_injection_reaches_each_router(rt: HostRuntime) {
    assert!(rt; reaches_all(rt.alloc()) == Ok((true, true)));
}
