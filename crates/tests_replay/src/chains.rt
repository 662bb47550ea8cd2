//! Chains of routers without BIER, over which a tunnel has as many links as an outer TTL covers, or one more.
ghost use Rattle.std.specs.Prelude.{◌<◌};

use crate::inputs::lines_of;
use crate::made::{push_link, push_router};
use crate::runs::{FREE, Limits, run_in};
use std::alloc::Global;
use wire_base::{M, Octets};

// What a domain file has of the ends of a chain.
const ENDS: &str = "\
subdomain=[{sd=0,kind='mpls'}]
bier=[{router='A',sd=0,id=1},{router='C',sd=0,id=2}]
labels=[{router='A',sd=0,bsl=64,max_si=0,label=100},{router='C',sd=0,bsl=64,max_si=0,label=300}]
";

const SCHEDULE: &str = "settle 260 / inject A 0 64 2 8 0 00 / settle 1";

/// Returns the name of the router at an index of a chain that ends with C at index `last`: A, p1, p2 and so on, C.
fn name_at(alloc: Global, last: u16, place: u16) -> M<String> {
    if place == 0 {
        Ok(String::from_str(alloc, "A")?)
    } else if place == last {
        Ok(String::from_str(alloc, "C")?)
    } else {
        Ok(format!(in alloc; "p{place}")?)
    }
}

/// Returns the domain file of A, so many routers without BIER, and C.
fn chain(alloc: Global, plain: u16) -> M<Octets>
    requires { plain < 65534 }
{
    let last = plain + 1;
    let mut out = String::from_str(alloc, ENDS)?;
    let mut before = name_at(alloc, last, 0)?;
    push_router(&mut out, before.as_str(), 1)?;
    for place in 1..=last {
        let name = name_at(alloc, last, place)?;
        push_router(&mut out, name.as_str(), place + 1)?;
        push_link(&mut out, before.as_str(), name.as_str(), 10)?;
        before = name;
    }
    Ok(Octets::from_vec(out.into_bytes()))
}

/// Returns whether the schedule ends with that report on a chain of so many routers without BIER.
fn reports(alloc: Global, plain: u16, report: &[u8]) -> M<bool>
    requires { plain < 65534 }
{
    let words = ["replay", "chain", "schedule", "frames"];
    let limits = Limits {
        frames: 100_000_000,
        ..FREE
    };
    let input = lines_of(alloc, SCHEDULE)?;
    let heard = run_in(alloc, &words, chain(alloc, plain)?, input, limits)?;
    Ok(heard.report.as_slice() == report)
}

// A tunnel of 255 links arrives; over 256 its outer TTL expires one link before C.
#[test]
fn an_outer_ttl_covers_255_links(rt: HostRuntime) {
    let arrives = b"3 got C 1 2 00\ndone lines 3 injected 1 named 1 got 1 dropped 0 flight 0\n";
    let expires =
        b"3 drop p255 1 outer 2\ndone lines 3 injected 1 named 1 got 0 dropped 1 flight 0\n";
    assert!(rt; reports(rt.alloc(), 254, arrives) == Ok(true));
    assert!(rt; reports(rt.alloc(), 255, expires) == Ok(true));
}
