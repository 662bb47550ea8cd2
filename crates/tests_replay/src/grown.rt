//! The links of small generated domains.
ghost use Rattle.std.specs.Prelude.{◌≤◌};
ghost use Rattle.wire_base.specs.declared.limits.TheConstants.{MOST_ROUTERS};

use grown_domain::grown;
use std::alloc::Global;
use std::test::Fail;
use wire_base::M;

const THREE: &[(u16, u16)] = &[(0, 1), (1, 2), (2, 0)];

const TEN: &[(u16, u16)] = &[
    (0, 1),
    (1, 2),
    (2, 3),
    (3, 4),
    (4, 5),
    (5, 6),
    (6, 7),
    (7, 8),
    (8, 9),
    (9, 0),
    (0, 5),
];

const TWELVE: &[(u16, u16)] = &[
    (0, 1),
    (1, 2),
    (2, 3),
    (3, 4),
    (4, 5),
    (5, 6),
    (6, 7),
    (7, 8),
    (8, 9),
    (9, 10),
    (10, 11),
    (11, 0),
    (0, 6),
    (5, 11),
    (10, 4),
];

/// Returns whether the links of a generated domain join those routers, in order.
fn joins(alloc: Global, n: u16, wanted: &[(u16, u16)]) -> M<bool>
    requires some { 3 ≤ n }
    requires few { n ≤ MOST_ROUTERS }
{
    let domain = grown(alloc, n)?;
    let links = domain.links.as_slice();
    let mut are_same = links.len() == wanted.len();
    for (link, (a, b)) in links.iter().zip(wanted) {
        are_same = are_same && link.a == *a && link.b == *b;
    }
    Ok(are_same)
}

// In three routers the chord is a link of the ring; in ten the second one is the reverse of the first.
#[test]
fn chords_join_routers_without_a_link(rt: HostRuntime) -> Result<(), Fail> {
    assert!(rt; joins(rt.alloc(), 3, THREE)?);
    assert!(rt; joins(rt.alloc(), 10, TEN)?);
    assert!(rt; joins(rt.alloc(), 12, TWELVE)?);
    Ok(())
}
