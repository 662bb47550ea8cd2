ghost use Rattle.std.specs.Prelude.{◌≡◌, ◌≤◌, ◌<◌, ◌*◌, [], IsTrue, IfOk, MatchOption, length, map, true, false};
ghost use Rattle.std.specs.List.{list_any};
ghost use Rattle.bier_bits.specs.Sets.{is_width};
ghost use Rattle.bift_table.specs.Neighbours.{AreApart, given, number_in, union_from};
ghost use Rattle.bift_table.specs.Bift.{same_router, same_end};

use bier_bits::BitString;
use std::alloc::Global;
use wire_base::{First, M};

// A router to which bits are sent, and the positions of these bits (the F-BM).
#[derive(Drop)]
pub struct Neighbour<const W: usize> {
    pub to: First,
    pub mask: BitString<W>,
}

// Returns the routers of neighbors.
pub fn routers_of<const W: usize>(alloc: Global, neighbours: &[Neighbour<W>]) -> M<Vec<First>>
    ensures { IfOk result (λ routers. routers.items ≡ map (λ n. n.to) neighbours.now) }
{
    let mut routers = Vec::new(alloc);
    for neighbour in neighbours {
        routers.push(neighbour.to)?;
    }
    Ok(routers)
}

// Returns the positions that are in some mask.
pub fn routed_by<const W: usize>(neighbours: &[Neighbour<W>]) -> BitString<W>
    requires { IsTrue (is_width W) }
    ensures { result ≡ union_from [] neighbours.now }
{
    let mut routed = BitString::zero();
    for neighbour in neighbours {
        routed = routed.or(&neighbour.mask);
    }
    routed
}

// Adds a position to a router: to its neighbor, or to a new one if it has none yet. Returns the neighbor's number. No two
// neighbors are one router. The neighbor with the number `last` is tried first.
pub fn give<const W: usize>(
    neighbours: &mut Vec<Neighbour<W>>,
    to: &First,
    last: u16,
    bp: u16,
) -> M<u16>
    requires width { IsTrue (is_width W) }
    requires low { 1 ≤ bp }
    requires high { bp ≤ 64 * W }
    requires few { length neighbours.old.items < 65536 }
    requires apart { AreApart neighbours.old.items }
    ensures number { IfOk result (λ number. number ≡ number_in to.now neighbours.old.items) }
    ensures given { IfOk result (λ _. neighbours.new.items ≡ given to.now bp neighbours.old.items) }
{
    if let Some(number) = number_near(neighbours, to, usize::from(last)) {
        neighbours[number].mask.set(bp);
        return Ok(number as u16);
    }
    let number = neighbours.len() as u16;
    let mut mask = BitString::zero();
    mask.set(bp);
    neighbours.push(Neighbour { to: *to, mask })?;
    Ok(number)
}

// Returns the number of a router's neighbor, if it has one. The neighbor at the index `last`, if there is one, is tried
// first.
fn number_near<const W: usize>(
    neighbours: &[Neighbour<W>],
    to: &First,
    last: usize,
) -> Option<usize>
    requires { AreApart neighbours.now }
    ensures { MatchOption result (list_any (λ n. same_router n.to to.now) neighbours.now ≡ false) (λ number. (list_any (λ n. same_router n.to to.now) neighbours.now ≡ true) × (number ≡ number_in to.now neighbours.now) × (number < length neighbours.now)) }
{
    if last < neighbours.len() && is_same_router(&neighbours[last].to, to) {
        return Some(last);
    }
    find_number(neighbours, to)
}

// Returns the number of a router's neighbor, if it has one.
fn find_number<const W: usize>(neighbours: &[Neighbour<W>], to: &First) -> Option<usize>
    ensures { MatchOption result (list_any (λ n. same_router n.to to.now) neighbours.now ≡ false) (λ number. (list_any (λ n. same_router n.to to.now) neighbours.now ≡ true) × (number ≡ number_in to.now neighbours.now) × (number < length neighbours.now)) }
{
    for number in 0..neighbours.len() {
        if is_same_router(&neighbours[number].to, to) {
            return Some(number);
        }
    }
    None
}

// Returns whether two BFR-NBRs are one router, reached the same way: they have the same system ID, and the same interface
// if it is reached directly, or a tunnel leads there in both.
fn is_same_router(a: &First, b: &First) -> bool
    ensures { result ≡ same_router a.now b.now }
{
    is_same_end(a.direct, b.direct) && a.system == b.system
}

fn is_same_end(a: Option<u16>, b: Option<u16>) -> bool
    ensures { result ≡ same_end a b }
{
    match (a, b) {
        (None, None) => true,
        (Some(a), Some(b)) => a == b,
        _ => false,
    }
}
