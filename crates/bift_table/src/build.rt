ghost use Rattle.std.specs.Prelude.{◌≡◌, ◌≤◌, ◌<◌, ◌+◌, ◌*◌, ◌++◌, [], ◌∷◌, IfOk, OnOk, length, map, option_map, IsTrue};
ghost use Rattle.bier_bits.specs.Sets.{is_width};
ghost use Rattle.bift_table.specs.Bift.{router_at, member_at, routed_of, routers_of, table_of};
ghost use Rattle.bift_table.specs.Neighbours.{AreApart, AreMasks, AreNumbers, given_to, number_to};

use crate::neighbour::{Neighbour, give, routed_by};
use bier_bits::BitString;
use std::alloc::Global;
use wire_base::{First, M, PositionRows};

// The neighbors of the positions, each once, for each position the number of its neighbor, and the positions that have one.
#[derive(Drop)]
pub struct Drawn<const W: usize> {
    pub neighbours: Vec<Neighbour<W>>,
    pub numbers: Vec<Option<u16>>,
    pub routed: BitString<W>,
}

// The neighbors and the numbers of the positions so far, and the number that was given last: positions in a row mostly lead
// to one neighbor.
#[derive(Drop)]
struct Drawing<const W: usize> {
    neighbours: Vec<Neighbour<W>>,
    numbers: Vec<Option<u16>>,
    last: u16,
}

impl<const W: usize> Drawing<W> {
    // Adds one position, and the router that it leads to.
    fn push(&mut self, to: Option<&First>, bp: u16) -> M<()>
        requires width { IsTrue (is_width W) }
        requires low { 1 ≤ bp }
        requires high { bp ≤ 64 * W }
        requires few { length self.old.neighbours.items < 65536 }
        requires apart { AreApart self.old.neighbours.items }
        ensures neighbours { OnOk result (self.new.neighbours.items ≡ given_to (option_map (λ f. f.now) to.entry) bp self.old.neighbours.items) }
        ensures numbers { OnOk result (self.new.numbers.items ≡ self.old.numbers.items ++ number_to (option_map (λ f. f.now) to.entry) self.old.neighbours.items ∷ []) }
    {
        match to {
            None => {
                self.numbers.push(None)?;
            }
            Some(to) => {
                let number = give(&mut self.neighbours, to, self.last, bp)?;
                self.numbers.push(Some(number))?;
                self.last = number;
            }
        }
        Ok(())
    }
}

// Determines in one pass where the positions lead.
pub fn draw<const W: usize>(alloc: Global, lists: &PositionRows, class: u8) -> M<Drawn<W>>
    requires width { IsTrue (is_width W) }
    requires lists { length lists.now ≡ 64 * W }
    ensures masks { IfOk result (λ d. AreMasks (table_of lists.now class) d.neighbours.items) }
    ensures numbers { IfOk result (λ d. AreNumbers d.neighbours.items (table_of lists.now class) d.numbers.items) }
    ensures routers { IfOk result (λ d. map (λ n. n.to) d.neighbours.items ≡ routers_of (table_of lists.now class)) }
    ensures routed { IfOk result (λ d. d.routed ≡ routed_of (table_of lists.now class)) }
{
    // There is a number for each position, so that the list never grows.
    let mut drawn = Drawing {
        neighbours: Vec::new(alloc),
        numbers: Vec::with_capacity(alloc, 64 * W)?,
        last: 0,
    };
    let stored = lists.stored();
    for place in 0..stored.len() {
        drawn.push(member_at(stored.at(place), class), place as u16 + 1)?;
    }
    drawn.numbers.resize(64 * W, None)?;
    let routed = routed_by(drawn.neighbours.as_slice());
    Ok(Drawn {
        neighbours: drawn.neighbours,
        numbers: drawn.numbers,
        routed,
    })
}

// Returns the router at index `class` modulo the size, so that packets of different classes share the equal-cost paths.
fn member_at(routers: &[First], class: u8) -> Option<&First>
    ensures { option_map (λ f. f.now) result ≡ member_at class routers.now }
{
    if routers.is_empty() {
        return None;
    }
    Some(&routers[usize::from(class) % routers.len()])
}
