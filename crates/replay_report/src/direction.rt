//! The directions of a domain's links.
ghost use Rattle.std.specs.Prelude.{◌≡◌, ◌≤◌, ◌++◌, length, map, OnOk, IfOk};
ghost use Rattle.std.specs.List.{AllByRecursion, range_with_len};
ghost use Rattle.wire_base.specs.model.Configuration.{IsSound};
ghost use Rattle.domain_model.specs.Run as spec;

use frames_in_flight::peer_place;
use std::alloc::Global;
use std::marker::Model;
use wire_base::limits::MOST_ROUTERS;
use wire_base::{M, RouterConf, Rows};

/// A direction of a link: from a router over one of its interfaces to the router at the far end, both by their indices.
#[derive(Clone, Copy, Drop)]
pub struct Direction {
    pub from: u16,
    pub link: u16,
    pub to: u16,
}

impl Model for Direction {
    ghost use Rattle.domain_model.specs.Run.{Direction};

    ghost Value = { Direction };

    ghost view = { λ d. record { from = d.from; link = d.link; to = d.to } };

    ghost inverse = { λ d. record { from = d.from; link = d.link; to = d.to } };
}

/// Appends the directions in which the router at an index sends, over that many interfaces.
fn push_from(out: &mut Rows<Direction>, routers: &[RouterConf], from: u16, ends: u16) -> M<()>
    requires { length routers.now ≤ MOST_ROUTERS }
    ensures { OnOk result (out.new ≡ out.old ++ map (spec.direction_over routers.now from) (range_with_len 0 ends)) }
{
    for link in 0..ends {
        let to = peer_place(routers, from, link);
        out.push(Direction { from, link, to })?;
    }
    Ok(())
}

/// Returns all directions, in the order of the routers and of their interfaces.
#[tactic(auto, unfolding(domain_model::specs::Run::directions))]
pub fn directions(alloc: Global, routers: &[RouterConf]) -> M<Rows<Direction>>
    requires few { length routers.now ≤ MOST_ROUTERS }
    requires sound { AllByRecursion IsSound routers.now }
    ensures { IfOk result (λ all. all ≡ spec.directions routers.now) }
{
    let mut all = Rows::new(alloc);
    for place in 0..routers.len() {
        let ends = routers[place].ends.len() as u16;
        push_from(&mut all, routers, place as u16, ends)?;
    }
    Ok(all)
}
