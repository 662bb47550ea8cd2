//! What an event of hellos reports.
ghost use Rattle.std.specs.Prelude.{◌≡◌, ◌≤◌, ◌++◌, [], None, length, OnOk, IfOk};
ghost use Rattle.isis_hello.specs.Events.{changed, changes_at};

use crate::adjacency::{Adjacency, Circuit, Turn};
use crate::event::{EndChange, HelloOut};
use crate::links::place_of;
use std::alloc::Global;
use wire_base::limits::MOST_ROUTERS;
use wire_base::{End, M, RouterConf, Rows};

impl HelloOut {
    /// Returns the result of an event that reports nothing. Does not allocate.
    pub fn nothing(alloc: Global) -> Self
        ensures { result ≡ record { sent = None; changes = [] } }
    {
        HelloOut {
            sent: None,
            changes: Rows::new(alloc),
        }
    }
}

/// Appends the change of an adjacency at a router toward a peer, if it came up, or was up and no longer is.
fn push_change(
    out: &mut Rows<EndChange>,
    router: u16,
    peer: u16,
    old: Adjacency,
    new: Adjacency,
) -> M<()>
    ensures { OnOk result (out.new ≡ out.old ++ changed router peer old new) }
{
    let up = new.is_up();
    if old.is_up() == up {
        return Ok(());
    }
    out.push(EndChange { router, peer, up })
}

/// Returns that change.
pub(crate) fn changed(
    alloc: Global,
    router: u16,
    peer: u16,
    old: Adjacency,
    new: Adjacency,
) -> M<Rows<EndChange>>
    ensures { IfOk result (λ changes. changes ≡ changed router peer old new) }
{
    let mut changes = Rows::new(alloc);
    push_change(&mut changes, router, peer, old, new)?;
    Ok(changes)
}

/// Appends the changes of a router's adjacencies on those interfaces.
fn push_changes(
    out: &mut Rows<EndChange>,
    confs: &[RouterConf],
    router: u16,
    turn: Turn,
    ends: &[End],
    circuits: &[Circuit],
) -> M<()>
    requires { length confs.now ≤ MOST_ROUTERS }
    ensures { OnOk result (out.new ≡ out.old ++ changes_at confs.now router turn ends.now circuits.now) }
{
    match ends {
        [] => Ok(()),
        [end, ends @ ..] => match circuits {
            [] => Ok(()),
            [circuit, circuits @ ..] => {
                let old = circuit.adjacency;
                push_change(
                    out,
                    router,
                    place_of(confs, end.peer),
                    old,
                    old.turned(turn),
                )?;
                push_changes(out, confs, router, turn, ends, circuits)
            }
        },
    }
}

/// Returns the changes of a router's adjacencies after a second, or after a restart, by interface in order.
pub(crate) fn changes_at(
    alloc: Global,
    confs: &[RouterConf],
    router: u16,
    turn: Turn,
    ends: &[End],
    circuits: &[Circuit],
) -> M<Rows<EndChange>>
    requires { length confs.now ≤ MOST_ROUTERS }
    ensures { IfOk result (λ changes. changes ≡ changes_at confs.now router turn ends.now circuits.now) }
{
    let mut changes = Rows::new(alloc);
    push_changes(&mut changes, confs, router, turn, ends, circuits)?;
    Ok(changes)
}
