//! A schedule, up to a line.
ghost use Rattle.std.specs.Prelude.{◌≡◌, ◌≤◌, length, IfOk};
ghost use Rattle.replay_text.specs.Check.{CheckFits};
ghost use Rattle.wire_base.specs.declared.limits.TheConstants.{MOST_ROUTERS};

use crate::ending::NoAnswer;
use crate::events::do_line;
use crate::refusal::{event_refused, text_refused, too_few};
use domain_core::{World, confs_of};
use domain_model::EventFault;
use replay_report::{Direction, directions};
use replay_text::{CheckLine, next_line, read_check_line};
use std::alloc::Global;
use wire_base::{Domain, M, Name, Rows};

/// Returns the names of a domain's routers, by index.
pub fn names_in(alloc: Global, domain: &Domain) -> M<Rows<Name>>
    ensures each { IfOk result (λ names. length names ≡ length domain.now.routers) }
    ensures few { IfOk result (λ names. length names ≤ MOST_ROUTERS) }
{
    let mut names = Rows::new(alloc);
    for router in confs_of(domain) {
        names.push(router.name.copy()?)?;
    }
    Ok(names)
}

/// Returns the directions of a domain's links.
pub(crate) fn directions_in(alloc: Global, domain: &Domain) -> M<Rows<Direction>> {
    directions(alloc, confs_of(domain))
}

/// Executes a line in a domain. A question of `check` changes nothing.
fn do_check(world: &mut World, all: &[Direction], said: &CheckLine) -> Result<(), EventFault>
    requires { CheckFits (length world.old.world.domain.routers) said.now }
    ensures { world.new.world.domain ≡ world.old.world.domain }
{
    match said {
        CheckLine::Base(said) => do_line(world, all, said),
        CheckLine::Quiet => Ok(()),
        CheckLine::Cover { .. } => Ok(()),
    }
}

/// Does the same. An event that is not allowed is a refusal at the line of that number.
fn do_said(
    alloc: Global,
    world: &mut World,
    all: &[Direction],
    number: u32,
    said: &CheckLine,
) -> Result<(), NoAnswer>
    requires { CheckFits (length world.old.world.domain.routers) said.now }
    ensures { world.new.world.domain ≡ world.old.world.domain }
{
    match do_check(world, all, said) {
        Ok(()) => Ok(()),
        Err(why) => Err(event_refused(alloc, number, why)),
    }
}

/// Reads a line, and executes it in a domain.
pub(crate) fn do_text(
    alloc: Global,
    world: &mut World,
    names: &Rows<Name>,
    all: &[Direction],
    number: u32,
    line: &[u8],
) -> Result<(), NoAnswer>
    requires names { length names.now ≡ length world.old.world.domain.routers }
    requires few { length names.now ≤ MOST_ROUTERS }
    ensures { world.new.world.domain ≡ world.old.world.domain }
{
    match read_check_line(alloc, line, names) {
        Ok(said) => do_said(alloc, world, all, number, &said),
        Err(why) => Err(text_refused(alloc, number, why)),
    }
}

/// Executes the first lines of a schedule in a domain that has just started, up to that one.
fn do_lines(
    alloc: Global,
    world: &mut World,
    names: &Rows<Name>,
    schedule: &[u8],
    last: u32,
) -> Result<(), NoAnswer>
    requires names { length names.now ≡ length world.old.world.domain.routers }
    requires few { length names.now ≤ MOST_ROUTERS }
    ensures { world.new.world.domain ≡ world.old.world.domain }
{
    let all = directions_in(alloc, world.domain())?;
    let mut rest = schedule;
    'lines: for done in 0..last {
        let Some((line, after)) = next_line(rest, true) else {
            return Err(too_few(alloc, "lines", done));
        };
        do_text(alloc, world, names, all.as_slice(), done + 1, line)?;
        rest = after;
    }
    Ok(())
}

/// Returns a domain after a line of a schedule, from 1; 0 is before the first one.
pub fn world_after(
    alloc: Global,
    domain: Domain,
    names: &Rows<Name>,
    schedule: &[u8],
    last: u32,
) -> Result<World, NoAnswer>
    requires names { length names.now ≡ length domain.routers }
    requires few { length names.now ≤ MOST_ROUTERS }
    ensures { IfOk result (λ world. length world.world.domain.routers ≡ length names.now) }
{
    let mut world = World::new(alloc, domain)?;
    do_lines(alloc, &mut world, names, schedule, last)?;
    Ok(world)
}
