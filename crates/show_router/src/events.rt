//! The events of a line of a schedule.
ghost use Rattle.std.specs.Prelude.{◌≡◌, ◌<◌, length, true};
ghost use Rattle.replay_text.specs.Events.{EventFits, LineFits};

use domain_core::World;
use domain_model::EventFault;
use domain_replay::numbers_fit;
use replay_report::Direction;
use replay_text::{Event, Line};

/// Executes an event in a domain.
fn do_event(world: &mut World, event: &Event) -> Result<(), EventFault>
    requires { EventFits (length world.old.world.domain.routers) event.now }
    ensures { world.new.world.domain ≡ world.old.world.domain }
{
    numbers_fit(event);
    match world.step(event) {
        Ok(_) => Ok(()),
        Err(why) => Err(why),
    }
}

/// Returns whether both routers of a direction are routers of the domain.
fn joins(world: &World, direction: Direction) -> bool
    ensures from { result ≡ true → direction.from < length world.now.world.domain.routers }
    ensures to { result ≡ true → direction.to < length world.now.world.domain.routers }
{
    let count = world.domain().routers.len();
    usize::from(direction.from) < count && usize::from(direction.to) < count
}

/// Sends on the interface of a direction, if it is up.
fn send_now(world: &mut World, direction: Direction) -> Result<(), EventFault>
    ensures { world.new.world.domain ≡ world.old.world.domain }
{
    let Direction { from, link, to } = direction;
    if !joins(world, direction) || !world.router(from).is_up(link) {
        return Ok(());
    }
    do_event(world, &Event::Send { from, to })
}

/// Delivers as many frames as are in flight in a direction now.
fn take_now(world: &mut World, direction: Direction) -> Result<(), EventFault>
    ensures { world.new.world.domain ≡ world.old.world.domain }
{
    let Direction { from, to, .. } = direction;
    if !joins(world, direction) {
        return Ok(());
    }
    let count = world.frames(from, to);
    'frames: for _ in 0..count {
        do_event(world, &Event::Take { from, to, i: 0 })?;
    }
    Ok(())
}

/// Executes a round: all routers send what is due, and then all receive, direction by direction.
fn do_round(world: &mut World, all: &[Direction]) -> Result<(), EventFault>
    ensures { world.new.world.domain ≡ world.old.world.domain }
{
    'sends: for direction in all {
        send_now(world, *direction)?;
    }
    'takes: for direction in all {
        take_now(world, *direction)?;
    }
    Ok(())
}

fn do_rounds(world: &mut World, all: &[Direction], rounds: u32) -> Result<(), EventFault>
    ensures { world.new.world.domain ≡ world.old.world.domain }
{
    'rounds: for _ in 0..rounds {
        do_round(world, all)?;
    }
    Ok(())
}

/// Executes the events of a line in a domain, whose directions are given. The error is that of the first event that is not allowed.
pub fn do_line(world: &mut World, all: &[Direction], said: &Line) -> Result<(), EventFault>
    requires { LineFits (length world.old.world.domain.routers) said.now }
    ensures { world.new.world.domain ≡ world.old.world.domain }
{
    match said {
        Line::Empty => Ok(()),
        Line::One(event) => do_event(world, event),
        Line::Settle(rounds) => do_rounds(world, all, *rounds),
    }
}
