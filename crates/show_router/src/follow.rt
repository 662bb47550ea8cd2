//! All tables of all routers over a schedule.
ghost use Rattle.std.specs.Prelude.{◌≡◌, ◌<◌, ◌≤◌, length};
ghost use Rattle.wire_base.specs.declared.limits.TheConstants.{MOST_ROUTERS};

use crate::answer::flights_of;
use crate::ending::NoAnswer;
use crate::files::{domain_of, octets_of};
use crate::lines::{directions_in, do_text, names_in};
use domain_core::World;
use replay_text::next_line;
use show_tables::{
    Detail, Names, bift_tables, birt_table, database_table, interface_table, push_string,
    show_columns, topology_table,
};
use std::alloc::Global;
use std::fmt::Write;
use wire_base::{M, Name, Rows};

/// Returns the tables of each router before the first line of a schedule, and after each line those of the routers whose tables
/// changed: a JSON object a line, with the number of the schedule's line, the router, and its tables as text. A line that is rejected
/// ends the run.
pub fn follow(rt: &HostRuntime, conf: &str, schedule: &str) -> Result<String, NoAnswer> {
    let domain = domain_of(rt, conf)?;
    let octets = octets_of(rt, schedule)?;
    let alloc = rt.alloc();
    let names = names_in(alloc, &domain)?;
    let mut world = World::new(alloc, domain)?;
    follow_lines(alloc, &mut world, &names, octets.as_slice())
}

fn follow_lines(
    alloc: Global,
    world: &mut World,
    names: &Rows<Name>,
    schedule: &[u8],
) -> Result<String, NoAnswer>
    requires names { length names.now ≡ length world.old.world.domain.routers }
    requires few { length names.now ≤ MOST_ROUTERS }
{
    let all = directions_in(alloc, world.domain())?;
    let mut out = String::new(alloc);
    let mut told = no_texts(alloc, names.len())?;
    tell_all(alloc, world, names, 0, &mut told, &mut out)?;
    let mut rest = schedule;
    'lines: for done in 0..u32::MAX {
        let Some((line, after)) = next_line(rest, true) else {
            break;
        };
        do_text(alloc, world, names, all.as_slice(), done + 1, line)?;
        tell_all(alloc, world, names, done + 1, &mut told, &mut out)?;
        rest = after;
    }
    Ok(out)
}

fn no_texts(alloc: Global, count: usize) -> M<Vec<String>> {
    let mut texts = Vec::new(alloc);
    for _ in 0..count {
        texts.push(String::new(alloc))?;
    }
    Ok(texts)
}

/// Appends the tables of the routers that differ from what was told of them last.
fn tell_all(
    alloc: Global,
    world: &World,
    names: &Rows<Name>,
    line: u32,
    told: &mut Vec<String>,
    out: &mut String,
) -> M<()>
    requires names { length names.now ≡ length world.now.world.domain.routers }
    requires few { length names.now ≤ MOST_ROUTERS }
{
    for place in 0..names.len() {
        let text = tables_of(alloc, world, place as u16)?;
        if let Some(last) = told.as_mut_slice().get_mut(place) {
            if last.as_str() != text.as_str() {
                push_object(out, line, names.as_slice()[place].as_slice(), text.as_str())?;
                *last = text;
            }
        }
    }
    Ok(())
}

fn push_object(out: &mut String, line: u32, name: &[u8], text: &str) -> M<()> {
    let name = std::str::from_utf8(name).unwrap_or("?");
    write!(out, "{{\"line\":{line},\"router\":")?;
    push_string(out, name)?;
    out.push_str(",\"tables\":")?;
    push_string(out, text)?;
    out.push_str("}\n")?;
    Ok(())
}

/// Returns the tables of a router in columns, with an empty line between them.
fn tables_of(alloc: Global, world: &World, place: u16) -> M<String>
    requires { place < length world.now.world.domain.routers }
{
    let router = world.router(place);
    let names = Names {
        routers: world.domain().routers.as_slice(),
    };
    let flights = flights_of(alloc, world, place, router)?;
    let tables = [
        database_table(alloc, router, names, Detail::Heads)?,
        interface_table(alloc, router, names, flights.as_slice())?,
        topology_table(alloc, router, names)?,
        birt_table(alloc, router, names)?,
        bift_tables(alloc, router, names)?,
    ];
    let mut text = String::new(alloc);
    for (place, table) in tables.iter().enumerate() {
        if place > 0 {
            text.push('\n')?;
        }
        show_columns(alloc, &mut text, table)?;
    }
    Ok(text)
}
