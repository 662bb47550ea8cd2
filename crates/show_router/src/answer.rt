//! The answer to a question.
ghost use Rattle.std.specs.Prelude.{◌<◌, ◌≤◌, length};
ghost use Rattle.wire_base.specs.declared.limits.TheConstants.{MOST_ROUTERS};

use crate::arguments::{Form, Look, Moment, PacketWords, What};
use crate::ending::NoAnswer;
use crate::files::{domain_of, octets_of};
use crate::lines::{names_in, world_after};
use crate::records::router_after;
use crate::refusal::{ids_refused, no_router, packet_refused};
use command_node::place_of;
use domain_core::World;
use replay_text::{CheckLine, TextFault, read_check_line};
use router_core::Router;
use show_tables::{
    Flight, Names, Query, Table, bift_tables, birt_table, database_table, interface_table,
    packet_table, show_columns, show_json, topology_table,
};
use std::alloc::Global;
use wire_base::{Domain, EdgeFault, M, Memory, Name, Octets, RouterConf, Rows, SystemId};

/// Returns the table that answers a question, as text.
pub fn answer(rt: &HostRuntime, look: &Look<'_>) -> Result<String, NoAnswer> {
    let domain = domain_of(rt, look.conf)?;
    let alloc = rt.alloc();
    let names = names_in(alloc, &domain)?;
    let Some(place) = place_of(&domain, look.router.as_bytes()) else {
        return Err(no_router(alloc, look.router_word()));
    };
    match look.moment {
        Moment::Line { schedule, line } => {
            let text = octets_of(rt, schedule)?;
            let world = world_after(alloc, domain, &names, text.as_slice(), line)?;
            of_world(alloc, &world, &names, place, look)
        }
        Moment::Record { capture, record } => {
            let octets = octets_of(rt, capture)?;
            let router = router_after(alloc, &domain, place, octets.as_slice(), record)?;
            let routers = domain.routers.as_slice();
            of_router(alloc, &router, routers, &names, &[], look)
        }
    }
}

/// Returns the answer of the router at an index of a domain.
fn of_world(
    alloc: Global,
    world: &World,
    names: &Rows<Name>,
    place: u16,
    look: &Look<'_>,
) -> Result<String, NoAnswer>
    requires place { place < length world.now.world.domain.routers }
    requires few { length names.now ≤ MOST_ROUTERS }
{
    let router = world.router(place);
    let flights = flights_of(alloc, world, place, router)?;
    let routers = world.domain().routers.as_slice();
    of_router(alloc, router, routers, names, flights.as_slice(), look)
}

/// Returns how many frames are in flight over each interface of a router, by `World::frames`.
pub(crate) fn flights_of(
    alloc: Global,
    world: &World,
    place: u16,
    router: &Router,
) -> M<Vec<Flight>> {
    let mut flights = Vec::new(alloc);
    for end in router.conf().ends.as_slice() {
        let peer = place_in(world.domain().routers.as_slice(), end.peer).unwrap_or(place);
        flights.push(Flight {
            out: world.frames(place, peer),
            back: world.frames(peer, place),
        })?;
    }
    Ok(flights)
}

/// Returns the index of the router with that system ID.
fn place_in(routers: &[RouterConf], system: SystemId) -> Option<u16> {
    for (place, router) in routers.iter().enumerate() {
        if router.system == system {
            return u16::try_from(place).ok();
        }
    }
    None
}

/// Returns the answer of a router, of whose interfaces the frames in flight are given, where they are known.
fn of_router(
    alloc: Global,
    router: &Router,
    routers: &[RouterConf],
    names: &Rows<Name>,
    flights: &[Flight],
    look: &Look<'_>,
) -> Result<String, NoAnswer>
    requires { length names.now ≤ MOST_ROUTERS }
{
    let systems = Names { routers };
    let table = match look.what {
        What::Database(detail) => database_table(alloc, router, systems, detail)?,
        What::Interfaces => interface_table(alloc, router, systems, flights)?,
        What::Topology => topology_table(alloc, router, systems)?,
        What::Birt => birt_table(alloc, router, systems)?,
        What::Bift => bift_tables(alloc, router, systems)?,
        What::Packet(words) => of_packet(alloc, router, systems, names, look.router, words)?,
    };
    let text = text_of(alloc, &table, look.form)?;
    Ok(text)
}

fn text_of(alloc: Global, table: &Table, form: Form) -> M<String> {
    let mut text = String::new(alloc);
    match form {
        Form::Columns => show_columns(alloc, &mut text, table)?,
        Form::Json => show_json(&mut text, table)?,
    }
    Ok(text)
}

/// Returns what the router would do with a packet. Its words are read as those of a `cover` line.
fn of_packet(
    alloc: Global,
    router: &Router,
    systems: Names<'_>,
    names: &Rows<Name>,
    name: &str,
    words: PacketWords<'_>,
) -> Result<Table, NoAnswer>
    requires { length names.now ≤ MOST_ROUTERS }
{
    let line = cover_line(alloc, name, words)?;
    match read_check_line(alloc, line.as_slice(), names) {
        Ok(
            CheckLine::Cover {
                sd,
                bsl,
                ids,
                ttl,
                entropy,
                ..
            },
        ) => {
            let query = Query {
                sd,
                bsl,
                ids: ids.as_slice(),
                ttl,
                entropy,
            };
            if let Some(why) = ids_fault(query) {
                return Err(ids_refused(alloc, why));
            }
            Ok(packet_table(alloc, router, systems, query)?)
        }
        Ok(_) => Err(packet_refused(alloc, TextFault::Word)),
        Err(why) => Err(packet_refused(alloc, why)),
    }
}

/// Returns the line `cover ROUTER SD BSL IDS TTL ENTROPY`.
fn cover_line(alloc: Global, name: &str, words: PacketWords<'_>) -> M<Octets> {
    let PacketWords {
        sd,
        bsl,
        ids,
        ttl,
        entropy,
    } = words;
    let mut line = Octets::new(alloc);
    line.append(b"cover")?;
    for word in [name, sd, bsl, ids, ttl, entropy] {
        line.push(b' ')?;
        line.append(word.as_bytes())?;
    }
    Ok(line)
}

/// Returns why there is no packet for the BFR-ids: there are none, one is 0, or one is in no set of that length.
fn ids_fault(query: Query<'_>) -> Option<EdgeFault> {
    if query.ids.is_empty() {
        return Some(EdgeFault::NoEgress);
    }
    for id in query.ids {
        match query.bsl.place(*id) {
            None => return Some(EdgeFault::IdZero),
            Some((si, _)) if si > 255 => return Some(EdgeFault::SiLarge(*id)),
            Some(_) => {}
        }
    }
    None
}
