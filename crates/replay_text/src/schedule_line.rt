//! One line of a schedule.
ghost use Rattle.std.specs.Prelude.{◌≡◌, ◌≢◌, ◌≤◌, ◌<◌, ◌∷◌, length, IfOk, IfErr, IsOk, Ok, Err};
ghost use Rattle.replay_text.specs.Reading.{Gives};
ghost use Rattle.replay_text.specs.Pieces.{words_of};
ghost use Rattle.replay_text.specs.Events.{EventFits, LineFits};
ghost use Rattle.replay_text.specs.Schedule as schedule;
ghost use Rattle.replay_text.specs.Schedule.{TakesMemory};
ghost use Rattle.replay_text.specs.declared.fault.TextFault.TheVariants as texts;
ghost use Rattle.replay_text.specs.ScheduleGrammar.{IsScheduleLine};
ghost use Rattle.replay_text.specs.declared.event.Line.{Line};

use crate::arguments::{
    counted, ids_at, label_at, length_at, name_at, number_at, payload_at, ttl_at,
};
use crate::event::{Event, Line};
use crate::fault::TextFault;
use crate::keyword::keyword_of;
use std::alloc::Global;
use wire_base::limits::{LINE_LIMIT, MOST_ROUNDS};
use wire_base::{Name, Rows};

/// Parses the name of one router.
#[tactic(auto, unfolding(crate::specs::Schedule::router_named))]
fn router_named(names: &Rows<Name>, args: &[u8]) -> Result<u16, TextFault>
    requires { length names.now ≤ 65536 }
    ensures value { Gives (λ router. router) result (schedule.router_named names.now (words_of args.now)) }
    ensures quiet { IfErr result (λ why. why ≢ texts.Memory) }
    ensures within { IfOk result (λ router. router < length names.now) }
{
    let args = counted(args, 1)?;
    let (router, _) = name_at(names, args)?;
    Ok(router)
}

/// Parses the names of the two routers of a link.
#[tactic(auto, unfolding(crate::specs::Schedule::link_named))]
pub(crate) fn link_named(names: &Rows<Name>, args: &[u8]) -> Result<(u16, u16), TextFault>
    requires { length names.now ≤ 65536 }
    ensures value { Gives (λ found. (found.0, found.1)) result (schedule.link_named names.now (words_of args.now)) }
    ensures quiet { IfErr result (λ why. why ≢ texts.Memory) }
    ensures from { IfOk result (λ found. found.0 < length names.now) }
    ensures to { IfOk result (λ found. found.1 < length names.now) }
{
    let args = counted(args, 2)?;
    let (from, args) = name_at(names, args)?;
    let (to, _) = name_at(names, args)?;
    Ok((from, to))
}

/// Parses the names of the two routers of a link, and the index of a frame on it.
#[tactic(auto, unfolding(crate::specs::Schedule::frame_named))]
pub(crate) fn frame_named(names: &Rows<Name>, args: &[u8]) -> Result<(u16, u16, u32), TextFault>
    requires { length names.now ≤ 65536 }
    ensures value { Gives (λ found. (found.0, found.1, found.2)) result (schedule.frame_named names.now (words_of args.now)) }
    ensures quiet { IfErr result (λ why. why ≢ texts.Memory) }
    ensures from { IfOk result (λ found. found.0 < length names.now) }
    ensures to { IfOk result (λ found. found.1 < length names.now) }
{
    let args = counted(args, 3)?;
    let (from, args) = name_at(names, args)?;
    let (to, args) = name_at(names, args)?;
    let (i, _) = number_at(4_294_967_295, args)?;
    Ok((from, to, i as u32))
}

/// Parses the name of a router and one of its sub-domains.
#[tactic(auto, unfolding(crate::specs::Schedule::member_named))]
fn member_named(names: &Rows<Name>, args: &[u8]) -> Result<(u16, u8), TextFault>
    requires { length names.now ≤ 65536 }
    ensures value { Gives (λ found. (found.0, found.1)) result (schedule.member_named names.now (words_of args.now)) }
    ensures quiet { IfErr result (λ why. why ≢ texts.Memory) }
    ensures within { IfOk result (λ found. found.0 < length names.now) }
{
    let args = counted(args, 2)?;
    let (router, args) = name_at(names, args)?;
    let (sd, _) = number_at(255, args)?;
    Ok((router, sd as u8))
}

/// Parses a `relabel` line from the words after it.
#[tactic(auto, unfolding(crate::specs::Schedule::relabel_event))]
fn relabel_event(names: &Rows<Name>, args: &[u8]) -> Result<Event, TextFault>
    requires { length names.now ≤ 65536 }
    ensures value { Gives (λ event. event) result (schedule.relabel_event names.now (words_of args.now)) }
    ensures quiet { IfErr result (λ why. why ≢ texts.Memory) }
    ensures fits { IfOk result (EventFits (length names.now)) }
{
    let args = counted(args, 4)?;
    let (router, args) = name_at(names, args)?;
    let (sd, args) = number_at(255, args)?;
    let (bsl, args) = length_at(args)?;
    let (label, _) = label_at(args)?;
    Ok(Event::Relabel {
        router,
        sd: sd as u8,
        bsl,
        label,
    })
}

/// Parses an event that changes a router's configuration, from its first word and the words after it.
#[tactic(auto, unfolding(crate::specs::Schedule::change_line))]
fn change_line(names: &Rows<Name>, word: &[u8], args: &[u8]) -> Result<Event, TextFault>
    requires { length names.now ≤ 65536 }
    ensures value { Gives (λ event. event) result (schedule.change_line names.now word.now (words_of args.now)) }
    ensures quiet { IfErr result (λ why. why ≢ texts.Memory) }
    ensures fits { IfOk result (EventFits (length names.now)) }
{
    if word == b"relabel".as_slice() {
        relabel_event(names, args)
    } else if word == b"leave".as_slice() {
        let (router, sd) = member_named(names, args)?;
        Ok(Event::Leave { router, sd })
    } else if word == b"join".as_slice() {
        let (router, sd) = member_named(names, args)?;
        Ok(Event::Join { router, sd })
    } else {
        Err(TextFault::Word)
    }
}

/// Parses an `inject` line from the words after it.
#[tactic(auto, unfolding(crate::specs::Schedule::inject_event, crate::specs::Schedule::inject_front))]
fn inject_event(alloc: Global, names: &Rows<Name>, args: &[u8]) -> Result<Event, TextFault>
    requires { length names.now ≤ 65536 }
    ensures value { Gives (λ event. event) result (schedule.inject_event names.now (words_of args.now)) }
    ensures memory { IfErr result (λ why. why ≡ texts.Memory → IsOk (schedule.inject_front names.now (words_of args.now))) }
    ensures fits { IfOk result (EventFits (length names.now)) }
{
    let args = counted(args, 7)?;
    let (router, args) = name_at(names, args)?;
    let (sd, args) = number_at(255, args)?;
    let (bsl, args) = length_at(args)?;
    let (ids, args) = ids_at(alloc, args)?;
    let (ttl, args) = ttl_at(args)?;
    let (entropy, args) = number_at(1_048_575, args)?;
    let (payload, _) = payload_at(alloc, args)?;
    Ok(Event::Inject {
        router,
        sd: sd as u8,
        bsl,
        ids,
        ttl,
        entropy: entropy as u32,
        payload,
    })
}

/// Parses an event from its first word and the words after it.
#[tactic(auto, unfolding(crate::specs::Schedule::event_line))]
fn event_line(
    alloc: Global,
    names: &Rows<Name>,
    word: &[u8],
    args: &[u8],
) -> Result<Event, TextFault>
    requires { length names.now ≤ 65536 }
    ensures value { Gives (λ event. event) result (schedule.event_line names.now word.now (words_of args.now)) }
    ensures memory { IfErr result (λ why. why ≡ texts.Memory → TakesMemory names.now (word.now ∷ words_of args.now)) }
    ensures fits { IfOk result (EventFits (length names.now)) }
{
    if word == b"inject".as_slice() {
        inject_event(alloc, names, args)
    } else if word == b"take".as_slice() {
        let (from, to, i) = frame_named(names, args)?;
        Ok(Event::Take { from, to, i })
    } else if word == b"lose".as_slice() {
        let (from, to, i) = frame_named(names, args)?;
        Ok(Event::Lose { from, to, i })
    } else if word == b"again".as_slice() {
        let (from, to, i) = frame_named(names, args)?;
        Ok(Event::Again { from, to, i })
    } else if word == b"down".as_slice() {
        let (from, to) = link_named(names, args)?;
        Ok(Event::Down { from, to })
    } else if word == b"up".as_slice() {
        let (from, to) = link_named(names, args)?;
        Ok(Event::Up { from, to })
    } else if word == b"send".as_slice() {
        let (from, to) = link_named(names, args)?;
        Ok(Event::Send { from, to })
    } else if word == b"tick".as_slice() {
        let router = router_named(names, args)?;
        Ok(Event::Tick { router })
    } else if word == b"restart".as_slice() {
        let router = router_named(names, args)?;
        Ok(Event::Restart { router })
    } else {
        change_line(names, word, args)
    }
}

/// Parses a `settle` line from the words after it.
#[tactic(auto, unfolding(crate::specs::Schedule::settle_line))]
fn settle_line(args: &[u8]) -> Result<u32, TextFault>
    ensures value { Gives (λ rounds. Line.Settle rounds) result (schedule.settle_line (words_of args.now)) }
    ensures quiet { IfErr result (λ why. why ≢ texts.Memory) }
    ensures within { IfOk result (λ rounds. rounds ≤ MOST_ROUNDS) }
{
    let args = counted(args, 1)?;
    let (rounds, _) = number_at(u64::from(MOST_ROUNDS), args)?;
    Ok(rounds as u32)
}

#[tactic(auto, unfolding(crate::specs::Schedule::schedule_words))]
fn schedule_words(
    alloc: Global,
    names: &Rows<Name>,
    word: &[u8],
    args: &[u8],
) -> Result<Line, TextFault>
    requires { length names.now ≤ 65536 }
    ensures value { Gives (λ line. line) result (schedule.schedule_words names.now word.now (words_of args.now)) }
    ensures memory { IfErr result (λ why. why ≡ texts.Memory → TakesMemory names.now (word.now ∷ words_of args.now)) }
    ensures fits { IfOk result (LineFits (length names.now)) }
{
    if word == b"settle".as_slice() {
        Ok(Line::Settle(settle_line(args)?))
    } else {
        Ok(Line::One(event_line(alloc, names, word, args)?))
    }
}

/// Parses a line, and returns what it contains or its first error.
#[tactic(auto, unfolding(crate::specs::Schedule::schedule_line))]
fn line_of(alloc: Global, line: &[u8], names: &Rows<Name>) -> Result<Line, TextFault>
    requires few { length names.now ≤ 65536 }
    ensures value { Gives (λ said. said) result (schedule.schedule_line line.now names.now) }
    ensures long { LINE_LIMIT < length line.now → result ≡ Err texts.LineLong }
    ensures memory { IfErr result (λ why. why ≡ texts.Memory → TakesMemory names.now (words_of line.now)) }
    ensures fits { IfOk result (LineFits (length names.now)) }
{
    match keyword_of(line)? {
        None => Ok(Line::Empty),
        Some((word, args)) => schedule_words(alloc, names, word, args),
    }
}

/// Parses a line of a schedule, for a domain whose routers have those names, in that order. The names differ; if one
/// occurred twice, it would name the first router that has it. The line comes without its line ending.
///
/// The errors, in order of precedence. `LineLong`: the line has more than 16,384 octets. `Word`: its first word is
/// unknown or is followed by the wrong number of words. `Name`, `Number` or `Hex`: an argument is invalid; arguments
/// are checked from left to right. `Memory` may be returned instead of any result from the ids of an `inject` line on,
/// and of no other. An event that is returned is valid for that domain.
#[tactic(auto, using(crate::proofs::ScheduleSpelled::found, crate::proofs::ScheduleSpelled::only))]
pub fn read_line(alloc: Global, line: &[u8], names: &Rows<Name>) -> Result<Line, TextFault>
    requires few { length names.now ≤ 65536 }
    ensures value { Gives (λ said. said) result (schedule.schedule_line line.now names.now) }
    ensures long { LINE_LIMIT < length line.now → result ≡ Err texts.LineLong }
    ensures memory { IfErr result (λ why. why ≡ texts.Memory → TakesMemory names.now (words_of line.now)) }
    ensures found { IfOk result (IsScheduleLine names.now line.now) }
    ensures only { (said : Line) → IsScheduleLine names.now line.now said → Gives (λ x. x) result (Ok said) }
    ensures fits { IfOk result (LineFits (length names.now)) }
{
    line_of(alloc, line, names)
}
