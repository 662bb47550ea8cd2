//! The lines of a report: what each event delivered and dropped, and the last line.
ghost use Rattle.std.specs.Prelude.{◌≡◌, ◌++◌, ◌∷◌, [], IfOk, OnOk, OnErr, codes, flat_map, length, take};
ghost use Rattle.std.specs.Fmt.{decimal};
ghost use Rattle.replay_report.specs.Lines as spec;

use crate::counts::Counts;
use domain_model::{DropLine, GotLine, StepOut};
use replay_text::{Block, push_loss, push_payload};
use std::alloc::Global;
use wire_base::{M, Octets, RouterConf};

/// Returns the name of the router at an index; empty if there is no such router.
pub(crate) fn name_at(routers: &[RouterConf], place: u16) -> &[u8]
    ensures { result.now ≡ spec.name_at routers.now place }
{
    match routers.get(usize::from(place)) {
        None => &[],
        Some(router) => router.name.as_slice(),
    }
}

/// Appends the name of the router at an index; nothing if there is no such router.
pub fn push_name(out: &mut Octets, routers: &[RouterConf], place: u16) -> M<()>
    ensures ok { OnOk result (out.new ≡ out.old ++ spec.name_at routers.now place) }
    ensures err { OnErr result (out.new ≡ out.old) }
{
    out.append(name_at(routers, place))
}

/// Appends the number of a line, its keyword, and the name of a router, followed by a space. If an allocation fails, some of it may
/// follow the old end.
#[tactic(auto, using(replay_text::proofs::Appended::front, replay_text::proofs::Appended::front_of_front))]
pub(crate) fn push_front(out: &mut Octets, line: u32, what: &[u8], router: &[u8]) -> M<()>
    ensures ok { OnOk result (out.new ≡ out.old ++ (decimal line ++ (what.now ++ (router.now ++ 32 ∷ [])))) }
    ensures err { OnErr result (take (length out.old) out.new ≡ out.old) }
{
    out.append_number(u64::from(line))?;
    out.append(what)?;
    out.append(router)?;
    out.push(b' ')
}

/// Appends the number of a line and the keyword of a delivery, in one piece.
fn push_got_keyword(out: &mut Octets, line: u32) -> M<()>
    ensures ok { OnOk result (out.new ≡ out.old ++ (decimal line ++ codes " got ")) }
    ensures err { OnErr result (out.new ≡ out.old) }
{
    let mut text = Block::new();
    text.number(u64::from(line));
    text.append(b" got ");
    out.append(text.as_slice())
}

/// Appends the numbers of an injection and of a BFR-id, with spaces around them, in one piece.
fn push_numbers(out: &mut Octets, injection: u32, id: u16) -> M<()>
    ensures ok { OnOk result (out.new ≡ out.old ++ 32 ∷ (decimal injection ++ 32 ∷ (decimal id ++ 32 ∷ []))) }
    ensures err { OnErr result (out.new ≡ out.old) }
{
    let mut text = Block::new();
    text.push(b' ');
    text.number(u64::from(injection));
    text.push(b' ');
    text.number(u64::from(id));
    text.push(b' ');
    out.append(text.as_slice())
}

/// Appends the line of a delivery. If an allocation fails, some of it may follow the old end.
#[tactic(auto, using(replay_text::proofs::Appended::front, replay_text::proofs::Appended::front_of_front))]
fn push_got(out: &mut Octets, routers: &[RouterConf], line: u32, got: &GotLine) -> M<()>
    ensures ok { OnOk result (out.new ≡ out.old ++ spec.got_text routers.now line got.now) }
    ensures err { OnErr result (take (length out.old) out.new ≡ out.old) }
{
    push_got_keyword(out, line)?;
    out.append(name_at(routers, got.router))?;
    push_numbers(out, got.injection, got.id)?;
    push_payload(out, got.payload.as_slice())?;
    out.push(b'\n')
}

/// Appends the number of an injection, or `-` if there is none. If an allocation fails, nothing is appended.
fn push_injection(out: &mut Octets, injection: Option<u32>) -> M<()>
    ensures ok { OnOk result (out.new ≡ out.old ++ spec.injection_text injection) }
    ensures err { OnErr result (out.new ≡ out.old) }
{
    match injection {
        None => out.push(b'-'),
        Some(number) => out.append_number(u64::from(number)),
    }
}

/// Appends the line of a drop. If an allocation fails, some of it may follow the old end.
#[tactic(auto, using(replay_text::proofs::Appended::front, replay_text::proofs::Appended::front_of_front))]
fn push_drop(out: &mut Octets, routers: &[RouterConf], line: u32, dropped: &DropLine) -> M<()>
    ensures ok { OnOk result (out.new ≡ out.old ++ spec.drop_text routers.now line dropped.now) }
    ensures err { OnErr result (take (length out.old) out.new ≡ out.old) }
{
    push_front(out, line, b" drop ", name_at(routers, dropped.router))?;
    push_injection(out, dropped.injection)?;
    out.push(b' ')?;
    push_loss(out, &dropped.cause, dropped.ids.as_slice())
}

/// Appends the lines of deliveries. If an allocation fails, some of them may follow the old end.
#[tactic(auto, using(replay_text::proofs::Appended::front_kept))]
fn push_gots(out: &mut Octets, routers: &[RouterConf], line: u32, gots: &[GotLine]) -> M<()>
    ensures ok { OnOk result (out.new ≡ out.old ++ flat_map (spec.got_text routers.now line) gots.now) }
    ensures err { OnErr result (take (length out.old) out.new ≡ out.old) }
{
    for got in gots {
        push_got(out, routers, line, got)?;
    }
    Ok(())
}

/// Appends the lines of drops. If an allocation fails, some of them may follow the old end.
#[tactic(auto, using(replay_text::proofs::Appended::front_kept))]
fn push_drops(out: &mut Octets, routers: &[RouterConf], line: u32, drops: &[DropLine]) -> M<()>
    ensures ok { OnOk result (out.new ≡ out.old ++ flat_map (spec.drop_text routers.now line) drops.now) }
    ensures err { OnErr result (take (length out.old) out.new ≡ out.old) }
{
    for dropped in drops {
        push_drop(out, routers, line, dropped)?;
    }
    Ok(())
}

/// Does the same as `push_event`, except that text may follow the old end if an allocation fails.
#[tactic(auto, using(replay_text::proofs::Appended::front_kept))]
fn push_lines(out: &mut Octets, routers: &[RouterConf], line: u32, made: &StepOut) -> M<()>
    ensures ok { OnOk result (out.new ≡ out.old ++ spec.event_text routers.now line made.now.got made.now.drops) }
    ensures err { OnErr result (take (length out.old) out.new ≡ out.old) }
{
    push_gots(out, routers, line, made.got.as_slice())?;
    push_drops(out, routers, line, made.drops.as_slice())
}

/// Appends the lines of an event of a schedule line: its deliveries, as `LINE got ROUTER INJECTION ID PAYLOAD`, and
/// then its drops, as `LINE drop ROUTER INJECTION CAUSE IDS`, where the injection is `-` if the frame carries no
/// packet. If an allocation fails, nothing is appended.
pub fn push_event(out: &mut Octets, routers: &[RouterConf], line: u32, made: &StepOut) -> M<()>
    ensures ok { OnOk result (out.new ≡ out.old ++ spec.event_text routers.now line made.now.got made.now.drops) }
    ensures err { OnErr result (out.new ≡ out.old) }
{
    if made.got.len() == 0 && made.drops.len() == 0 {
        // Most events have no lines.
        return Ok(());
    }
    let len = out.len();
    let pushed = push_lines(out, routers, line, made);
    if pushed.is_err() {
        out.truncate(len);
    }
    pushed
}

/// Appends a keyword and the number after it.
fn push_count(out: &mut Octets, what: &[u8], count: u64) -> M<()>
    ensures { OnOk result (out.new ≡ out.old ++ (what.now ++ decimal count)) }
{
    out.append(what)?;
    out.append_number(count)
}

/// Returns the last line as a text of its own.
fn done_line(alloc: Global, lines: u64, counts: &Counts, flight: u64) -> M<Octets>
    ensures { IfOk result (λ text. text ≡ spec.done_text lines counts.now flight) }
{
    let mut text = Octets::new(alloc);
    push_count(&mut text, b"done lines ", lines)?;
    push_count(&mut text, b" injected ", counts.injected)?;
    push_count(&mut text, b" named ", counts.named)?;
    push_count(&mut text, b" got ", counts.got)?;
    push_count(&mut text, b" dropped ", counts.dropped)?;
    push_count(&mut text, b" flight ", flight)?;
    text.push(b'\n')?;
    Ok(text)
}

/// Appends the last line of a report on a schedule with that many lines, all of which were done:
/// `done lines L injected I named N got G dropped D flight F`, with the counts of the run and the number of BFR-ids
/// that are in flight. If an allocation fails, nothing is appended.
pub fn push_done(alloc: Global, out: &mut Octets, lines: u64, counts: &Counts, flight: u64) -> M<()>
    ensures ok { OnOk result (out.new ≡ out.old ++ spec.done_text lines counts.now flight) }
    ensures err { OnErr result (out.new ≡ out.old) }
{
    let text = done_line(alloc, lines, counts, flight)?;
    out.append(text.as_slice())
}
