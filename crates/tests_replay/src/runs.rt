//! The one function that runs the program.
ghost use Rattle.std.specs.Prelude.{◌≡◌, IfOk};

use crate::domains::domain_of;
use crate::inputs::input_of;
use replay_run::run;
use std::alloc::{AllocError, Global};
use wire_base::{BytesSink, BytesSource, M, Octets, Rows, Sink, Source, Status};

/// The objects that a run receives.
#[derive(Clone, Copy, PartialEq, Eq)]
pub enum Object {
    Conf,
    Input,
    Frames,
    Report,
}

/// The object of which one call fails, the number of that call, where 0 is none, and how many octets of frames and of a
/// report there is room for.
#[derive(Clone, Copy)]
pub struct Limits {
    pub broken: Object,
    pub call: u32,
    pub frames: usize,
    pub report: usize,
}

/// No call fails, and there is room.
pub const FREE: Limits = Limits {
    broken: Object::Conf,
    call: 0,
    frames: 1_000_000,
    report: 20_000,
};

/// What a run returned and wrote.
#[derive(Drop)]
pub struct Outcome {
    pub status: Status,
    pub report: BytesSink,
    pub frames: BytesSink,
}

/// Returns the numbers of an object's calls that fail.
fn fails(alloc: Global, limits: Limits, object: Object) -> M<Rows<u32>> {
    if limits.broken == object {
        return Rows::from_slice(alloc, &[limits.call]);
    }
    Ok(Rows::new(alloc))
}

/// Returns a source of those octets that fails as the limits specify for that object.
fn source(alloc: Global, limits: Limits, object: Object, octets: Octets) -> M<BytesSource>
    ensures { IfOk result (λ s. ⟦<BytesSource as Source>⟧.faults s ≡ 0) }
{
    let fails = fails(alloc, limits, object)?;
    Ok(BytesSource::new(octets, fails))
}

/// Returns a sink with that much room that fails as the limits specify for that object.
fn sink(alloc: Global, limits: Limits, object: Object, room: usize) -> M<BytesSink>
    ensures faults { IfOk result (λ s. ⟦<BytesSink as Sink>⟧.faults s ≡ 0) }
    ensures zeros { IfOk result (λ s. ⟦<BytesSink as Sink>⟧.zeros s ≡ 0) }
{
    let fails = fails(alloc, limits, object)?;
    BytesSink::new(alloc, room, fails)
}

/// Runs those arguments on a domain file and an input.
fn run_between(
    alloc: Global,
    words: &[&str],
    conf: &mut BytesSource,
    input: &mut BytesSource,
    limits: Limits,
) -> M<Outcome>
    requires conf { ⟦<BytesSource as Source>⟧.faults conf.old ≡ 0 }
    requires input { ⟦<BytesSource as Source>⟧.faults input.old ≡ 0 }
{
    let mut frames = sink(alloc, limits, Object::Frames, limits.frames)?;
    let mut report = sink(alloc, limits, Object::Report, limits.report)?;
    let status = run(alloc, words, conf, input, &mut frames, &mut report);
    Ok(Outcome {
        status,
        report,
        frames,
    })
}

/// Returns the domain file that the second argument names.
fn conf_of(alloc: Global, words: &[&str]) -> M<Octets> {
    let name = match words {
        [_, name, ..] => *name,
        _ => "",
    };
    Octets::from_slice(alloc, domain_of(name).as_bytes())
}

/// Runs those arguments on a domain file and an input.
pub fn run_in(
    alloc: Global,
    words: &[&str],
    conf: Octets,
    input: Octets,
    limits: Limits,
) -> M<Outcome> {
    let mut input = source(alloc, limits, Object::Input, input)?;
    let mut conf = source(alloc, limits, Object::Conf, conf)?;
    run_between(alloc, words, &mut conf, &mut input, limits)
}

/// Runs those arguments on an input, and on the domain file that the second argument names.
pub fn run_on(alloc: Global, words: &[&str], input: Octets, limits: Limits) -> M<Outcome> {
    run_in(alloc, words, conf_of(alloc, words)?, input, limits)
}

fn words_of<'a>(alloc: Global, text: &'a str) -> Result<Vec<&'a str>, AllocError> {
    let mut words = Vec::new(alloc);
    for word in text.split(' ') {
        words.push(word)?;
    }
    Ok(words)
}

/// Runs those arguments, separated by spaces, on an input in the format of the tables. Returns none if the input is
/// invalid, or if an allocation fails.
fn run_words(alloc: Global, words: &str, input: &str, limits: Limits) -> Option<Outcome> {
    let list = words_of(alloc, words).ok()?;
    let input = input_of(alloc, words, input)?;
    run_on(alloc, list.as_slice(), input, limits).ok()
}

/// Runs a row of a table: arguments and an input, separated by ` | `. Returns none if the row is invalid, or if an
/// allocation fails.
pub fn run_row(alloc: Global, given: &str, limits: Limits) -> Option<Outcome> {
    let (words, input) = given.split_once(" | ")?;
    run_words(alloc, words, input, limits)
}

/// Returns the three parts of a row of a table: arguments and an input, and after an arrow two expected results of
/// their run.
pub fn parts_of(line: &str) -> Option<(&str, &str, &str)> {
    let (given, wanted) = line.split_once(" => ")?;
    let (first, second) = wanted.split_once(" | ")?;
    Some((given, first, second))
}

/// Returns whether octets occur somewhere in others.
pub fn holds(octets: &[u8], wanted: &[u8]) -> bool {
    for at in 0..octets.len() {
        if octets[at..].starts_with(wanted) {
            return true;
        }
    }
    wanted.is_empty()
}
