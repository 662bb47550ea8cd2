//! The inputs of the tables, as the octets that a run reads.
use std::alloc::Global;
use wire_base::{M, Octets};

// A's own LSP, as A sends it first.
pub const LSP_OF_A: &str =
    "09002b0000050200000000010050fefe03831b010014010000004d04b0000000000001000000000001554e030104034900018101cc890141160b0000000000020000000a00871700000000600a0000010d200b0000000001010400100064";

const HEADER: [u8; 24] = [
    0xd4, 0xc3, 0xb2, 0xa1, 2, 0, 4, 0, 0, 0, 0, 0, 0, 0, 0, 0, 0xff, 0xff, 0, 0, 1, 0, 0, 0,
];

/// Returns lines that are separated by ` / `. A `$` at the end of a line means that the LF is missing. A star and a
/// number mean that many repetitions of the character before them.
pub fn lines_of(alloc: Global, text: &str) -> M<Octets> {
    let mut lines = Octets::new(alloc);
    if text.is_empty() {
        return Ok(lines);
    }
    for line in text.split(" / ") {
        push_line(&mut lines, line)?;
    }
    Ok(lines)
}

fn push_line(lines: &mut Octets, line: &str) -> M<()> {
    let (line, end) = match line.strip_suffix("$") {
        Some(open) => (open, ""),
        None => (line, "\n"),
    };
    match line.split_once("*") {
        Some((front, count)) => push_often(
            lines,
            front.as_bytes(),
            count.parse::<u32>().unwrap_or(0),
        )?,
        None => lines.append(line.as_bytes())?,
    }
    lines.append(end.as_bytes())
}

/// Appends octets, the last of which is repeated that many times.
fn push_often(lines: &mut Octets, front: &[u8], count: u32) -> M<()> {
    lines.append(front)?;
    if let [.., last] = front {
        for _ in 1..count {
            lines.push(*last)?;
        }
    }
    Ok(())
}

/// Returns a capture without records.
pub fn no_records(alloc: Global) -> M<Octets> {
    Octets::from_slice(alloc, &HEADER)
}

/// Appends a record of a frame of fewer than 256 octets.
pub fn push_record(out: &mut Octets, second: u32, frame: &[u8]) -> M<()> {
    let len = [(frame.len() % 256) as u8, 0, 0, 0];
    out.append_two(&second.to_le_bytes(), &[0; 4])?;
    out.append_two(&len, &len)?;
    out.append(frame)
}

/// Returns octets from their digits; none if those are not digits, or if an allocation fails.
pub fn octets_of(alloc: Global, digits: &str) -> Option<Octets> {
    let octets = hex::decode(alloc, digits).ok()?;
    Some(Octets::from_vec(octets))
}

/// Appends a record of a frame from its digits, where `A` is A's own LSP.
fn push_digits(out: &mut Octets, alloc: Global, second: &str, frame: &str) -> Option<()> {
    let digits = if frame == "A" { LSP_OF_A } else { frame };
    let frame = octets_of(alloc, digits)?;
    let second = second.parse::<u32>().unwrap_or(0);
    push_record(out, second, frame.as_slice()).ok()
}

/// Appends records: a second and a frame each.
fn push_records(out: &mut Octets, alloc: Global, records: &str) -> Option<()> {
    let mut words = records.split(' ');
    while let (Some(second), Some(frame)) = (words.next(), words.next()) {
        push_digits(out, alloc, second, frame)?;
    }
    Some(())
}

/// Returns the capture with those records.
fn capture_of(alloc: Global, records: &str) -> Option<Octets> {
    let mut out = no_records(alloc).ok()?;
    push_records(&mut out, alloc, records)?;
    Some(out)
}

/// Returns what a command reads: records for `node`, digits for `headers` and `topo`, otherwise lines. Returns none if the text is
/// invalid, or if an allocation fails.
pub fn input_of(alloc: Global, words: &str, text: &str) -> Option<Octets> {
    if words.starts_with("node") {
        capture_of(alloc, text)
    } else if words.starts_with("headers") || words.starts_with("topo") {
        octets_of(alloc, text)
    } else {
        lines_of(alloc, text).ok()
    }
}
