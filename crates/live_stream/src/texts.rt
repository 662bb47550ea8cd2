//! The line of a report for an event that is not done.
ghost use Rattle.std.specs.Prelude.{◌≡◌, ◌++◌, OnOk};
ghost use Rattle.std.specs.Fmt.{decimal};
ghost use Rattle.live_stream.specs.LiveRun.{refused_text};

use crate::fault::LiveFault;
use replay_text::push_rule;
use wire_base::{M, Octets};

/// Appends the number of a record, and the keyword of what is reported of it.
fn push_front(out: &mut Octets, number: u64, what: &[u8]) -> M<()>
    ensures { OnOk result (out.new ≡ out.old ++ (decimal number ++ what.now)) }
{
    out.append_number(number)?;
    out.append(what)
}

/// Appends the line for an event that is not done: `RECORD refused SUBJECT RULE NAME`.
pub fn push_refusal(out: &mut Octets, number: u64, why: LiveFault) -> M<()>
    ensures { OnOk result (out.new ≡ out.old ++ refused_text number why) }
{
    push_front(out, number, b" refused ")?;
    out.append(why.subject())?;
    out.push(b' ')?;
    push_rule(out, why.number(), why.name())?;
    out.push(b'\n')
}
