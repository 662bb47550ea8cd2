//! MPLS label stacks (RFC 3032, 2.1).
ghost use Rattle.std.specs.Prelude.{◌≡◌, ◌≤◌, ◌*◌, ◌++◌, List, ℕ, Ok, IfOk, length};
ghost use Rattle.wire_base.specs.model.Fields.{Gives};
ghost use Rattle.wire_base.specs.model.Labels.{LabelEntry, IsStack, StackFits, entry_of, stack, stack_at};
ghost use Rattle.link_frame.specs.Stacks.{entry, entries, read_entries};

use arrayvec::ArrayVec;
use wire_base::StackFault;
use wire_base::fields::read_u32;

/// The maximum number of label stack entries that are read.
const MOST_LABELS: usize = 8;

/// A label stack entry: the label value of 20 bits, the traffic class of three, and the TTL.
#[derive(Clone, Copy, Debug, Default, PartialEq, Eq)]
pub struct Label {
    pub value: u32,
    pub tc: u8,
    pub ttl: u8,
}

/// Decodes a label stack entry.
fn label_from(word: u32) -> Label
    ensures { entry result ≡ entry_of word }
{
    Label {
        value: word / 4096,
        tc: (word / 512 % 8) as u8,
        ttl: (word % 256) as u8,
    }
}

/// Reads the label stack at the start of the octets, from the top to the bottom, which is the first entry whose S bit is 1.
/// Octets after it are not read.
///
/// Errors, in this order: 1 NoBottom, the octets end before the bottom and before eight complete entries; 2 Deep,
/// none of the first eight entries is the bottom.
pub fn read_stack(bytes: &[u8]) -> Result<ArrayVec<Label, 8>, StackFault>
    ensures exact { Gives (read_entries bytes.now) result (stack_at 8 bytes.now) }
    ensures whole { IfOk result (λ labels. (1 ≤ length labels.items) × (4 * length labels.items ≤ length bytes.now)) }
    ensures found { IfOk result (λ labels. IsStack 8 (entries labels.items) bytes.now) }
    ensures only { (es : List LabelEntry) (rest : List ℕ) → StackFits 8 es → bytes.now ≡ stack es ++ rest → Gives (read_entries bytes.now) result (Ok (es, rest)) }
{
    stack_of(bytes)
}

/// Reads the entries, by the same rules.
fn stack_of(bytes: &[u8]) -> Result<ArrayVec<Label, 8>, StackFault>
    ensures exact { Gives (read_entries bytes.now) result (stack_at 8 bytes.now) }
{
    let mut labels = ArrayVec::new();
    let mut rest = bytes;
    'entry: while labels.len() < MOST_LABELS {
        let (word, after) = read_u32(StackFault::NoBottom, rest)?;
        labels.push(label_from(word));
        if word / 256 % 2 == 1 {
            return Ok(labels);
        }
        rest = after;
    }
    Err(StackFault::Deep)
}
