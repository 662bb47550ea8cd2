ghost use Rattle.std.specs.Prelude.{◌≡◌, Some};
ghost use Rattle.wire_base.specs.model.Control.{age_of};

use wire_base::{Age, Entry, Summary};

/// Compares a summary with an entry (ISO/IEC 10589, 7.3.16.2).
pub(crate) fn age_beside(entry: &Entry, s: &Summary) -> Age
    ensures { result ≡ age_of (Some entry.now) s.now }
{
    if entry.seq != s.seq {
        return if entry.seq < s.seq {
            Age::Newer
        } else {
            Age::Older
        };
    }
    if s.seq == 0 {
        return Age::Equal;
    }
    match (entry.life == 0, s.life == 0) {
        (true, true) => Age::Equal,
        (true, false) => Age::Older,
        (false, true) => Age::Newer,
        (false, false) if entry.sum == s.sum => Age::Equal,
        (false, false) => Age::Confused,
    }
}
