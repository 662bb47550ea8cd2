ghost use Rattle.std.specs.Prelude.{◌≡◌};
ghost use Rattle.wire_base.specs.model.Control.{aged};
ghost use Rattle.lsp_store.specs.Places.{is_removed, passed};

use crate::entries::purge;
use wire_base::{Aged, Entry};

/// Returns the effect of one second on an entry.
pub(crate) fn aged(entry: &Entry) -> Aged
    ensures { result ≡ aged entry.now }
{
    if entry.life > 0 {
        if entry.life == 1 {
            Aged::Expired
        } else {
            Aged::Live
        }
    } else if entry.hold <= 1 {
        Aged::Removed
    } else {
        Aged::Held
    }
}

/// Ages the entry by one second; one that is to be removed is unchanged.
pub(crate) fn pass_second(entry: &mut Entry) -> Aged
    ensures answer { result ≡ aged entry.old }
    ensures becomes { entry.new ≡ passed result entry.old }
    ensures id { entry.new.id ≡ entry.old.id }
{
    let answer = aged(entry);
    match answer {
        Aged::Live => entry.life -= 1,
        Aged::Expired => *entry = purge(entry.id, entry.seq),
        Aged::Held => entry.hold -= 1,
        Aged::Removed => (),
    }
    answer
}

/// Returns whether an entry is to be removed.
pub(crate) fn is_removed(answer: Aged) -> bool
    ensures { result ≡ is_removed answer }
{
    match answer {
        Aged::Live | Aged::Expired | Aged::Held => false,
        Aged::Removed => true,
    }
}
