//! Why there is no answer.
ghost use Rattle.std.specs.Prelude.{◌≡◌};
ghost use Rattle.show_router.specs.declared.ending.NoAnswer.TheVariants as no;
ghost use Rattle.wire_base.specs.declared.status.Status.TheVariants as status;

use wire_base::{Memory, Octets, Status};

/// Why there is no answer.
#[derive(Drop)]
pub enum NoAnswer {
    /// The words or a file break a rule: the status, and the line that says which.
    Refused(Status, Octets),
    /// A file can't be read, or memory ran out.
    Stopped(Status),
}

impl From<Memory> for NoAnswer {
    ghost from_gives = { λ _ e. e ≡ no.Stopped status.Memory };

    fn from(_: Memory) -> Self {
        NoAnswer::Stopped(Status::Memory)
    }
}

impl From<Status> for NoAnswer {
    ghost from_gives = { λ why e. e ≡ no.Stopped why };

    fn from(why: Status) -> Self {
        NoAnswer::Stopped(why)
    }
}
