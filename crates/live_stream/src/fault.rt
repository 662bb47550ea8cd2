//! Why an event of the stream is not done.
ghost use Rattle.std.specs.Prelude.{◌≡◌};
ghost use Rattle.live_stream.specs.Faults as faults;

use replay_text::TextFault;
use wire_base::EdgeFault;

/// Why an event is not done. The run goes on behind it.
#[derive(Clone, Copy, Debug, PartialEq, Eq)]
pub enum LiveFault {
    /// The frame has no version octet, or one other than 1.
    Version,
    /// The text is no line of a schedule.
    Line(TextFault),
    /// The line has no event of one running router: it is blank, a comment or rounds, it takes, loses or repeats a frame, or it
    /// changes labels or sub-domains.
    Kind,
    /// The event is at another router.
    Router,
    /// No link joins the router to the one that is named.
    NoLink,
    /// An interface that is to come up is up, or one that is to go down or to send is down.
    EndState,
    /// The router creates no packets for that injection.
    Edge(EdgeFault),
}

impl LiveFault {
    /// Returns what rejects the event: the frame, its line, the router's state, or the ingress.
    pub fn subject(self) -> &'static [u8]
        ensures { result.now ≡ faults.subject_of self }
    {
        match self {
            LiveFault::Version => b"frame",
            LiveFault::Line(_) => b"line",
            LiveFault::Kind | LiveFault::Router | LiveFault::NoLink | LiveFault::EndState =>
                b"event",
            LiveFault::Edge(_) => b"edge",
        }
    }

    /// Returns the number of the rule, from 1 for each subject.
    pub fn number(self) -> u8
        ensures { result ≡ faults.number_of self }
    {
        match self {
            LiveFault::Version => 1,
            LiveFault::Line(why) => why.number(),
            LiveFault::Kind => 1,
            LiveFault::Router => 2,
            LiveFault::NoLink => 3,
            LiveFault::EndState => 4,
            LiveFault::Edge(why) => why.number(),
        }
    }

    /// Returns the name of the rule.
    pub fn name(self) -> &'static [u8]
        ensures { result.now ≡ faults.name_of self }
    {
        match self {
            LiveFault::Version => b"Version",
            LiveFault::Line(why) => why.name(),
            LiveFault::Kind => b"Kind",
            LiveFault::Router => b"Router",
            LiveFault::NoLink => b"NoLink",
            LiveFault::EndState => b"EndState",
            LiveFault::Edge(why) => why.name(),
        }
    }
}
