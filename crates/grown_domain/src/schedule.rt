//! The schedule for the generated domain.
ghost use Rattle.std.specs.Prelude.{◌≡◌, ◌<◌, ◌≤◌, IfOk};
ghost use Rattle.std.specs.List.{range_with_len};
ghost use Rattle.wire_base.specs.declared.limits.TheConstants.{MOST_ROUTERS};
ghost use Rattle.replay_text.specs.Events.{LineFits};
ghost use Rattle.grown_domain.specs.Schedule as spec;

use replay_text::{Event, Line};
use std::alloc::Global;
use wire_base::{Bsl, M, Octets, Rows};

/// Returns as many rounds as the LSPs of the farthest routers need.
fn settling(n: u16) -> Line
    ensures { result ≡ spec.settling n }
{
    Line::Settle(u32::from(n / 2) + 4)
}

/// Returns the BFR-ids of all `n` routers.
fn ids(alloc: Global, n: u16) -> M<Rows<u16>>
    requires { n ≤ MOST_ROUTERS }
    ensures { IfOk result (λ ids. ids ≡ range_with_len 1 n) }
{
    let mut ids = Rows::new(alloc);
    for place in 0..n {
        ids.push(place + 1)?;
    }
    Ok(ids)
}

/// Returns the injection of a packet at the first router for all of them.
fn sending(alloc: Global, n: u16, entropy: u32) -> M<Line>
    requires { n ≤ MOST_ROUTERS }
    ensures { IfOk result (λ line. line ≡ spec.sending n entropy) }
{
    Ok(Line::One(Event::Inject {
        router: 0,
        sd: 0,
        bsl: Bsl::B256,
        ids: ids(alloc, n)?,
        ttl: 255,
        entropy,
        payload: Octets::from_slice(alloc, &[0])?,
    }))
}

/// A line of the schedule for the generated domain.
#[derive(Clone, Copy, Debug, PartialEq, Eq)]
pub enum GrownLine {
    /// The domain settles: as many rounds as the LSPs of the farthest routers need.
    Settle,
    /// A packet with that entropy is injected at the first router for all routers.
    Send(u16),
}

impl GrownLine {
    /// The number of lines of the schedule.
    pub const COUNT: u16 = 18;

    /// Returns the line at an index: the domain settles, sixteen packets are injected, and it settles again.
    pub fn at(index: u16) -> GrownLine
        ensures { result ≡ spec.line_at index }
    {
        match index {
            0 | 17 => GrownLine::Settle,
            _ => GrownLine::Send(index - 1),
        }
    }

    /// Returns the line for the domain of `n` routers.
    #[tactic(auto, using(crate::proofs::ScheduleLines::sending_fits))]
    pub fn line(self, alloc: Global, n: u16) -> M<Line>
        requires some { 0 < n }
        requires few { n ≤ MOST_ROUTERS }
        ensures value { IfOk result (λ line. line ≡ spec.line_of n self) }
        ensures fits { IfOk result (λ line. LineFits n line) }
    {
        match self {
            GrownLine::Settle => Ok(settling(n)),
            GrownLine::Send(entropy) => sending(alloc, n, u32::from(entropy)),
        }
    }
}
