//! Frames that arrive, are lost or are duplicated.
ghost use Rattle.std.specs.Prelude.{◌≡◌, ◌<◌, ◌≤◌, [], true, false, length, slice_get, option_map, Some, IfOk, IfSome, OnOk, OnErr};
ghost use Rattle.wire_base.specs.declared.cause.Cause.TheVariants as cause;
ghost use Rattle.wire_base.specs.model.Configuration.{IsSound};
ghost use Rattle.replay_text.specs.declared.event.Event.TheVariants as events;
ghost use Rattle.domain_core.specs.Answers.{outcome, taken_outcome};
ghost use Rattle.domain_core.specs.Held.{state_of, world_in, heard_in, IsDone};
ghost use Rattle.domain_core.specs.Network.{IsAsBefore, IsTrueNetwork, confs_of, heard_after, seen_of};
ghost use Rattle.domain_model.specs.Moves.{item_lost};
ghost use Rattle.domain_model.specs.Step.{doing};
ghost use Rattle.domain_model.specs.Truth.{router_at};
ghost use Rattle.domain_model.specs.World.{link_between, queue_at};
ghost use Rattle.frames_in_flight.specs.Flights.{place_seen, without_frame};
ghost use Rattle.frames_in_flight.specs.Told.{told};
ghost use Rattle.wire_base.specs.model.OnFrame.{nothing};

use crate::network::{Network, reader};
use crate::over::or_nothing;
use crate::peers::first_peer;
use bier_forward::Effects;
use domain_model::StepOut;
use frames_in_flight::{FlightSeen, Flights, confs_of, drop_flight, is_silent, queue_taken};
use router_core::Router;
use wire_base::limits::MOST_ROUTERS;
use wire_base::{Cause, M, Octets, RouterConf};

impl Network {
    /// Loses a frame: the router that it was for drops it.
    pub(crate) fn lose(&mut self, from: u16, to: u16, i: u32) -> M<StepOut>
        requires { IsTrueNetwork (state_of self.old) }
        ensures done { IfOk result (λ out. IsDone self.old self.new (doing (world_in self.old) (events.Lose from to i)) out) }
        ensures heard { OnOk result (heard_in self.new ≡ heard_in self.old) }
        ensures err { OnErr result (state_of self.new ≡ state_of self.old) }
        ensures domain { self.new.domain ≡ self.old.domain }
    {
        let alloc = self.allocator();
        let Some(link) = self.link(from, to) else {
            return Ok(StepOut::nothing(alloc));
        };
        let out = self.drop_frame(from, link, i, to, Cause::Lost)?;
        Ok(or_nothing(alloc, out))
    }

    /// Removes a frame that was sent on the interface `link`, and that the router at the index `at` drops as a whole.
    /// Returns the report, or nothing if there is no such frame. Only the flights change.
    fn drop_frame(
        &mut self,
        from: u16,
        link: u16,
        i: u32,
        at: u16,
        cause: Cause,
    ) -> M<Option<StepOut>>
        requires { IsTrueNetwork (state_of self.old) }
        ensures out { IfOk result (λ out. out ≡ option_map (λ x. told self.old.domain.routers (item_lost at cause x)) (slice_get (queue_at (world_in self.old).flights from link) i)) }
        ensures ok { OnOk result (state_of self.new ≡ record (state_of self.old) { flights = without_frame self.old.flights from link i }) }
        ensures err { OnErr result (state_of self.new ≡ state_of self.old) }
        ensures domain { self.new.domain ≡ self.old.domain }
    {
        let alloc = self.allocator();
        let Some(flight) = self.flights.get(from, link, i) else {
            return Ok(None);
        };
        let reader = reader(
            self.routers.as_slice(),
            confs_of(self.domain.conf()),
            &flight,
        );
        drop_flight(alloc, &mut self.flights, reader, from, link, i, at, cause)
    }

    /// Duplicates a frame that carries a PDU: a copy of it is queued at the end of its direction.
    pub(crate) fn again(&mut self, from: u16, to: u16, i: u32) -> M<StepOut>
        requires { IsTrueNetwork (state_of self.old) }
        ensures done { IfOk result (λ out. IsDone self.old self.new (doing (world_in self.old) (events.Again from to i)) out) }
        ensures heard { OnOk result (heard_in self.new ≡ heard_in self.old) }
        ensures err { OnErr result (state_of self.new ≡ state_of self.old) }
        ensures domain { self.new.domain ≡ self.old.domain }
    {
        let alloc = self.allocator();
        let Some(link) = self.link(from, to) else {
            return Ok(StepOut::nothing(alloc));
        };
        let Some(flight) = self.flights.get(from, link, i) else {
            return Ok(StepOut::nothing(alloc));
        };
        let None = flight.note else {
            return Ok(StepOut::nothing(alloc));
        };
        // Its octets are stored among those of the frames that it is appended to.
        let octets = Octets::from_slice(alloc, flight.octets)?;
        self.flights.push(from, link, octets.as_slice(), None)?;
        Ok(StepOut::nothing(alloc))
    }

    /// Delivers a frame.
    pub(crate) fn take(&mut self, from: u16, to: u16, i: u32) -> M<StepOut>
        requires truth { IsTrueNetwork (state_of self.old) }
        requires place { to < length self.old.routers.items }
        ensures done { IfOk result (λ out. IsDone self.old self.new (doing (world_in self.old) (events.Take from to i)) out) }
        ensures heard { OnOk result (heard_in self.new ≡ heard_after (world_in self.old) (heard_in self.old) (events.Take from to i)) }
        ensures err { OnErr result (IsAsBefore (seen_of (state_of self.old)) (seen_of (state_of self.new)) (events.Take from to i)) }
        ensures frames { OnErr result (self.new.flights ≡ self.old.flights) }
        ensures domain { self.new.domain ≡ self.old.domain }
    {
        let alloc = self.allocator();
        let Some(link) = self.link(from, to) else {
            return Ok(StepOut::nothing(alloc));
        };
        let Some(back) = self.link(to, from) else {
            return Ok(StepOut::nothing(alloc));
        };
        let mut made = StepOut::nothing(alloc);
        self.take_on_link(from, link, to, back, i, &mut made)?;
        Ok(made)
    }

    /// Drops a frame that arrives at an interface that is down. It is not inlined, since it is rare.
    #[inline(never)]
    fn drop_arrived(&mut self, from: u16, link: u16, i: u32, to: u16, made: &mut StepOut) -> M<bool>
        requires { IsTrueNetwork (state_of self.old) }
        ensures out { IfOk result (λ some. taken_outcome some made.new ≡ outcome (option_map (λ x. told self.old.domain.routers (item_lost to cause.Link x)) (slice_get (queue_at (world_in self.old).flights from link) i))) }
        ensures ok { OnOk result (state_of self.new ≡ record (state_of self.old) { flights = without_frame self.old.flights from link i }) }
        ensures idle { IfOk result (λ some. some ≡ false → made.new ≡ made.old) }
        ensures err { OnErr result (state_of self.new ≡ state_of self.old) }
        ensures none { OnErr result (made.new ≡ made.old) }
        ensures domain { self.new.domain ≡ self.old.domain }
    {
        let dropped = self.drop_frame(from, link, i, to, Cause::Link)?;
        Ok(put_report(made, dropped))
    }

    /// Delivers a frame that was sent on the interface `link`, and arrives at the interface `back`. If this interface
    /// is up, the router receives the frame; if it is down, the router drops it. Returns whether there is anything to
    /// report, which is then written to `made`. For most frames there is nothing, and `made` is unchanged, as it is
    /// after an error.
    ///
    /// A router that replies to a frame is unchanged, and one that changes has nothing to report. So an allocation may
    /// still fail after the router has received a frame, and the world is unchanged. The frame is removed from its
    /// queue only at the end.
    #[inline(always)]
    pub(crate) fn take_on_link(
        &mut self,
        from: u16,
        link: u16,
        to: u16,
        back: u16,
        i: u32,
        made: &mut StepOut,
    ) -> M<bool>
        requires truth { IsTrueNetwork (state_of self.old) }
        requires place { to < length self.old.routers.items }
        requires joined { link_between self.old.domain.routers from to ≡ Some link }
        requires facing { link_between self.old.domain.routers to from ≡ Some back }
        ensures done { IfOk result (λ some. IsDone self.old self.new (doing (world_in self.old) (events.Take from to i)) (taken_outcome some made.new)) }
        ensures idle { IfOk result (λ some. some ≡ false → made.new ≡ made.old) }
        ensures none { OnErr result (made.new ≡ made.old) }
        ensures heard { OnOk result (heard_in self.new ≡ heard_after (world_in self.old) (heard_in self.old) (events.Take from to i)) }
        ensures err { OnErr result (IsAsBefore (seen_of (state_of self.old)) (seen_of (state_of self.new)) (events.Take from to i)) }
        ensures frames { OnErr result (self.new.flights ≡ self.old.flights) }
        ensures domain { self.new.domain ≡ self.old.domain }
    {
        if !self.is_end_up(to, back) {
            return self.drop_arrived(from, link, i, to, made);
        }
        let Some(flight) = self.flights.get(from, link, i) else {
            return Ok(false);
        };
        let router = &mut self.routers[usize::from(to)];
        empty(&mut self.effects);
        router.frame_into(back, flight.octets, &mut self.effects)?;
        if is_silent(&self.effects) {
            self.flights.remove(from, link, i as usize);
            return Ok(false);
        }
        let confs = confs_of(self.domain.conf());
        let routers = self.routers.as_slice();
        let reader = reader_if_dropped(routers, confs, &flight, &self.effects);
        let known = first_peer(&self.domain, to, (back, from), &self.effects);
        queue_taken(
            &mut self.flights,
            confs,
            reader,
            from,
            link,
            i,
            to,
            Some(known),
            &mut self.effects,
            made,
        )
    }
}

/// Writes a report where the caller wants it, if there is one. Returns whether there is.
fn put_report(made: &mut StepOut, report: Option<StepOut>) -> bool
    ensures made { taken_outcome result made.new ≡ outcome report }
    ensures idle { result ≡ false → made.new ≡ made.old }
{
    match report {
        None => false,
        Some(out) => {
            *made = out;
            true
        }
    }
}

/// Returns whether there are no effects at all.
fn is_nothing(effects: &Effects) -> bool
    ensures { result ≡ true → effects.now ≡ nothing }
{
    is_silent(effects) && !effects.passed
}

/// Makes effects empty. It is inlined, since most frames leave none and the test is all that is done then.
#[inline(always)]
fn empty(effects: &mut Effects)
    ensures { effects.new ≡ nothing }
{
    if !is_nothing(effects) {
        effects.clear();
    }
}

/// Returns the configuration, as it is now, of the router that the packet in a frame is for, if a router that received
/// the frame dropped something. The BFR-ids of a packet are parsed only where they are reported.
fn reader_if_dropped<'a>(
    routers: &'a [Router],
    confs: &[RouterConf],
    flight: &FlightSeen<'_>,
    effects: &Effects,
) -> Option<&'a RouterConf>
    requires { length confs.now ≤ MOST_ROUTERS }
    ensures reader { (effects.now.drops ≡ [] → ⊥) → option_map (λ r. r.now) result ≡ router_at (confs_of routers.now) (place_seen confs.now flight.now) }
    ensures sound { IfSome result (λ r. IsSound r.now) }
{
    if effects.drops.len() == 0 {
        return None;
    }
    reader(routers, confs, flight)
}
