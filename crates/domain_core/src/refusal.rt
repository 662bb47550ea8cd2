//! Why an event is not allowed, except for the reasons of a router to reject an injection.
ghost use Rattle.std.specs.Prelude.{◌≡◌, ℕ, ◌<◌, not, nat_le, is_none, List, length, slice_get, Some, None};
ghost use Rattle.wire_base.specs.declared.conf.RouterConf.{RouterConf};
ghost use Rattle.wire_base.specs.model.Membership.{own_range};
ghost use Rattle.wire_base.specs.model.Place.{known_subs, sub_in};
ghost use Rattle.replay_text.specs.declared.event.Event.TheVariants as events;
ghost use Rattle.domain_core.specs.Answers.{early_fault, early_rule};
ghost use Rattle.domain_model.specs.declared.fault.EventFault.TheVariants as faults;
ghost use Rattle.domain_model.specs.Faults.{most_in_flight, first_fault, unless_room, up_over, frame_fault, repeat_fault, range_fault, rule_fault};
ghost use Rattle.frames_in_flight.specs.Flights.{item_seen};
ghost use Rattle.domain_core.specs.Held.{world_in};
ghost use Rattle.domain_model.specs.Truth.{EventFits};
ghost use Rattle.domain_model.specs.World.{queue_at, in_flight};

use crate::network::Network;
use domain_model::EventFault;
use frames_in_flight::FlightSeen;
use replay_text::Event;
use router_core::{is_in, is_known, is_too_high, is_worn, own_range, used_label};
use wire_base::limits::{MOST_EVENTS, MOST_IN_FLIGHT};
use wire_base::{Bsl, LabelRange, OwnSub, RouterConf};

impl Network {
    /// Returns the first reason why the event is not allowed, except for the reasons of a router to reject an
    /// injection.
    pub(crate) fn fault(&self, event: &Event) -> Option<EventFault>
        requires routers { length self.now.routers.items ≡ length self.now.domain.routers }
        requires fits { EventFits (length self.now.domain.routers) event.now }
        ensures { result ≡ early_fault (world_in self.now) event.now }
    {
        if self.events >= MOST_EVENTS {
            return Some(EventFault::Events);
        }
        self.rule_fault(event)
    }

    fn rule_fault(&self, event: &Event) -> Option<EventFault>
        requires routers { length self.now.routers.items ≡ length self.now.domain.routers }
        requires fits { EventFits (length self.now.domain.routers) event.now }
        ensures { result ≡ early_rule (world_in self.now) event.now }
    {
        match event {
            Event::Inject { .. } => self.room_fault(),
            Event::Take { from, to, i } => self.take_fault(*from, *to, *i),
            Event::Lose { from, to, i } => self.lose_fault(*from, *to, *i),
            Event::Again { from, to, i } => self.again_fault(*from, *to, *i),
            Event::Down { from, to } => self.down_fault(*from, *to),
            Event::Up { from, to } => self.up_fault(*from, *to),
            Event::Send { from, to } => self.send_fault(*from, *to),
            Event::Tick { .. } | Event::Restart { .. } => None,
            Event::Relabel {
                router,
                sd,
                bsl,
                label,
            } => self.relabel_fault(*router, *sd, *bsl, *label),
            Event::Leave { router, sd } => self.leave_fault(*router, *sd),
            Event::Join { router, sd } => self.join_fault(*router, *sd),
        }
    }

    /// Returns whether so many frames are in flight that no more may be sent.
    #[tactic(auto, using(crate::proofs::SeenLaws::seen_count))]
    fn is_full(&self) -> bool
        ensures { result ≡ nat_le most_in_flight (in_flight (world_in self.now).flights) }
    {
        self.flights.count() >= MOST_IN_FLIGHT
    }

    /// Returns whether the interface at an index is up.
    pub(crate) fn is_end_up(&self, place: u16, link: u16) -> bool
        requires { place < length self.now.routers.items }
        ensures { result ≡ up_over (slice_get (world_in self.now).routers place) (Some link) }
    {
        self.routers[usize::from(place)].is_up(link)
    }

    /// Returns the error if there is no such frame from an interface.
    fn frame_fault(&self, from: u16, link: u16, i: u32) -> Option<EventFault>
        ensures { result ≡ frame_fault (slice_get (queue_at (world_in self.now).flights from link) i) i (length (queue_at (world_in self.now).flights from link)) }
    {
        match self.flights.get(from, link, i) {
            None => Some(EventFault::NoFrame(i, self.flights.len(from, link))),
            Some(_) => None,
        }
    }

    /// Returns the error if there is no such frame from an interface, or if it carries a packet.
    fn repeat_fault(&self, from: u16, link: u16, i: u32) -> Option<EventFault>
        ensures { result ≡ repeat_fault (slice_get (queue_at (world_in self.now).flights from link) i) i (length (queue_at (world_in self.now).flights from link)) }
    {
        match self.flights.get(from, link, i) {
            None => Some(EventFault::NoFrame(i, self.flights.len(from, link))),
            Some(flight) => packet_fault(&flight),
        }
    }

    fn take_fault(&self, from: u16, to: u16, i: u32) -> Option<EventFault>
        ensures { result ≡ rule_fault (world_in self.now) (events.Take from to i) }
    {
        match self.link(from, to) {
            Some(link) => self.take_fault_over(from, link, i),
            None => Some(EventFault::NoLink),
        }
    }

    /// Does the same for a frame that was sent on the interface `link`, except that a missing link is not checked.
    pub(crate) fn take_fault_over(&self, from: u16, link: u16, i: u32) -> Option<EventFault>
        ensures { result ≡ unless_room (world_in self.now) (frame_fault (slice_get (queue_at (world_in self.now).flights from link) i) i (length (queue_at (world_in self.now).flights from link))) }
    {
        if self.is_full() {
            return Some(EventFault::InFlight);
        }
        self.frame_fault(from, link, i)
    }

    fn lose_fault(&self, from: u16, to: u16, i: u32) -> Option<EventFault>
        ensures { result ≡ rule_fault (world_in self.now) (events.Lose from to i) }
    {
        match self.link(from, to) {
            Some(link) => self.frame_fault(from, link, i),
            None => Some(EventFault::NoLink),
        }
    }

    fn again_fault(&self, from: u16, to: u16, i: u32) -> Option<EventFault>
        ensures { result ≡ rule_fault (world_in self.now) (events.Again from to i) }
    {
        let Some(link) = self.link(from, to) else {
            return Some(EventFault::NoLink);
        };
        if self.is_full() {
            return Some(EventFault::InFlight);
        }
        self.repeat_fault(from, link, i)
    }

    fn down_fault(&self, from: u16, to: u16) -> Option<EventFault>
        requires { from < length self.now.routers.items }
        ensures { result ≡ rule_fault (world_in self.now) (events.Down from to) }
    {
        match self.link(from, to) {
            None => Some(EventFault::NoLink),
            Some(link) => if self.is_end_up(from, link) {
                None
            } else {
                Some(EventFault::EndState)
            },
        }
    }

    fn up_fault(&self, from: u16, to: u16) -> Option<EventFault>
        requires { from < length self.now.routers.items }
        ensures { result ≡ rule_fault (world_in self.now) (events.Up from to) }
    {
        match self.link(from, to) {
            None => Some(EventFault::NoLink),
            Some(link) => if self.is_end_up(from, link) {
                Some(EventFault::EndState)
            } else {
                None
            },
        }
    }

    fn send_fault(&self, from: u16, to: u16) -> Option<EventFault>
        requires { from < length self.now.routers.items }
        ensures { result ≡ rule_fault (world_in self.now) (events.Send from to) }
    {
        match self.link(from, to) {
            Some(link) => self.send_fault_over(from, link),
            None => Some(EventFault::NoLink),
        }
    }

    /// Does the same for a send on the interface `link`, except that a missing link is not checked.
    pub(crate) fn send_fault_over(&self, from: u16, link: u16) -> Option<EventFault>
        requires { from < length self.now.routers.items }
        ensures { result ≡ first_fault (not (up_over (slice_get (world_in self.now).routers from) (Some link))) faults.EndState (unless_room (world_in self.now) None) }
    {
        if !self.is_end_up(from, link) {
            return Some(EventFault::EndState);
        }
        self.room_fault()
    }

    fn relabel_fault(&self, at: u16, sd: u8, bsl: Bsl, label: u32) -> Option<EventFault>
        requires { at < length self.now.routers.items }
        ensures { result ≡ rule_fault (world_in self.now) (events.Relabel at sd bsl label) }
    {
        range_fault(self.routers[usize::from(at)].conf(), sd, bsl, label)
    }

    fn leave_fault(&self, at: u16, sd: u8) -> Option<EventFault>
        requires { at < length self.now.routers.items }
        ensures { result ≡ rule_fault (world_in self.now) (events.Leave at sd) }
    {
        let conf = self.routers[usize::from(at)].conf();
        member_fault(conf, conf.subs.as_slice(), sd)
    }

    fn join_fault(&self, at: u16, sd: u8) -> Option<EventFault>
        requires { at < length self.now.routers.items }
        ensures { result ≡ rule_fault (world_in self.now) (events.Join at sd) }
    {
        let conf = self.routers[usize::from(at)].conf();
        member_fault(conf, conf.away.as_slice(), sd)
    }

    fn room_fault(&self) -> Option<EventFault>
        ensures { result ≡ unless_room (world_in self.now) None }
    {
        if self.is_full() {
            return Some(EventFault::InFlight);
        }
        None
    }
}

/// A frame that carries a packet is not duplicated.
#[tactic(auto, unfolding(frames_in_flight::specs::Read::item_in))]
fn packet_fault(flight: &FlightSeen<'_>) -> Option<EventFault>
    ensures { (confs : List RouterConf) (i n : ℕ) → result ≡ repeat_fault (Some (item_seen confs flight.now)) i n }
{
    match flight.note {
        None => None,
        Some(_) => Some(EventFault::NotControl),
    }
}

/// Returns the error if the router's label range for the BSL in the sub-domain can't begin at the label.
fn range_fault(conf: &RouterConf, sd: u8, bsl: Bsl, label: u32) -> Option<EventFault>
    ensures { result ≡ range_fault conf.now label (own_range conf.now sd bsl) }
{
    let Some(range) = own_range(conf, sd, bsl) else {
        return Some(EventFault::NoSub);
    };
    let moved = LabelRange { label, ..range };
    if is_too_high(moved) {
        return Some(EventFault::LabelHigh);
    }
    if let Some(used) = used_label(conf, moved) {
        return Some(EventFault::LabelUsed(used));
    }
    if is_worn(conf) {
        return Some(EventFault::Relabels);
    }
    None
}

/// Returns the error if the sub-domain is not among those that are to be left, or to be joined.
fn member_fault(conf: &RouterConf, subs: &[OwnSub], sd: u8) -> Option<EventFault>
    ensures { result ≡ first_fault (is_none (sub_in (known_subs conf.now) sd)) faults.NoSub (first_fault (is_none (sub_in subs.now sd)) faults.SubState None) }
{
    if !is_known(conf, sd) {
        return Some(EventFault::NoSub);
    }
    if !is_in(subs, sd) {
        return Some(EventFault::SubState);
    }
    None
}
