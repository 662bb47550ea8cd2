//! Frames in flight: a queue for each interface of each router.
ghost use Rattle.std.specs.Prelude.{◌≡◌, ◌+◌, ◌≤◌, ◌∷◌, ◌++◌, ◌<◌, Some, [], nat_lt, List, length, map, slice_get, slice_index_or, slice_set, sum_by, OnOk, OnErr, IfOk};
ghost use Rattle.std.specs.List.{AllByRecursion, remove};
ghost use Rattle.wire_base.specs.model.Configuration.{IsSound};
ghost use Rattle.frames_in_flight.specs.declared.flight.Flight.{Flight};
ghost use Rattle.frames_in_flight.specs.Flights.{item_seen, flight_as, flight_with, frames_at, push_frame, push_frames, without_frame, frame_count, ids_carried_by, no_frames};
ghost use Rattle.domain_model.specs.World.{carried};

use crate::carried::{count_of, sum};
use crate::flight::{FlightSeen, Note};
use frame_list::FrameList;
use std::alloc::Global;
use std::marker::Model;
use wire_base::limits::MOST_ROUTERS;
use wire_base::{End, M, Memory, RouterConf};

/// The frames in flight from one interface, the oldest first.
#[derive(Drop)]
struct Queue {
    frames: FrameList<Option<Note>>,
}

impl Model for Queue {
    ghost use Rattle.std.specs.Prelude.{List};
    ghost use Rattle.frames_in_flight.specs.declared.flight.Flight.{Flight};
    ghost use Rattle.frames_in_flight.specs.Flights.{flights_in};

    ghost Value = { List Flight };

    ghost view = { λ q. flights_in q.frames };
}

impl Queue {
    fn new(alloc: Global) -> Queue
        ensures { result ≡ [] }
    {
        Queue {
            frames: FrameList::new(alloc),
        }
    }

    fn len(&self) -> usize
        ensures { result ≡ length self.now }
    {
        self.frames.len()
    }

    /// Returns the frame at an index.
    #[tactic(auto, using(crate::proofs::QueueLaws::flight_is))]
    fn at(&self, i: usize) -> FlightSeen<'_>
        requires { i < length self.now }
        ensures { slice_get self.now i ≡ Some result }
    {
        FlightSeen {
            octets: self.frames.octets_at(i),
            note: self.frames.note_at(i),
        }
    }

    #[tactic(auto, using(crate::proofs::QueueLaws::past_end))]
    fn get(&self, i: usize) -> Option<FlightSeen<'_>>
        ensures { result ≡ slice_get self.now i }
    {
        if i < self.len() {
            Some(self.at(i))
        } else {
            None
        }
    }

    /// Returns how many BFR-ids its frames carry.
    fn ids(&self, confs: &[RouterConf]) -> M<u64>
        requires few { length confs.now ≤ MOST_ROUTERS }
        requires sound { AllByRecursion IsSound confs.now }
        ensures { IfOk result (λ count. count ≡ sum_by (λ f. carried (item_seen confs.now f)) self.now) }
    {
        let mut total = 0;
        'frames: for i in 0..self.len() {
            total = sum(total, count_of(confs, &self.at(i)))?;
        }
        Ok(total)
    }

    #[tactic(auto, using(crate::proofs::QueueLaws::flight_more))]
    fn push(&mut self, octets: &[u8], note: Option<Note>) -> M<()>
        ensures ok { OnOk result (self.new ≡ self.old ++ flight_with octets.now note ∷ []) }
        ensures err { OnErr result (self.new ≡ self.old) }
    {
        self.frames.push(note, octets)
    }

    /// Appends frames to the queue, all with that note.
    #[tactic(auto, using(crate::proofs::QueueLaws::flights_more))]
    fn push_all(&mut self, frames: &FrameList<u16>, note: Option<Note>) -> M<()>
        ensures ok { OnOk result (self.new ≡ self.old ++ map (flight_as note) frames.now) }
        ensures err { OnErr result (self.new ≡ self.old) }
    {
        self.frames.append_all(note, frames)
    }

    /// Removes the frame at an index, and returns whether there was one.
    #[tactic(auto, using(crate::proofs::QueueLaws::flight_gone))]
    fn remove(&mut self, i: usize) -> bool
        ensures rest { self.new ≡ remove self.old i }
        ensures gone { result ≡ nat_lt i (length self.old) }
    {
        self.frames.remove(i)
    }
}

/// The queues of one router, by interface.
#[derive(Drop)]
struct Queues {
    ends: Vec<Queue>,
}

impl Model for Queues {
    ghost use Rattle.std.specs.Prelude.{List};
    ghost use Rattle.frames_in_flight.specs.declared.flight.Flight.{Flight};

    ghost Value = { List (List Flight) };

    ghost view = { λ q. q.ends.items };
}

impl Queues {
    /// Returns an empty queue for each interface.
    fn new(alloc: Global, ends: &[End]) -> M<Queues>
        ensures { IfOk result (λ queues. queues ≡ map (λ e. []) ends.now) }
    {
        let mut queues = Vec::new(alloc);
        for _end in ends {
            queues.push(Queue::new(alloc))?;
        }
        Ok(Queues { ends: queues })
    }

    /// Returns how many frames are in flight from an interface; 0 if there is no such interface.
    fn len(&self, link: usize) -> usize
        ensures { result ≡ length (slice_index_or self.now link []) }
    {
        if link < self.ends.len() {
            self.ends[link].len()
        } else {
            0
        }
    }

    /// Returns how many BFR-ids the frames of all interfaces carry.
    fn ids(&self, confs: &[RouterConf]) -> M<u64>
        requires few { length confs.now ≤ MOST_ROUTERS }
        requires sound { AllByRecursion IsSound confs.now }
        ensures { IfOk result (λ count. count ≡ sum_by (λ queue. sum_by (λ f. carried (item_seen confs.now f)) queue) self.now) }
    {
        let mut total = 0;
        for queue in &self.ends {
            total = sum(total, queue.ids(confs)?)?;
        }
        Ok(total)
    }

    fn get(&self, link: usize, i: usize) -> Option<FlightSeen<'_>>
        ensures { result ≡ slice_get (slice_index_or self.now link []) i }
    {
        if link < self.ends.len() {
            let queue = &self.ends[link];
            queue.get(i)
        } else {
            None
        }
    }

    /// Appends a frame to those in flight from an interface, and returns whether there is such an interface.
    fn push(&mut self, link: usize, octets: &[u8], note: Option<Note>) -> M<bool>
        ensures ok { OnOk result (self.new ≡ slice_set self.old link (slice_index_or self.old link [] ++ flight_with octets.now note ∷ [])) }
        ensures added { IfOk result (λ added. added ≡ nat_lt link (length self.old)) }
        ensures err { OnErr result (self.new ≡ self.old) }
    {
        if link < self.ends.len() {
            let queue = &mut self.ends[link];
            queue.push(octets, note)?;
            return Ok(true);
        }
        Ok(false)
    }

    /// Appends frames to those in flight from an interface, all with that note, and returns whether there is such an
    /// interface.
    fn push_all(&mut self, link: usize, frames: &FrameList<u16>, note: Option<Note>) -> M<bool>
        ensures ok { OnOk result (self.new ≡ slice_set self.old link (slice_index_or self.old link [] ++ map (flight_as note) frames.now)) }
        ensures added { IfOk result (λ added. added ≡ nat_lt link (length self.old)) }
        ensures err { OnErr result (self.new ≡ self.old) }
    {
        if link < self.ends.len() {
            let queue = &mut self.ends[link];
            queue.push_all(frames, note)?;
            return Ok(true);
        }
        Ok(false)
    }

    /// Removes the frame at an index of those from an interface, and returns whether there was one.
    fn remove(&mut self, link: usize, i: usize) -> bool
        ensures rest { self.new ≡ slice_set self.old link (remove (slice_index_or self.old link []) i) }
        ensures gone { result ≡ nat_lt i (length (slice_index_or self.old link [])) }
    {
        if link < self.ends.len() {
            let queue = &mut self.ends[link];
            queue.remove(i)
        } else {
            false
        }
    }
}

/// All frames in flight. A direction of a link is named by the index of the router that sends there and its interface.
///
/// The number of frames is stored, so that it is not counted on each call.
#[derive(Drop)]
pub struct Flights {
    routers: Vec<Queues>,
    count: usize,
}

impl Model for Flights {
    ghost use Rattle.std.specs.Prelude.{◌≡◌, List};
    ghost use Rattle.frames_in_flight.specs.declared.flight.Flight.{Flight};
    ghost use Rattle.frames_in_flight.specs.Flights.{frame_count};

    ghost Value = { List (List (List Flight)) };

    ghost view = { λ f. f.routers.items };

    ghost invariant = { λ f. f.count ≡ frame_count f.routers.items };
}

impl Flights {
    /// Returns the empty queues of a domain with those routers.
    pub fn new(alloc: Global, confs: &[RouterConf]) -> M<Flights>
        ensures { IfOk result (λ flights. flights ≡ no_frames confs.now) }
    {
        let mut routers = Vec::new(alloc);
        for conf in confs {
            routers.push(Queues::new(alloc, conf.ends.as_slice())?)?;
        }
        Ok(Flights { routers, count: 0 })
    }

    /// Returns the total number of frames.
    pub fn count(&self) -> usize
        ensures { result ≡ frame_count self.now }
    {
        self.count
    }

    /// Returns how many BFR-ids all frames carry.
    pub fn ids(&self, confs: &[RouterConf]) -> M<u64>
        requires few { length confs.now ≤ MOST_ROUTERS }
        requires sound { AllByRecursion IsSound confs.now }
        ensures { IfOk result (λ count. count ≡ ids_carried_by confs.now self.now) }
    {
        ids_in(self.routers.as_slice(), confs)
    }

    /// Returns how many frames are in flight in a direction; 0 if there is no such direction.
    pub fn len(&self, place: u16, link: u16) -> usize
        ensures { result ≡ length (frames_at self.now place link) }
    {
        if usize::from(place) < self.routers.len() {
            self.routers[usize::from(place)].len(usize::from(link))
        } else {
            0
        }
    }

    /// Returns the frame at an index, from 0, of those in a direction.
    pub fn get(&self, place: u16, link: u16, i: u32) -> Option<FlightSeen<'_>>
        ensures { result ≡ slice_get (frames_at self.now place link) i }
    {
        if usize::from(place) < self.routers.len() {
            let queues = &self.routers[usize::from(place)];
            queues.get(usize::from(link), i as usize)
        } else {
            None
        }
    }

    /// Appends a frame with those octets to a direction. If there is no such direction, nothing changes.
    pub fn push(&mut self, place: u16, link: u16, octets: &[u8], note: Option<Note>) -> M<()>
        ensures ok { OnOk result (self.new ≡ push_frame self.old place link (flight_with octets.now note)) }
        ensures err { OnErr result (self.new ≡ self.old) }
    {
        if usize::from(place) < self.routers.len() {
            let count = more(self.count, 1)?;
            let queues = &mut self.routers[usize::from(place)];
            let added = queues.push(usize::from(link), octets, note)?;
            if added {
                self.count = count;
            }
        }
        Ok(())
    }

    /// Appends frames to a direction, all with that note. If there is no such direction, nothing changes.
    pub fn push_all(
        &mut self,
        place: u16,
        link: u16,
        frames: &FrameList<u16>,
        note: Option<Note>,
    ) -> M<()>
        ensures ok { OnOk result (self.new ≡ push_frames self.old place link (map (flight_as note) frames.now)) }
        ensures err { OnErr result (self.new ≡ self.old) }
    {
        if usize::from(place) < self.routers.len() {
            let count = more(self.count, frames.len())?;
            let queues = &mut self.routers[usize::from(place)];
            let added = queues.push_all(usize::from(link), frames, note)?;
            if added {
                self.count = count;
            }
        }
        Ok(())
    }

    /// Removes the frame at an index of those in a direction. If there is no such frame, nothing changes.
    ///
    /// Inlined, since each frame that is delivered is removed, and the call would cost half as much as the removal.
    #[inline(always)]
    pub fn remove(&mut self, place: u16, link: u16, i: usize)
        ensures { self.new ≡ without_frame self.old place link i }
    {
        if usize::from(place) < self.routers.len() {
            let queues = &mut self.routers[usize::from(place)];
            let gone = queues.remove(usize::from(link), i);
            if gone {
                self.count -= 1;
            }
        }
    }

    /// Removes the frame that was appended last to a direction.
    pub fn pop(&mut self, place: u16, link: u16)
        ensures { (f : Flight) (before : List (List (List Flight))) → self.old ≡ push_frame before place link f → self.new ≡ before }
    {
        let count = self.len(place, link);
        if count > 0 {
            self.remove(place, link, count - 1);
        }
    }
}

/// Returns the number of frames increased by that many. An overflow is reported as out of memory.
fn more(count: usize, frames: usize) -> M<usize>
    ensures { IfOk result (λ sum. sum ≡ count + frames) }
{
    match count.checked_add(frames) {
        Some(sum) => Ok(sum),
        None => Err(Memory),
    }
}

/// Returns how many BFR-ids the frames of all routers carry.
fn ids_in(routers: &[Queues], confs: &[RouterConf]) -> M<u64>
    requires few { length confs.now ≤ MOST_ROUTERS }
    requires sound { AllByRecursion IsSound confs.now }
    ensures { IfOk result (λ count. count ≡ ids_carried_by confs.now routers.now) }
{
    let mut total = 0;
    for queues in routers {
        total = sum(total, queues.ids(confs)?)?;
    }
    Ok(total)
}
