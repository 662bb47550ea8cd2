//! Hellos in flight: a queue for each interface of each router.
ghost use Rattle.std.specs.Prelude.{◌≡◌, ◌+◌, ◌∷◌, ◌++◌, [], nat_lt, length, map, slice_get, slice_index_or, slice_set, OnOk, OnErr, IfOk};
ghost use Rattle.std.specs.List.{remove};
ghost use Rattle.isis_hello.specs.Circuits.{hellos_at, push_hello, without_hello, hello_count, no_hellos};

use crate::hello::Hello;
use std::alloc::Global;
use std::collections::VecDeque;
use std::marker::Model;
use wire_base::{End, M, Memory, RouterConf};

/// The hellos in flight from one interface, the oldest first.
#[derive(Drop)]
struct Queue {
    hellos: VecDeque<Hello>,
}

impl Model for Queue {
    ghost use Rattle.std.specs.Prelude.{List};
    ghost use Rattle.isis_hello.specs.declared.hello.Hello.{Hello};

    ghost Value = { List Hello };

    ghost view = { λ q. q.hellos.items };
}

impl Queue {
    fn new(alloc: Global) -> Queue
        ensures { result ≡ [] }
    {
        Queue {
            hellos: VecDeque::new(alloc),
        }
    }

    fn len(&self) -> usize
        ensures { result ≡ length self.now }
    {
        self.hellos.len()
    }

    fn get(&self, i: usize) -> Option<Hello>
        ensures { result ≡ slice_get self.now i }
    {
        if i < self.len() {
            Some(self.hellos[i])
        } else {
            None
        }
    }

    fn push(&mut self, h: Hello) -> M<()>
        ensures ok { OnOk result (self.new ≡ self.old ++ h ∷ []) }
        ensures err { OnErr result (self.new ≡ self.old) }
    {
        self.hellos.push_back(h)?;
        Ok(())
    }

    /// Removes the hello at an index, and returns whether there was one.
    fn remove(&mut self, i: usize) -> bool
        ensures rest { self.new ≡ remove self.old i }
        ensures gone { result ≡ nat_lt i (length self.old) }
    {
        if i >= self.len() {
            return false;
        }
        if i == 0 {
            self.hellos.pop_front();
        } else {
            self.hellos.remove(i);
        }
        true
    }
}

/// The queues of one router, by interface.
#[derive(Drop)]
struct Queues {
    ends: Vec<Queue>,
}

impl Model for Queues {
    ghost use Rattle.std.specs.Prelude.{List};
    ghost use Rattle.isis_hello.specs.declared.hello.Hello.{Hello};

    ghost Value = { List (List Hello) };

    ghost view = { λ q. q.ends.items };
}

impl Queues {
    /// Returns an empty queue for each interface.
    fn new(alloc: Global, ends: &[End]) -> M<Queues>
        ensures { IfOk result (λ queues. queues ≡ map (λ e. []) ends.now) }
    {
        let mut queues = Vec::new(alloc);
        for _end in ends {
            queues.push(Queue::new(alloc))?;
        }
        Ok(Queues { ends: queues })
    }

    /// Returns how many hellos are in flight from an interface; 0 if there is no such interface.
    fn len(&self, link: usize) -> usize
        ensures { result ≡ length (slice_index_or self.now link []) }
    {
        if link < self.ends.len() {
            self.ends[link].len()
        } else {
            0
        }
    }

    fn get(&self, link: usize, i: usize) -> Option<Hello>
        ensures { result ≡ slice_get (slice_index_or self.now link []) i }
    {
        if link < self.ends.len() {
            let queue = &self.ends[link];
            queue.get(i)
        } else {
            None
        }
    }

    /// Appends a hello to those in flight from an interface, and returns whether there is such an interface.
    fn push(&mut self, link: usize, h: Hello) -> M<bool>
        ensures ok { OnOk result (self.new ≡ slice_set self.old link (slice_index_or self.old link [] ++ h ∷ [])) }
        ensures added { IfOk result (λ added. added ≡ nat_lt link (length self.old)) }
        ensures err { OnErr result (self.new ≡ self.old) }
    {
        if link < self.ends.len() {
            let queue = &mut self.ends[link];
            queue.push(h)?;
            return Ok(true);
        }
        Ok(false)
    }

    /// Removes the hello at an index of those from an interface, and returns whether there was one.
    fn remove(&mut self, link: usize, i: usize) -> bool
        ensures rest { self.new ≡ slice_set self.old link (remove (slice_index_or self.old link []) i) }
        ensures gone { result ≡ nat_lt i (length (slice_index_or self.old link [])) }
    {
        if link < self.ends.len() {
            let queue = &mut self.ends[link];
            queue.remove(i)
        } else {
            false
        }
    }
}

/// All hellos in flight. A direction of a link is named by the index of the router that sends there and its interface.
///
/// The number of hellos is stored, so that it is not counted on each call.
#[derive(Drop)]
pub(crate) struct Hellos {
    routers: Vec<Queues>,
    count: usize,
}

impl Model for Hellos {
    ghost use Rattle.std.specs.Prelude.{◌≡◌, List};
    ghost use Rattle.isis_hello.specs.declared.hello.Hello.{Hello};
    ghost use Rattle.isis_hello.specs.Circuits.{hello_count};

    ghost Value = { List (List (List Hello)) };

    ghost view = { λ f. f.routers.items };

    ghost invariant = { λ f. f.count ≡ hello_count f.routers.items };
}

impl Hellos {
    /// Returns the empty queues of a domain with those routers.
    pub(crate) fn new(alloc: Global, confs: &[RouterConf]) -> M<Hellos>
        ensures { IfOk result (λ hellos. hellos ≡ no_hellos confs.now) }
    {
        let mut routers = Vec::new(alloc);
        for conf in confs {
            routers.push(Queues::new(alloc, conf.ends.as_slice())?)?;
        }
        Ok(Hellos { routers, count: 0 })
    }

    /// Returns the total number of hellos.
    pub(crate) fn count(&self) -> usize
        ensures { result ≡ hello_count self.now }
    {
        self.count
    }

    /// Returns how many hellos are in flight in a direction; 0 if there is no such direction.
    pub(crate) fn len(&self, place: u16, link: u16) -> usize
        ensures { result ≡ length (hellos_at self.now place link) }
    {
        if usize::from(place) < self.routers.len() {
            self.routers[usize::from(place)].len(usize::from(link))
        } else {
            0
        }
    }

    /// Returns the hello at an index, from 0, of those in a direction.
    pub(crate) fn get(&self, place: u16, link: u16, i: u32) -> Option<Hello>
        ensures { result ≡ slice_get (hellos_at self.now place link) i }
    {
        if usize::from(place) < self.routers.len() {
            let queues = &self.routers[usize::from(place)];
            queues.get(usize::from(link), i as usize)
        } else {
            None
        }
    }

    /// Appends a hello to a direction. If there is no such direction, nothing changes.
    #[tactic(auto, unfolding(crate::specs::Circuits::hello_count))]
    pub(crate) fn push(&mut self, place: u16, link: u16, h: Hello) -> M<()>
        ensures ok { OnOk result (self.new ≡ push_hello self.old place link h) }
        ensures err { OnErr result (self.new ≡ self.old) }
    {
        if usize::from(place) < self.routers.len() {
            let count = one_more(self.count)?;
            let queues = &mut self.routers[usize::from(place)];
            let added = queues.push(usize::from(link), h)?;
            if added {
                self.count = count;
            }
        }
        Ok(())
    }

    /// Removes the hello at an index of those in a direction. If there is no such hello, nothing changes.
    #[tactic(auto, unfolding(crate::specs::Circuits::hello_count))]
    pub(crate) fn remove(&mut self, place: u16, link: u16, i: u32)
        ensures { self.new ≡ without_hello self.old place link i }
    {
        if usize::from(place) < self.routers.len() {
            let queues = &mut self.routers[usize::from(place)];
            let gone = queues.remove(usize::from(link), i as usize);
            if gone {
                self.count -= 1;
            }
        }
    }
}

/// Returns the number increased by one. An overflow is reported as out of memory.
fn one_more(count: usize) -> M<usize>
    ensures { IfOk result (λ sum. sum ≡ count + 1) }
{
    match count.checked_add(1) {
        Some(sum) => Ok(sum),
        None => Err(Memory),
    }
}
