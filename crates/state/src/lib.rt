// The engine's state by value, and its moves.
#![tactic(auto)]

ghost use Rattle.std.specs.Prelude.{◌≡◌, true, [], ◌++◌, map, ◌+◌, ◌≤◌, length, leb, if◌then◌else◌};
ghost use Rattle.lists.specs.Arrays.{joined};
ghost use Rattle.model.specs.Sizes.{Device};
ghost use Rattle.model.specs.State.{unformatted, moved, entry, caches_of, without};
ghost use Rattle.model.specs.Steps.{freed, make_room, taken, drop_write, take_copy};
ghost use Rattle.model.specs.Operations.{halved, counted, accept, take_write, touch, set_mark, without_oldest};
ghost use Rattle.fifo.specs.View.{list_of};
ghost use Rattle.queue.specs.View.{entries_of};
ghost use Rattle.state.specs.View.{places_of, has_places, view_of, state_of, halted, Bounded};

use fifo::Fifo;
use model::Sizes;
use queue::Queue;

// The queues stand first and the single bytes last: a copy of the state is then made of aligned parts.
#[derive(Clone, Copy)]
pub struct State {
    pub reads: Queue,
    pub writes: Queue,
    pub gc: Fifo,
    pub free: Fifo,
    pub sizes: Sizes,
    pub next: u64,
    pub accepted: u8,
    pub running: bool,
}

impl State {
    // A state that was never formatted: format or recover makes one that runs.
    pub fn unformatted() -> State
        ensures { result ≡ state_of unformatted }
    {
        let none = Sizes {
            s: 0,
            p: 0,
            c: 0,
            b: 0,
            r: 0,
            w: 0,
        };
        State {
            reads: Queue::empty(),
            writes: Queue::empty(),
            gc: Fifo::empty(),
            free: Fifo::empty(),
            sizes: none,
            next: 0,
            accepted: 0,
            running: false,
        }
    }

    // Whether each queue's array has a place for all that its length says.
    pub fn has_places(self) -> bool
        ensures value { result ≡ has_places self }
        ensures self_value { result ≡ true → view_of self ≡ places_of self }
    {
        let reads = self.reads.has_places();
        let writes = self.writes.has_places();
        let gc = self.gc.has_places();
        reads & writes & gc & self.free.has_places()
    }

    // The same state with zeros in the unused places of its queues.
    pub fn cleared(mut self) -> Self
        ensures { result ≡ state_of (places_of self) }
    {
        let reads = self.reads.cleared();
        let writes = self.writes.cleared();
        let gc = self.gc.cleared();
        let free = self.free.cleared();
        self.reads = reads;
        self.writes = writes;
        self.gc = gc;
        self.free = free;
        self
    }

    // The same state, not running.
    pub fn stop(mut self) -> Self
        ensures { result ≡ halted self }
    {
        self.running = false;
        self
    }

    // The GC head, once erased, is last in the free queue.
    pub fn freed(mut self) -> Self
        requires { Bounded (freed (places_of self)) }
        ensures { places_of result ≡ freed (places_of self) }
    {
        let head = self.gc.head();
        let gc = self.gc.rest();
        let free = self.free.push(head);
        self.gc = gc;
        self.free = free;
        self
    }

    // Allocate's room: with an empty free queue, the GC head joins it.
    pub fn roomed(self) -> Self
        requires { Bounded (places_of self) }
        ensures { (d : Device) → places_of result ≡ (make_room self.sizes (places_of self) d).state }
    {
        if self.free.used() == 0 {
            if self.gc.used() != 0 {
                return self.freed();
            }
        }
        self
    }

    // The free head is taken, and the next epoch with it.
    pub fn taken(mut self) -> Self
        requires { Bounded (taken (places_of self)) }
        ensures { places_of result ≡ taken (places_of self) }
    {
        let free = self.free.rest();
        self.free = free;
        self.next = self.next + 1;
        self
    }

    // b's Write bucket joins GC.
    pub fn drop_write(mut self, b: u16) -> Self
        requires { Bounded (drop_write b (places_of self)) }
        ensures { places_of result ≡ drop_write b (places_of self) }
    {
        let gc = with_cache(self.gc, self.writes, b);
        let writes = self.writes.without(b);
        self.writes = writes;
        self.gc = gc;
        self
    }

    // The free head becomes b's read bucket, the most recent; the old one joins GC.
    pub fn take_copy(mut self, b: u16) -> Self
        requires { Bounded (take_copy b (places_of self)) }
        ensures { places_of result ≡ take_copy b (places_of self) }
    {
        let copy = queue::entry(b, self.free.head(), 0);
        let gc = with_cache(self.gc, self.reads, b);
        let others = self.reads.without(b);
        let reads = others.push(copy);
        self.reads = reads;
        self.gc = gc;
        self.taken()
    }

    // The free head becomes b's Write bucket, last in the queue.
    pub fn take_write(mut self, b: u16) -> Self
        requires { Bounded (take_write b (places_of self)) }
        ensures { places_of result ≡ take_write b (places_of self) }
    {
        let arrival = queue::entry(b, self.free.head(), 0);
        let writes = self.writes.push(arrival);
        self.writes = writes;
        self.taken()
    }

    // b's read bucket becomes the most recent.
    pub fn touch(mut self, b: u16) -> Self
        ensures { places_of result ≡ touch b (places_of self) }
    {
        let reads = most_recent(self.reads, b);
        self.reads = reads;
        self
    }

    // b's logs are all in its read bucket.
    pub fn set_mark(mut self, b: u16) -> Self
        ensures { places_of result ≡ set_mark b (places_of self) }
    {
        let writes = self.writes.mark(b, true);
        self.writes = writes;
        self
    }

    // The least recent read bucket joins GC, and its back-end bucket loses the mark.
    pub fn drop_oldest(mut self) -> Self
        requires { Bounded (without_oldest (places_of self)) }
        ensures { places_of result ≡ without_oldest (places_of self) }
    {
        let oldest = self.reads.first();
        let reads = self.reads.rest();
        let writes = self.writes.mark(oldest.back, false);
        let gc = self.gc.push(oldest.cache);
        self.reads = reads;
        self.writes = writes;
        self.gc = gc;
        self
    }

    // A drain leaves the clean copies; what was drained joins GC.
    pub fn drained(mut self, clean: Queue, joining: Fifo) -> Self
        requires { length (list_of self.gc) + length (list_of joining) ≤ 256 }
        ensures { places_of result ≡ moved (places_of self) (entries_of clean) [] (list_of self.gc ++ list_of joining) (list_of self.free) }
    {
        let gc = self.gc.append(joining);
        let writes = Queue::empty();
        self.reads = clean;
        self.writes = writes;
        self.gc = gc;
        self
    }

    // A write is accepted; every 16th halves all priorities.
    pub fn counted(mut self) -> Self
        ensures { places_of result ≡ counted (places_of self) }
    {
        let writes = halved_when_due(self.writes, self.accepted);
        let accepted = next_count(self.accepted);
        self.writes = writes;
        self.accepted = accepted;
        self
    }

    // A write of b is accepted, which leaves it so many blank pages.
    pub fn accept(mut self, b: u16, blank: u8) -> Self
        ensures { places_of result ≡ accept b blank (places_of self) }
    {
        let writes = self.writes.prioritise(b, blank);
        self.writes = writes;
        self.counted()
    }
}

// The priorities as the write after so many leaves them. The choice is between queues: one between states would copy them whole.
fn halved_when_due(queue: Queue, accepted: u8) -> Queue
    ensures { entries_of result ≡ (if leb 15 accepted then map halved (entries_of queue) else entries_of queue) }
{
    if model::LAST_COUNT <= accepted {
        return queue.halve();
    }
    queue
}

fn next_count(accepted: u8) -> u8
    ensures { result ≡ (if leb 15 accepted then 0 else accepted + 1) }
{
    if model::LAST_COUNT <= accepted {
        0
    } else {
        accepted + 1
    }
}

// The GC queue with b's cache bucket behind it, if the other queue holds b.
fn with_cache(gc: Fifo, queue: Queue, b: u16) -> Fifo
    ensures { list_of result ≡ joined 256 (list_of gc) (caches_of b (entries_of queue)) }
{
    match queue.find(b) {
        Some(own) => gc.push(own.cache),
        None => gc,
    }
}

// The queue with b's entry, if there is one, moved to the back.
fn most_recent(queue: Queue, b: u16) -> Queue
    ensures { entries_of result ≡ without b (entries_of queue) ++ map (λ c. entry b c 0) (caches_of b (entries_of queue)) }
{
    match queue.find(b) {
        Some(own) => queue.without(b).push(queue::entry(b, own.cache, 0)),
        None => queue,
    }
}
