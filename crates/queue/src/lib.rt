// A queue of back-end buckets with their cache buckets, by value.
#![tactic(auto)]

ghost use Rattle.std.specs.Prelude.{◌≡◌, true, [], ◌∷◌, map, ◌+◌, ◌≤◌, ◌<◌, length, take, drop, get_or, leb};
ghost use Rattle.lists.specs.Lists.{distinct};
ghost use Rattle.lists.specs.Arrays.{joined, padded};
ghost use Rattle.fifo.specs.View.{list_of};
ghost use Rattle.model.specs.declared.Entry.{Entry};
ghost use Rattle.model.specs.State.{entry, holds, cache_of, blank_of, is_marked, remarked, without, caches, backs};
ghost use Rattle.model.specs.Operations.{halved, prioritised};
ghost use Rattle.queue.specs.View.{entries_of, no_entry, queue_of, found};

use model::Entry;

// A type beside `Fifo`: a crate gives no methods to another's generic type, and a struct around one would only pass calls on.
#[derive(Clone, Copy)]
pub struct Queue {
    pub items: [Entry; 64],
    pub len: usize,
}

// A new record of a bucket with so many blank pages, which are its priority; without a mark.
pub fn entry(back: u16, cache: u8, blank: u8) -> Entry
    ensures { result ≡ entry back cache blank }
{
    Entry {
        back,
        cache,
        priority: blank,
        blank,
        marked: false,
    }
}

impl Queue {
    pub fn empty() -> Queue
        ensures { result ≡ queue_of [] }
    {
        let none = entry(0, 0, 0);
        Queue {
            items: [none; 64],
            len: 0,
        }
    }

    // Whether the array has a place for each entry that the length says.
    pub fn has_places(self) -> bool
        ensures value { result ≡ leb self.len 64 }
        ensures self_value { result ≡ true → padded self.len no_entry (entries_of self) ≡ entries_of self }
    {
        self.len <= 64
    }

    // How many entries stand in the array's places.
    pub fn used(self) -> usize
        ensures { (result ≡ length (entries_of self)) × (result ≤ 64) }
    {
        self.len.min(64)
    }

    // One more at the back. A full queue stays as it is.
    pub fn push(mut self, e: Entry) -> Self
        ensures { entries_of result ≡ joined 64 (entries_of self) (e ∷ []) }
    {
        if self.len < 64 {
            self.items[self.len] = e;
            self.len += 1;
        }
        self
    }

    // The first entry, zeros where there is none.
    pub fn first(self) -> Entry
        ensures { result ≡ get_or (entries_of self) 0 no_entry }
    {
        if self.len == 0 {
            entry(0, 0, 0)
        } else {
            self.items[0]
        }
    }

    // All but the first entry. Moved within one array: two would be copied.
    pub fn rest(mut self) -> Self
        ensures { entries_of result ≡ drop 1 (entries_of self) }
    {
        let n = self.used();
        if n == 0 {
            return self;
        }
        self.items.copy_within(1..n, 0);
        self.len = n - 1;
        self
    }

    // The same queue with zeros in the unused places.
    pub fn cleared(mut self) -> Self
        ensures { result ≡ queue_of (entries_of self) }
    {
        let n = self.used();
        self.items[n..].fill(entry(0, 0, 0));
        self.len = n;
        self
    }

    // Whether the back-end bucket b is in the queue.
    pub fn holds(self, b: u16) -> bool
        ensures { result ≡ holds b (entries_of self) }
    {
        self.find(b).is_some()
    }

    // Its record there.
    pub fn find(self, b: u16) -> Option<Entry>
        ensures { result ≡ found b (entries_of self) }
    {
        let n = self.used();
        find_in(&self.items[..n], b)
    }

    // Whether its logs are all in the read bucket.
    pub fn is_marked(self, b: u16) -> bool
        ensures { result ≡ is_marked b (entries_of self) }
    {
        match self.find(b) {
            Some(e) => e.marked,
            None => false,
        }
    }

    // All entries but those of b. Written within one array, too.
    pub fn without(mut self, b: u16) -> Self
        ensures { entries_of result ≡ without b (entries_of self) }
    {
        let n = self.used();
        let mut kept = 0;
        for i in 0..n {
            let e = self.items[i];
            if e.back != b {
                self.items[kept] = e;
                kept += 1;
            }
        }
        self.len = kept;
        self
    }

    // b's record after a log that leaves so many blank pages and clears the mark.
    pub fn prioritise(self, b: u16, blank: u8) -> Self
        ensures { entries_of result ≡ map (prioritised b blank) (entries_of self) }
    {
        self.changed(|e| set_at(e, b, blank))
    }

    // The mark t at b.
    pub fn mark(self, b: u16, t: bool) -> Self
        ensures { entries_of result ≡ map (remarked b t) (entries_of self) }
    {
        self.changed(|e| mark_at(e, b, t))
    }

    // All priorities halved.
    pub fn halve(self) -> Self
        ensures { entries_of result ≡ map halved (entries_of self) }
    {
        self.changed(halve_at)
    }

    // Each entry as f changes it.
    fn changed<F: Fn(Entry) -> Entry>(mut self, f: F) -> Self
        requires { F.IsAlwaysCallable f }
        ensures { (g : Entry → Entry) → ((e r : Entry) → F.post f e r → r ≡ g e) → entries_of result ≡ map g (entries_of self) }
    {
        let n = self.used();
        for i in 0..n {
            self.items[i] = f(self.items[i]);
        }
        self.len = n;
        self
    }

    // The cache buckets in the queue's order.
    pub fn caches(self) -> fifo::Fifo
        ensures { list_of result ≡ caches (entries_of self) }
    {
        let n = self.used();
        let mut items = [0; 256];
        for i in 0..n {
            items[i] = self.items[i].cache;
        }
        fifo::Fifo { items, len: n }
    }

    // No back-end bucket stands twice.
    pub fn distinct(self) -> bool
        ensures { result ≡ distinct (backs (entries_of self)) }
    {
        let n = self.used();
        let entries = &self.items[..n];
        for (i, e) in entries.iter().enumerate() {
            if find_in(&entries[i + 1..], e.back).is_some() {
                return false;
            }
        }
        true
    }
}

// The first of the entries that is b's.
fn find_in(entries: &[Entry], b: u16) -> Option<Entry>
    ensures { result ≡ found b entries.now }
{
    entries.iter().copied().find(|e| e.back == b)
}

// The entry with so many blank pages and no mark, if it is b's.
fn set_at(mut e: Entry, b: u16, blank: u8) -> Entry
    ensures { result ≡ prioritised b blank e }
{
    if e.back == b {
        e.priority = blank;
        e.blank = blank;
        e.marked = false;
    }
    e
}

// The entry with the mark t, if it is b's.
fn mark_at(mut e: Entry, b: u16, t: bool) -> Entry
    ensures { result ≡ remarked b t e }
{
    if e.back == b {
        e.marked = t;
    }
    e
}

// The kept count is not halved.
fn halve_at(mut e: Entry) -> Entry
    ensures { result ≡ halved e }
{
    e.priority /= 2;
    e
}
