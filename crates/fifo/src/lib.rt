// A queue of cache buckets, first in, first out, by value.
#![tactic(auto)]

ghost use Rattle.std.specs.Prelude.{◌≡◌, true, [], ◌∷◌, ◌++◌, ◌+◌, ◌≤◌, ◌<◌, length, drop, leb};
ghost use Rattle.std.proofs.Math.Seq.{paste};
ghost use Rattle.lists.specs.Lists.{below, head};
ghost use Rattle.lists.specs.Arrays.{joined, padded};
ghost use Rattle.fifo.specs.View.{list_of, fifo_of};

#[derive(Clone, Copy)]
pub struct Fifo {
    pub items: [u8; 256],
    pub len: usize,
}

impl Fifo {
    pub fn empty() -> Fifo
        ensures { result ≡ fifo_of [] }
    {
        Fifo {
            items: [0; 256],
            len: 0,
        }
    }

    // The buckets 0, 1, .. count - 1.
    pub fn rising(count: usize) -> Fifo
        requires { count ≤ 256 }
        ensures { list_of result ≡ below count }
    {
        let mut items = [0u8; 256];
        for bucket in 0..count {
            items[bucket] = bucket as u8;
        }
        Fifo { items, len: count }
    }

    // Whether the array has a place for each bucket that the length says.
    pub fn has_places(self) -> bool
        ensures value { result ≡ leb self.len 256 }
        ensures self_value { result ≡ true → padded self.len 0 (list_of self) ≡ list_of self }
    {
        self.len <= 256
    }

    // How many buckets stand in the array's places.
    pub fn used(self) -> usize
        ensures { (result ≡ length (list_of self)) × (result ≤ 256) }
    {
        self.len.min(256)
    }

    // One more at the back. A full queue stays as it is.
    pub fn push(mut self, c: u8) -> Self
        ensures { list_of result ≡ joined 256 (list_of self) (c ∷ []) }
    {
        if self.len < 256 {
            self.items[self.len] = c;
            self.len += 1;
        }
        self
    }

    // The first bucket, 0 where there is none.
    pub fn head(self) -> u8
        ensures { result ≡ head (list_of self) }
    {
        if self.len == 0 { 0 } else { self.items[0] }
    }

    // All but the first bucket. Moved within one array: two would be copied.
    pub fn rest(mut self) -> Self
        ensures { list_of result ≡ drop 1 (list_of self) }
    {
        let n = self.used();
        if n == 0 {
            return self;
        }
        self.items.copy_within(1..n, 0);
        self.len = n - 1;
        self
    }

    // The other queue's buckets behind these.
    pub fn append(mut self, other: Fifo) -> Self
        requires { length (list_of self) + length (list_of other) ≤ 256 }
        ensures { list_of result ≡ list_of self ++ list_of other }
    {
        let n = self.used();
        let m = other.used();
        self.items[n..n + m].copy_from_slice(&other.items[..m]);
        self.len = n + m;
        self
    }

    // The same queue with zeros in the unused places.
    pub fn cleared(mut self) -> Self
        ensures { result ≡ fifo_of (list_of self) }
    {
        let n = self.used();
        self.items[n..].fill(0);
        self.len = n;
        self
    }
}
