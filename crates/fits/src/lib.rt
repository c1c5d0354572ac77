// Number 5: whether a state fits the chip.
#![tactic(auto)]

ghost use Rattle.std.specs.Prelude.{◌≡◌, true, ◌*◌, ◌<◌, max, eqb};
ghost use Rattle.lists.specs.Lists.{all, max_below};
ghost use Rattle.model.specs.Sizes.{body};
ghost use Rattle.model.specs.Spare.{blank, kind};
ghost use Rattle.model.specs.Image.{bucket_fits, head_tag, epoch_of, body_fits};
ghost use Rattle.model.specs.Ledger.{entries_fit, well_formed};
ghost use Rattle.model.specs.State.{caches, queued, is_below, read_agrees, write_agrees, all_blank, mark_fits, top_epoch, state_fits};
ghost use Rattle.image.specs.Chip.{Chip, spare_only, Headed};
ghost use Rattle.fifo.specs.View.{list_of};
ghost use Rattle.queue.specs.View.{entries_of};
ghost use Rattle.state.specs.View.{places_of, view_of};
ghost use Rattle.fits.specs.Fits.{queues_fit, agrees, tags_agree, numbers_fit};

use model::{Entry, Sizes};
use state::State;

// A queue that is longer than its array is too long. All other tests look at what stands in the arrays' places. Number 4 goes before.
pub fn state_fits(s: State, spare: &[u8]) -> bool
    requires chip { Chip s.sizes spare.now }
    requires spare_value { well_formed s.sizes (spare_only spare.now) ≡ true }
    ensures value { result ≡ state_fits (view_of s) (spare_only spare.now) }
    ensures s_value { result ≡ true → view_of s ≡ places_of s }
{
    if s.has_places() {
        places_fit(s, spare)
    } else {
        false
    }
}

// A bucket's spare fields are read only once the queues are known to hold buckets of the chip alone.
fn places_fit(s: State, spare: &[u8]) -> bool
    requires chip { Chip s.sizes spare.now }
    requires spare_value { well_formed s.sizes (spare_only spare.now) ≡ true }
    ensures { result ≡ state_fits (places_of s) (spare_only spare.now) }
{
    // to hand on `s.sizes` itself would keep a copy of the whole state
    let z = s.sizes;
    if !once::buckets_once(s) {
        return false;
    }
    let queues = queues_fit(s);
    let tags = tags_agree(s, spare);
    let numbers = numbers_fit(s, spare);
    let marks = marks_fit(s.reads, s.writes);
    queues & tags & numbers & marks & ledger::one_in_use(z, spare)
}

fn queues_fit(s: State) -> bool
    ensures { result ≡ queues_fit (places_of s) }
{
    let reads = s.reads.used();
    let writes = s.writes.used();
    let distinct = s.reads.distinct();
    (reads <= s.sizes.r) & (writes <= s.sizes.w) & distinct & s.writes.distinct()
}

fn tags_agree(s: State, spare: &[u8]) -> bool
    requires chip { Chip s.sizes spare.now }
    requires spare_value { body_fits s.sizes (spare_only spare.now) ≡ true }
    requires s_value { all (is_below (body s.sizes)) (queued (places_of s)) ≡ true }
    ensures { result ≡ tags_agree (places_of s) (spare_only spare.now) }
{
    let z = s.sizes;
    let reads = queue_agrees(s.reads, false, z, spare);
    let writes = queue_agrees(s.writes, true, z, spare);
    let free = free_blank(s.free, z, spare);
    reads & writes & free
}

fn numbers_fit(s: State, spare: &[u8]) -> bool
    requires chip { Chip s.sizes spare.now }
    requires spare_value { well_formed s.sizes (spare_only spare.now) ≡ true }
    ensures { result ≡ numbers_fit (places_of s) (spare_only spare.now) }
{
    let top = top_epoch(s.sizes, spare);
    (s.accepted <= model::LAST_COUNT)
        & (1 <= s.next)
        & (top < s.next)
        & (s.next <= model::EPOCHS_END)
}

// No mark stands without a read bucket. Marks are few, so the read queue is searched for each.
fn marks_fit(reads: queue::Queue, writes: queue::Queue) -> bool
    ensures { result ≡ all (mark_fits (entries_of reads)) (entries_of writes) }
{
    for e in &writes.items[..writes.used()] {
        if e.marked {
            if !reads.holds(e.back) {
                return false;
            }
        }
    }
    true
}

// The largest epoch of a bucket outside the ledger, or 0.
fn body_top(z: Sizes, spare: &[u8]) -> u64
    requires chip { Chip z spare.now }
    requires headed { Headed z (spare_only spare.now) }
    ensures { result ≡ max_below (body z) (epoch_of z (spare_only spare.now)) }
{
    let mut top: u64 = 0;
    for c in 0..geometry::body(z) {
        if let Some(epoch) = rules::head_epoch(z, c, spare) {
            top = top.max(epoch as u64);
        }
    }
    top
}

// The largest epoch on the chip, the ledger's entries included, or 0. Recovery asks for it where buckets may have holes.
pub fn top_epoch(z: Sizes, spare: &[u8]) -> u64
    requires chip { Chip z spare.now }
    requires headed { Headed z (spare_only spare.now) }
    requires spare_value { entries_fit z (spare_only spare.now) ≡ true }
    ensures { result ≡ top_epoch z (spare_only spare.now) }
{
    let buckets = body_top(z, spare);
    let entries = ledger::top_entry(z, spare);
    buckets.max(entries)
}

// A complete copy has its first page as its head.
fn read_agrees(e: Entry, z: Sizes, spare: &[u8]) -> bool
    requires chip { Chip z spare.now }
    requires cache_lt_c { e.cache < z.c }
    requires cache_value { bucket_fits z (spare_only spare.now) e.cache ≡ true }
    ensures { result ≡ read_agrees z (spare_only spare.now) e }
{
    let c = e.cache as usize;
    let whole = image::complete(z, c, spare);
    whole & (spare::back_at(spare, c * z.p) == e.back)
}

// The head is looked for once: with that code more often the compiler does not take the loop over a queue into its caller, and copies the queue.
fn write_agrees(e: Entry, z: Sizes, spare: &[u8]) -> bool
    requires chip { Chip z spare.now }
    requires cache_lt_c { e.cache < z.c }
    requires cache_value { bucket_fits z (spare_only spare.now) e.cache ≡ true }
    ensures { result ≡ write_agrees z (spare_only spare.now) e }
{
    let c = e.cache as usize;
    let k = image::head(z, c, spare);
    let page = c * z.p + k;
    let write = spare::kind_at(spare, page) == model::WRITE_KIND;
    let back = spare::back_at(spare, page) == e.back;
    let count = image::has_blanks(z, c, e.blank as usize, spare);
    write & back & (e.priority as usize <= z.p) & count
}

fn entry_agrees(e: Entry, written: bool, z: Sizes, spare: &[u8]) -> bool
    requires chip { Chip z spare.now }
    requires cache_lt_c { e.cache < z.c }
    requires cache_value { bucket_fits z (spare_only spare.now) e.cache ≡ true }
    ensures { result ≡ agrees z (spare_only spare.now) written e }
{
    if written {
        write_agrees(e, z, spare)
    } else {
        read_agrees(e, z, spare)
    }
}

// All entries of the write queue, or of the read queue.
fn queue_agrees(queue: queue::Queue, written: bool, z: Sizes, spare: &[u8]) -> bool
    requires chip { Chip z spare.now }
    requires spare_value { body_fits z (spare_only spare.now) ≡ true }
    requires queue_value { all (is_below (body z)) (caches (entries_of queue)) ≡ true }
    ensures { result ≡ all (agrees z (spare_only spare.now) written) (entries_of queue) }
{
    let mut agree = true;
    for e in &queue.items[..queue.used()] {
        agree &= entry_agrees(*e, written, z, spare);
    }
    agree
}

// A bucket made by the page rules has blank pages alone if its first is blank. That one has no kind then.
fn all_blank(z: Sizes, c: usize, spare: &[u8]) -> bool
    requires chip { Chip z spare.now }
    requires spare_value { body_fits z (spare_only spare.now) ≡ true }
    requires c_bound { c < body z }
    ensures { result ≡ all_blank z (spare_only spare.now) c }
{
    spare::kind_at(spare, c * z.p) == spare::NO_KIND
}

fn free_blank(free: fifo::Fifo, z: Sizes, spare: &[u8]) -> bool
    requires chip { Chip z spare.now }
    requires spare_value { body_fits z (spare_only spare.now) ≡ true }
    requires free_value { all (is_below (body z)) (list_of free) ≡ true }
    ensures { result ≡ all (all_blank z (spare_only spare.now)) (list_of free) }
{
    let mut blank = true;
    for c in &free.items[..free.used()] {
        blank &= all_blank(z, *c as usize, spare);
    }
    blank
}
