// Bytes to state.
ghost use Rattle.std.specs.Prelude.{◌≡◌, true, List, ℕ, ◌+◌, ◌^◌, ◌≤◌, ◌<◌, length, drop, get_or, if◌then◌else◌};
ghost use Rattle.lists.specs.Lists.{all};
ghost use Rattle.fifo.specs.View.{fifo_of};
ghost use Rattle.queue.specs.View.{queue_of};
ghost use Rattle.state.specs.View.{state_of};
ghost use Rattle.form.specs.Numbers.{number_in};
ghost use Rattle.form.specs.Rows.{width, row_in, table_in, table_size, table_fits};
ghost use Rattle.form.specs.Places.{behind_or_beyond};
ghost use Rattle.form.specs.Form.{head_widths, entry_widths, entry_from, is_entry, bucket_widths, is_form, sizes_from, entries_in, buckets_in, state_in};

use crate::writing;
use fifo::Fifo;
use model::{Entry, Sizes};
use queue::Queue;
use state::State;

// A byte, 0 behind the last.
fn byte_at(bytes: &[u8], at: usize) -> u8
    ensures { result ≡ get_or bytes.now at 0 }
{
    if at < bytes.len() { bytes[at] } else { 0 }
}

// The number that so many bytes from `at` on say: one, two or eight, and those behind the last are 0, so that no array of them goes to `from_be_bytes`.
pub fn number_at(bytes: &[u8], at: usize, width: usize) -> u64
    requires { (at ≤ length bytes.now) × (width ≤ 8) }
    ensures { (result ≡ number_in width (drop at bytes.now)) × (result < 256 ^ width) }
{
    let mut number = 0;
    for i in 0..width {
        number = number * 256 + byte_at(bytes, at + i) as u64;
    }
    number
}

fn sizes_in(bytes: &[u8]) -> Sizes
    requires { width head_widths ≤ length bytes.now }
    ensures { result ≡ sizes_from (row_in head_widths bytes.now) }
{
    let s = number_at(bytes, 0, 2);
    let p = number_at(bytes, 2, 1);
    let c = number_at(bytes, 3, 2);
    let b = number_at(bytes, 5, 2);
    let r = number_at(bytes, 7, 1);
    let w = number_at(bytes, 8, 1);
    Sizes {
        s: s as usize,
        p: p as usize,
        c: c as usize,
        b: b as usize,
        r: r as usize,
        w: w as usize,
    }
}

// A byte that the write queue's entries alone have: 0 for one of the read queue.
fn extra_at(bytes: &[u8], at: usize, write: bool) -> u8
    ensures { result ≡ (if write then get_or bytes.now at 0 else 0) }
{
    if write { byte_at(bytes, at) } else { 0 }
}

fn entry_at(bytes: &[u8], at: usize, write: bool) -> Entry
    requires { at + width (entry_widths write) ≤ length bytes.now }
    ensures { result ≡ entry_from (row_in (entry_widths write) (drop at bytes.now)) }
{
    let back = number_at(bytes, at, 2);
    let cache = byte_at(bytes, at + 2);
    let priority = extra_at(bytes, at + 3, write);
    let mark = extra_at(bytes, at + 4, write);
    let blank = extra_at(bytes, at + 5, write);
    Entry {
        back: back as u16,
        cache,
        priority,
        blank,
        marked: mark == 1,
    }
}

// The queue whose form begins at `at`.
fn queue_at(bytes: &[u8], at: usize, write: bool) -> Queue
    requires { (at ≤ length bytes.now) × (table_fits 1 (entry_widths write) 64 (drop at bytes.now) ≡ true) }
    ensures { result ≡ queue_of (entries_in write (drop at bytes.now)) }
{
    let n = number_at(bytes, at, 1) as usize;
    let size = writing::entry_size(write);
    let mut queue = Queue::empty();
    for i in 0..n {
        queue = queue.push(entry_at(bytes, at + 1 + i * size, write));
    }
    queue.cleared()
}

// The queue of these buckets.
fn fifo_of(buckets: &[u8]) -> Fifo
    requires { length buckets.now ≤ 256 }
    ensures { result ≡ fifo_of buckets.now }
{
    let n = buckets.len();
    let mut items = [0; 256];
    items[..n].copy_from_slice(buckets);
    Fifo { items, len: n }
}

fn fifo_at(bytes: &[u8], at: usize) -> Fifo
    requires { (at ≤ length bytes.now) × (table_fits 2 bucket_widths 256 (drop at bytes.now) ≡ true) }
    ensures { result ≡ fifo_of (buckets_in (drop at bytes.now)) }
{
    let n = number_at(bytes, at, 2) as usize;
    let from = at + 2;
    fifo_of(&bytes[from..from + n])
}

// Whether a table stands from `at` on: a count of so many bytes, at most so high, and its rows of so many bytes each.
fn table_fits(bytes: &[u8], at: usize, count: usize, row: usize, most: usize) -> bool
    requires { (at ≤ length bytes.now) × (count ≤ 2) × (row ≤ 8) }
    ensures { (ws : List ℕ) → width ws ≡ row → result ≡ table_fits count ws most (drop at bytes.now) }
{
    let rows = number_at(bytes, at, count) as usize;
    (rows <= most) & (count + rows * row <= bytes.len() - at)
}

// The place behind it.
fn table_end(bytes: &[u8], at: usize, count: usize, row: usize) -> usize
    requires { (at ≤ length bytes.now) × (count ≤ 2) × (row ≤ 8) }
    ensures { (ws : List ℕ) → width ws ≡ row → result ≡ at + table_size count ws (drop at bytes.now) }
{
    let rows = number_at(bytes, at, count) as usize;
    at + count + rows * row
}

// The place behind it if it stands there whole, else one beyond the last byte; the place behind nothing is beyond too.
pub fn behind(bytes: &[u8], at: usize, count: usize, row: usize, most: usize) -> usize
    requires { (count ≤ 2) × (row ≤ 8) }
    ensures { (ws : List ℕ) → width ws ≡ row → result ≡ behind_or_beyond bytes.now count ws most at }
{
    if bytes.len() < at {
        return at;
    }
    if table_fits(bytes, at, count, row, most) {
        return table_end(bytes, at, count, row);
    }
    bytes.len() + 1
}

// Whether each mark of the write queue whose form begins at `at` is 0 or 1.
pub fn marks_fit(bytes: &[u8], at: usize) -> bool
    requires { at ≤ length bytes.now }
    ensures { result ≡ all is_entry (table_in 1 (entry_widths true) (drop at bytes.now)) }
{
    let n = number_at(bytes, at, 1) as usize;
    for i in 0..n {
        let mark = byte_at(bytes, at + 1 + i * crate::WRITE_ROW + 4);
        if 1 < mark {
            return false;
        }
    }
    true
}

pub fn state_in(bytes: &[u8]) -> State
    requires { is_form bytes.now ≡ true }
    ensures { result ≡ state_of (state_in bytes.now) }
{
    let writes_at = table_end(bytes, crate::HEAD, 1, crate::READ_ROW);
    let gc_at = table_end(bytes, writes_at, 1, crate::WRITE_ROW);
    let free_at = table_end(bytes, gc_at, 2, 1);
    let sizes = sizes_in(bytes);
    let reads = queue_at(bytes, crate::HEAD, false);
    let writes = queue_at(bytes, writes_at, true);
    let gc = fifo_at(bytes, gc_at);
    let free = fifo_at(bytes, free_at);
    State {
        reads,
        writes,
        gc,
        free,
        sizes,
        next: number_at(bytes, crate::EPOCH, 8),
        accepted: bytes[crate::COUNT],
        running: bytes[crate::RUNNING] == 1,
    }
}
