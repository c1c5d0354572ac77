// State to bytes.
ghost use Rattle.std.specs.Prelude.{◌≡◌, true, map, ◌+◌, ◌≤◌, length, take};
ghost use Rattle.lists.specs.Lists.{splice, all, concat_map};
ghost use Rattle.fifo.specs.View.{list_of};
ghost use Rattle.queue.specs.View.{entries_of};
ghost use Rattle.state.specs.View.{places_of, view_of};
ghost use Rattle.form.specs.Numbers.{number_bytes};
ghost use Rattle.form.specs.Rows.{width, row_bytes, row_fits};
ghost use Rattle.form.specs.Form.{size_widths, size_numbers, mark, head_widths, head_numbers, entry_widths, entry_numbers, is_plain, entries_form, buckets_form, form_of, has_form};

use fifo::Fifo;
use model::{Entry, Sizes};
use queue::Queue;
use state::State;

// The number in so many bytes from `at` on, the last of them first.
fn put_number(out: &mut [u8], at: usize, width: usize, number: u64)
    requires { at + width ≤ length out.old }
    ensures { out.new ≡ splice out.old at (number_bytes width number) }
{
    let mut rest = number;
    for i in (0..width).rev() {
        out[at + i] = (rest % 256) as u8;
        rest = rest / 256;
    }
}

fn put_sizes(out: &mut [u8], z: Sizes)
    requires { width size_widths ≤ length out.old }
    ensures { out.new ≡ splice out.old 0 (row_bytes size_widths (size_numbers z)) }
{
    put_number(out, 0, 2, z.s as u64);
    put_number(out, 2, 1, z.p as u64);
    put_number(out, 3, 2, z.c as u64);
    put_number(out, 5, 2, z.b as u64);
    put_number(out, 7, 1, z.r as u64);
    put_number(out, 8, 1, z.w as u64);
}

fn mark(on: bool) -> u64
    ensures { result ≡ mark on }
{
    if on { 1 } else { 0 }
}

fn put_head(out: &mut [u8], s: State)
    requires { width head_widths ≤ length out.old }
    ensures { out.new ≡ splice out.old 0 (row_bytes head_widths (head_numbers (places_of s))) }
{
    put_sizes(out, s.sizes);
    put_number(out, crate::RUNNING, 1, mark(s.running));
    put_number(out, crate::COUNT, 1, s.accepted as u64);
    put_number(out, crate::EPOCH, 8, s.next);
}

// The bytes of an entry. Which queue it is of is a bool here and in all that reads and writes it, as in the definitions of specs/Form that these meet:
// `entry_widths`, `entry_numbers`, `entries_form`, `entries_in`.
pub fn entry_size(write: bool) -> usize
    ensures { result ≡ width (entry_widths write) }
{
    if write {
        crate::WRITE_ROW
    } else {
        crate::READ_ROW
    }
}

fn put_entry(out: &mut [u8], at: usize, e: Entry, write: bool)
    requires { at + width (entry_widths write) ≤ length out.old }
    ensures { out.new ≡ splice out.old at (row_bytes (entry_widths write) (entry_numbers write e)) }
{
    put_number(out, at, 2, e.back as u64);
    put_number(out, at + 2, 1, e.cache as u64);
    if write {
        put_number(out, at + 3, 1, e.priority as u64);
        put_number(out, at + 4, 1, mark(e.marked));
        put_number(out, at + 5, 1, e.blank as u64);
    }
}

// The entries from `at` on; the place behind them.
fn put_entries(out: &mut [u8], at: usize, entries: &[Entry], write: bool) -> usize
    requires { at + length (concat_map (row_bytes (entry_widths write)) (map (entry_numbers write) entries.now)) ≤ length out.old }
    ensures end { result ≡ at + length (concat_map (row_bytes (entry_widths write)) (map (entry_numbers write) entries.now)) }
    ensures written { out.new ≡ splice out.old at (concat_map (row_bytes (entry_widths write)) (map (entry_numbers write) entries.now)) }
{
    let size = entry_size(write);
    let mut end = at;
    for e in entries {
        put_entry(out, end, *e, write);
        end += size;
    }
    end
}

// The queue's form from `at` on: the count, then the entries; the place behind it.
fn put_queue(out: &mut [u8], at: usize, queue: Queue, write: bool) -> usize
    requires { at + length (entries_form write (entries_of queue)) ≤ length out.old }
    ensures { (result ≡ at + length (entries_form write (entries_of queue))) × (out.new ≡ splice out.old at (entries_form write (entries_of queue))) }
{
    let n = queue.used();
    put_number(out, at, 1, n as u64);
    put_entries(out, at + 1, &queue.items[..n], write)
}

fn put_buckets(out: &mut [u8], at: usize, buckets: &[u8]) -> usize
    requires { at + length (buckets_form buckets.now) ≤ length out.old }
    ensures { (result ≡ at + length (buckets_form buckets.now)) × (out.new ≡ splice out.old at (buckets_form buckets.now)) }
{
    put_number(out, at, 2, buckets.len() as u64);
    area::write_at(out, at + 2, buckets);
    at + 2 + buckets.len()
}

fn put_fifo(out: &mut [u8], at: usize, queue: Fifo) -> usize
    requires { at + length (buckets_form (list_of queue)) ≤ length out.old }
    ensures { (result ≡ at + length (buckets_form (list_of queue))) × (out.new ≡ splice out.old at (buckets_form (list_of queue))) }
{
    let n = queue.used();
    put_buckets(out, at, &queue.items[..n])
}

// How long the state's form is.
pub fn form_size(s: State) -> usize
    ensures { result ≡ length (form_of (places_of s)) }
{
    let reads = s.reads.used() * crate::READ_ROW;
    let writes = s.writes.used() * crate::WRITE_ROW;
    25 + reads + writes + s.gc.used() + s.free.used()
}

pub fn put_state(s: State, out: &mut [u8])
    requires { length (form_of (places_of s)) ≤ length out.old }
    ensures { out.new ≡ splice out.old 0 (form_of (places_of s)) }
{
    put_head(out, s);
    let writes = put_queue(out, crate::HEAD, s.reads, false);
    let gc = put_queue(out, writes, s.writes, true);
    let free = put_fifo(out, gc, s.gc);
    put_fifo(out, free, s.free);
}

fn sizes_fit(z: Sizes) -> bool
    ensures { result ≡ row_fits size_widths (size_numbers z) }
{
    let chip = (z.s < 65536) & (z.p < 256) & (z.c < 65536);
    chip & (z.b < 65536) & (z.r < 256) & (z.w < 256)
}

// Whether a read queue's row says all of the entry.
fn is_plain(e: Entry) -> bool
    ensures { result ≡ is_plain e }
{
    (e.priority == 0) & (e.blank == 0) & !e.marked
}

// A loop, since `all` of specs is a recursion over the list, and what an iterator's `all` promises is said by index.
fn all_plain(entries: &[Entry]) -> bool
    ensures { result ≡ all is_plain entries.now }
{
    for e in entries {
        if !is_plain(*e) {
            return false;
        }
    }
    true
}

pub fn has_form(s: State) -> bool
    ensures value { result ≡ has_form (view_of s) }
    ensures s_value { result ≡ true → view_of s ≡ places_of s }
{
    if !s.has_places() {
        return false;
    }
    let n = s.reads.used();
    sizes_fit(s.sizes) & all_plain(&s.reads.items[..n])
}
