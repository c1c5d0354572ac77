// Read.
#![tactic(auto)]

ghost use Rattle.std.specs.Prelude.{◌≡◌, false, ◌||◌, ◌+◌, ◌*◌, ◌≤◌, length, if◌then◌else◌};
ghost use Rattle.lists.specs.Lists.{part};
ghost use Rattle.model.specs.Sizes.{bucket_size};
ghost use Rattle.model.specs.Spare.{read_kind, dirty_kind};
ghost use Rattle.model.specs.Stores.{bucket_bytes};
ghost use Rattle.model.specs.State.{holds, cache_of};
ghost use Rattle.model.specs.Steps.{nothing, merged};
ghost use Rattle.model.specs.Operations.{last_epoch, touch, is_current, make_place, read_copy, read};
ghost use Rattle.model.specs.Calls.{read_call, carry_out, call};
ghost use Rattle.model.proofs.Limits.{Limits};
ghost use Rattle.geometry.specs.Geometry.{device, Lent};
ghost use Rattle.meter.specs.Lent.{run_of, LentTo, Stays};
ghost use Rattle.queue.specs.View.{entries_of};
ghost use Rattle.state.specs.View.{places_of, view_of};
ghost use Rattle.gather.specs.Sources.{Sources};
ghost use Rattle.steps.specs.Turns.{reached, after};
ghost use Rattle.copying.specs.Fresh.{Single};
ghost use Rattle.outcome.specs.Handed.{handed_back, handed};
ghost use Rattle.oldest.specs.Drops.{Drops};
ghost use Rattle.read.specs.Reads.{Reads, copy_handed};

use meter::{Meter, Run};
use model::{Answer, Sizes};
use outcome::Outcome;
use state::State;

// Nothing is stored: the bytes asked for are gathered in the buffer itself.
fn answer(
    s: State,
    new: State,
    b: u16,
    offset: usize,
    buffer: &mut [u8],
    allowance: usize,
    flash: &[u8],
    spare: &[u8],
    disk: &[u8],
) -> Outcome
    requires sources { Sources (places_of s) b flash.now spare.now disk.now }
    requires buffer_bound { offset + length buffer.old ≤ bucket_size s.sizes }
    ensures { handed_back (device flash.now spare.now disk.now) buffer.new result ≡ handed s (carry_out allowance (read_call b offset buffer.old) (places_of s) (device flash.now spare.now disk.now) (nothing (places_of new) (device flash.now spare.now disk.now))) }
{
    gather::merged_range(s, b, offset, flash, spare, disk, buffer);
    let whole = Meter::whole(allowance);
    outcome::finish(whole, allowance, Answer::Done, s, new)
}

// Read on a write miss, else Dirty.
fn copy_kind(s: State, b: u16) -> u8
    ensures { result ≡ (if holds b (entries_of s.writes) then dirty_kind else read_kind) }
{
    if s.writes.holds(b) {
        model::DIRTY_KIND
    } else {
        model::READ_KIND
    }
}

// Unless b has a read bucket, whose place the copy takes, the least recent one gives way.
fn make_place(run: &mut Run<'_>, s: State, b: u16) -> State
    requires lent { LentTo s.sizes run.old }
    requires drops { Drops (places_of s) }
    ensures after { reached run.new result ≡ after s.sizes (make_place s.sizes b) (places_of s) (run_of run.old) }
    ensures stays { Stays s.sizes run.old run.new }
{
    if s.reads.holds(b) {
        return s;
    }
    oldest::drop_oldest(run, s)
}

// The bytes of b are programmed as its read bucket; its logs, if it has any, are all in it then.
fn make_copy(run: &mut Run<'_>, s: State, b: u16) -> State
    requires sources { Sources (places_of s) b run.old.flash.now run.old.spare.now run.old.disk.now }
    requires drops { Drops (places_of s) × Single (places_of s) × (s.next ≤ last_epoch) }
    ensures after { reached run.new result ≡ after s.sizes (read_copy s.sizes b (merged s.sizes (places_of s) (run_of run.old).device b)) (places_of s) (run_of run.old) }
    ensures stays { Stays s.sizes run.old run.new }
    ensures state_after { run.new.meter.cut ≡ false → bucket_bytes s.sizes (run_of run.new).device (cache_of b (places_of result).reads) ≡ merged s.sizes (places_of s) (run_of run.old).device b }
{
    let kind = copy_kind(s, b);
    let placed = make_place(run, s, b);
    let made = copying::copy(run, placed, kind, b);
    made.set_mark(b)
}

// The bytes asked for, from the copy just made, unless the read was cut.
fn show(cut: bool, z: Sizes, c: usize, offset: usize, flash: &[u8], buffer: &mut [u8])
    requires limits { Limits z × (offset + length buffer.old ≤ bucket_size z) }
    requires z_in_bounds { cut ≡ false → c * bucket_size z + bucket_size z ≤ length flash.now }
    ensures { buffer.new ≡ (if cut then buffer.old else part (part flash.now (c * bucket_size z) (bucket_size z)) offset (length buffer.old)) }
{
    if cut {
        return;
    }
    gather::piece_range(flash, z.p * z.s, c, offset, buffer);
}

// The copy is made first: the buffer shows its bytes.
fn copy_read(
    s: State,
    b: u16,
    offset: usize,
    buffer: &mut [u8],
    allowance: usize,
    flash: &mut [u8],
    spare: &mut [u8],
    disk: &mut [u8],
) -> Outcome
    requires lent { Lent s.sizes flash.old spare.old disk.old }
    requires reads { Reads (places_of s) b offset (length buffer.old) spare.old }
    requires next_le_last_epoch { s.next ≤ last_epoch }
    ensures { handed_back (device flash.new spare.new disk.new) buffer.new result ≡ copy_handed allowance s b offset buffer.old (device flash.old spare.old disk.old) }
{
    let mut run = Run {
        flash,
        spare,
        disk,
        meter: Meter::whole(allowance),
    };
    let state = make_copy(&mut run, s, b);
    let copy = state.reads.find(b).unwrap();
    show(
        run.meter.cut,
        s.sizes,
        copy.cache as usize,
        offset,
        run.flash(),
        buffer,
    );
    outcome::finish(run.meter, allowance, Answer::Done, s, state)
}

// With fewer than two epochs left, or with a read bucket that has all logs.
fn stores_nothing(s: State, last: bool, b: u16) -> bool
    ensures { result ≡ (last || is_current b (places_of s)) }
{
    let logged = match s.writes.find(b) {
        Some(own) => own.marked,
        None => true,
    };
    last | (s.reads.holds(b) & logged)
}

// A read without a store touches the read bucket; with fewer than two epochs left it moves nothing either.
fn touched(s: State, last: bool, b: u16) -> State
    ensures { places_of result ≡ (if last then places_of s else touch b (places_of s)) }
{
    if last {
        return s;
    }
    s.touch(b)
}

// Past the last epoch fewer than two are left.
fn read_bucket(
    s: State,
    b: u16,
    offset: usize,
    buffer: &mut [u8],
    allowance: usize,
    flash: &mut [u8],
    spare: &mut [u8],
    disk: &mut [u8],
) -> Outcome
    requires lent { Lent s.sizes flash.old spare.old disk.old }
    requires reads { Reads (places_of s) b offset (length buffer.old) spare.old }
    ensures { handed_back (device flash.new spare.new disk.new) buffer.new result ≡ handed s (carry_out allowance (read_call b offset buffer.old) (places_of s) (device flash.old spare.old disk.old) (read s.sizes b (places_of s) (device flash.old spare.old disk.old))) }
{
    let last = model::LAST_EPOCH < s.next;
    if stores_nothing(s, last, b) {
        let new = touched(s, last, b);
        return answer(s, new, b, offset, buffer, allowance, flash, spare, disk);
    }
    copy_read(s, b, offset, buffer, allowance, flash, spare, disk)
}

// The entry.
pub fn read(
    s: State,
    b: u16,
    offset: usize,
    buffer: &mut [u8],
    allowance: usize,
    flash: &mut [u8],
    spare: &mut [u8],
    disk: &mut [u8],
) -> Outcome
    ensures { handed_back (device flash.new spare.new disk.new) buffer.new result ≡ handed s (call allowance (read_call b offset buffer.old) (view_of s) (device flash.old spare.old disk.old)) }
{
    match checks::check_read(s, b, offset, buffer.len(), flash, spare, disk) {
        Ok(()) => read_bucket(s, b, offset, buffer, allowance, flash, spare, disk),
        Err(refusal) => outcome::refused(refusal.number(), s),
    }
}
