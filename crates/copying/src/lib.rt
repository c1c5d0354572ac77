// Logs in a bucket just allocated, and the whole copy of a back-end bucket among them.
#![tactic(auto)]

ghost use Rattle.std.specs.Prelude.{◌≡◌, false, ◌*◌, ◌≤◌, ◌<◌, length, take};
ghost use Rattle.lists.specs.Lists.{splice};
ghost use Rattle.model.specs.Sizes.{bucket_size, body};
ghost use Rattle.model.specs.Stores.{bucket_bytes};
ghost use Rattle.model.specs.State.{cache_of};
ghost use Rattle.model.specs.Steps.{merged, copy};
ghost use Rattle.model.proofs.Limits.{Limits};
ghost use Rattle.geometry.specs.Geometry.{device, Lent};
ghost use Rattle.meter.specs.Run.{running, run_all};
ghost use Rattle.meter.specs.Lent.{run_of, LentTo, Stays};
ghost use Rattle.log_pages.specs.Logs.{all_stores};
ghost use Rattle.state.specs.View.{places_of};
ghost use Rattle.steps.specs.Turns.{reached, after};
ghost use Rattle.gather.specs.Sources.{Sources};
ghost use Rattle.copying.specs.Fresh.{room_of, Takes, erases, fresh_stores, Copies, Single};
ghost use Rattle.copying.specs.Laid.{listed_bytes, Laid};

use log_pages::Log;
use meter::{Meter, Run};
use model::{Entry, Sizes};
use state::State;

// Where an allocation puts its log: with an empty free queue, into the GC head, which is erased first.
#[derive(Clone, Copy)]
pub struct Room {
    pub erase: bool,
    pub bucket: usize,
    pub epoch: u32,
}

pub fn room_of(s: State) -> Room
    requires { s.next ≤ 4294967295 }
    ensures { result ≡ room_of (places_of s) }
{
    let epoch = s.next as u32;
    if s.free.used() == 0 {
        let erase = s.gc.used() != 0;
        let bucket = s.gc.head() as usize;
        return Room {
            erase,
            bucket,
            epoch,
        };
    }
    let bucket = s.free.head() as usize;
    Room {
        erase: false,
        bucket,
        epoch,
    }
}

fn erase_room(run: &mut Run<'_>, z: Sizes, room: Room)
    requires lent { LentTo z run.old }
    requires limits { Limits z × (room.bucket < body z) }
    ensures after { run_of run.new ≡ run_all z (erases z (run_of run.old).device room) (run_of run.old) }
    ensures stays { Stays z run.old run.new }
{
    if room.erase {
        noted::erase_noted(run, z, room.bucket);
    }
}

// A log of b, from page 0 of the room on.
fn log_in(room: Room, kind: u8, b: u16, offset: u16) -> Log
    ensures { result ≡ record { bucket = room.bucket; first = 0; kind = kind; epoch = room.epoch; back = b; offset = offset } }
{
    Log {
        bucket: room.bucket,
        first: 0,
        kind,
        epoch: room.epoch,
        back: b,
        offset,
    }
}

// A log of b goes into the room, given by its numbers alone: a state would be copied whole. The caller takes the bucket off its queue.
pub fn fresh_log(
    run: &mut Run<'_>,
    z: Sizes,
    room: Room,
    kind: u8,
    b: u16,
    offset: u16,
    bytes: &[u8],
)
    requires lent { LentTo z run.old }
    requires takes { Takes z room (length bytes.now) }
    ensures after { run_of run.new ≡ run_all z (fresh_stores z (run_of run.old).device room kind b offset bytes.now) (run_of run.old) }
    ensures stays { Stays z run.old run.new }
{
    erase_room(run, z, room);
    let target = log_in(room, kind, b, offset);
    log_pages::program_log(run, z, target, bytes);
}

// Lays so many bytes of b into the bucket: the logs of the listed buckets over the read bucket or the disk.
fn lay_bytes(
    z: Sizes,
    list: &[u8],
    base: Option<Entry>,
    b: u16,
    bucket: usize,
    n: usize,
    flash: &mut [u8],
    spare: &[u8],
    disk: &[u8],
)
    requires laid { Laid z list.now base b bucket flash.old spare.now disk.now }
    requires n_bound { n ≤ bucket_size z }
    ensures { flash.new ≡ splice flash.old (bucket * bucket_size z) (take n (listed_bytes z (device flash.old spare.now disk.now) list.now base b)) }
{
    if let Some(copy) = base {
        let c = copy.cache as usize;
        overlay::lay_within(z, list, c, &disk[..0], bucket, n, flash, spare);
        return;
    }
    let from = b as usize * (z.p * z.s);
    let to = from + z.p * z.s;
    overlay::lay_within(z, list, 0, &disk[from..to], bucket, n, flash, spare);
}

// The pages of the copy, as many as the allowance lets be made: their bytes at one go, from where they stand, and then their spare bytes.
// Chip and disk are lent on; the chip alone is written.
fn fill_room(
    meter: Meter,
    z: Sizes,
    target: Log,
    list: &[u8],
    base: Option<Entry>,
    flash: &mut [u8],
    spare: &mut [u8],
    disk: &mut [u8],
) -> Meter
    requires laid { Laid z list.now base target.back target.bucket flash.old spare.old disk.old }
    requires first_value { target.first ≡ 0 }
    ensures after { running flash.new spare.new disk.new result ≡ run_all z (all_stores z target (listed_bytes z (device flash.old spare.old disk.old) list.now base target.back)) (running flash.old spare.old disk.old meter) }
    ensures lent_after { Lent z flash.new spare.new disk.new }
    ensures bucket_after { result.cut ≡ false → bucket_bytes z (device flash.new spare.new disk.new) target.bucket ≡ listed_bytes z (device flash.old spare.old disk.old) list.now base target.back }
{
    let pages = meter::allowed(meter, z.p);
    let n = pages * z.s;
    lay_bytes(
        z,
        list,
        base,
        target.back,
        target.bucket,
        n,
        flash,
        spare,
        disk,
    );
    log_pages::write_tags(z, target, z.p * z.s, pages, spare);
    meter::spent(meter, z.p)
}

// The copy of b becomes its read bucket, the most recent one; the bucket that it takes the place of joins GC. What the queues say of b is looked
// up before the first store: the state, looked at later, would be copied whole.
pub fn copy(run: &mut Run<'_>, s: State, kind: u8, b: u16) -> State
    requires lent { LentTo s.sizes run.old }
    requires copies { Copies (places_of s) b × Single (places_of s) }
    requires sources { Sources (places_of s) b run.old.flash.now run.old.spare.now run.old.disk.now }
    ensures after { reached run.new result ≡ after s.sizes (copy s.sizes kind b (merged s.sizes (places_of s) (run_of run.old).device b)) (places_of s) (run_of run.old) }
    ensures stays { Stays s.sizes run.old run.new }
    ensures state_after { run.new.meter.cut ≡ false → bucket_bytes s.sizes (run_of run.new).device (cache_of b (places_of result).reads) ≡ merged s.sizes (places_of s) (run_of run.old).device b }
{
    let room = room_of(s);
    let logs = gather::logs_of(s, b);
    let base = s.reads.find(b);
    let roomed = s.roomed();
    let state = roomed.take_copy(b);
    erase_room(run, s.sizes, room);
    let target = log_in(room, kind, b, 0);
    let meter = run.meter;
    run.meter = fill_room(
        meter,
        s.sizes,
        target,
        logs.as_slice(),
        base,
        run.flash,
        run.spare,
        run.disk,
    );
    state
}
