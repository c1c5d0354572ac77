// The least recent read bucket gives way to another.
#![tactic(auto)]

ghost use Rattle.std.specs.Prelude.{◌≡◌, List, ℕ, length};
ghost use Rattle.model.specs.Sizes.{flash_size, disk_size};
ghost use Rattle.model.specs.Stores.{bucket_bytes, unit_stores};
ghost use Rattle.model.specs.Operations.{drop_oldest};
ghost use Rattle.geometry.specs.Geometry.{device, Lent};
ghost use Rattle.meter.specs.Run.{running, run_all};
ghost use Rattle.meter.specs.Lent.{run_of, LentTo, Stays};
ghost use Rattle.state.specs.View.{places_of};
ghost use Rattle.steps.specs.Turns.{reached, after};
ghost use Rattle.oldest.specs.Drops.{Places, Drops};

use meter::{Meter, Run};
use model::{Entry, Sizes};
use state::State;

// The bytes of the cache bucket c, copied to the units of b: as many as the allowance lets be made.
fn write_out(meter: Meter, z: Sizes, b: usize, c: usize, flash: &[u8], disk: &mut [u8]) -> Meter
    requires flash_len { (length flash.now ≡ flash_size z) × (length disk.old ≡ disk_size z) }
    requires places { Places z b c }
    ensures by_index { (spare : List ℕ) → running flash.now spare disk.new result ≡ run_all z (unit_stores z b (bucket_bytes z (device flash.now spare disk.old) c)) (running flash.now spare disk.old meter) }
    ensures disk_len { length disk.new ≡ disk_size z }
{
    let place = units::place(meter, z, b);
    gather::piece_range(flash, z.p * z.s, c, 0, &mut disk[place]);
    meter::spent(meter, z.p)
}

// Chip and disk are lent on; the disk alone is written.
fn write_units(
    meter: Meter,
    z: Sizes,
    oldest: Entry,
    flash: &mut [u8],
    spare: &mut [u8],
    disk: &mut [u8],
) -> Meter
    requires lent { Lent z flash.old spare.old disk.old }
    requires places { Places z oldest.back oldest.cache }
    ensures after { running flash.new spare.new disk.new result ≡ run_all z (unit_stores z oldest.back (bucket_bytes z (device flash.old spare.old disk.old) oldest.cache)) (running flash.old spare.old disk.old meter) }
    ensures lent_after { Lent z flash.new spare.new disk.new }
{
    write_out(
        meter,
        z,
        oldest.back as usize,
        oldest.cache as usize,
        flash,
        disk,
    )
}

// With a full read queue, the least recent bucket joins GC; the units of a Dirty one are written first.
pub fn drop_oldest(run: &mut Run<'_>, s: State) -> State
    requires lent { LentTo s.sizes run.old }
    requires drops { Drops (places_of s) }
    ensures after { reached run.new result ≡ after s.sizes (drop_oldest s.sizes) (places_of s) (run_of run.old) }
    ensures stays { Stays s.sizes run.old run.new }
{
    let z = s.sizes;
    let n = s.reads.used();
    if n < z.r {
        return s;
    }
    let oldest = s.reads.first();
    let state = s.drop_oldest();
    if image::is_dirty(z, oldest.cache as usize, run.spare()) {
        let meter = run.meter;
        run.meter = write_units(meter, z, oldest, run.flash, run.spare, run.disk);
    }
    state
}
