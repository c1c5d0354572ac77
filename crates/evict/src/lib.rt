// A Write bucket is evicted: its merged bytes are kept as a Dirty copy, or on the disk, and it joins GC.
#![tactic(auto)]

ghost use Rattle.std.specs.Prelude.{◌≡◌, true};
ghost use Rattle.model.specs.Image.{body_fits};
ghost use Rattle.model.specs.Stores.{unit_stores};
ghost use Rattle.model.specs.Steps.{merged, evict};
ghost use Rattle.geometry.specs.Geometry.{device, Lent};
ghost use Rattle.image.specs.Chip.{spare_only};
ghost use Rattle.meter.specs.Run.{running, run_all};
ghost use Rattle.meter.specs.Lent.{run_of, LentTo, Stays};
ghost use Rattle.state.specs.View.{places_of};
ghost use Rattle.steps.specs.Turns.{reached, after};
ghost use Rattle.gather.specs.Sources.{Sources};
ghost use Rattle.evict.specs.PutAway.{Evicts, put_away, put_out};

use meter::{Meter, Run};
use state::State;

// Chip and disk are lent on; the disk alone is written.
fn write_units(
    meter: Meter,
    s: State,
    b: u16,
    flash: &mut [u8],
    spare: &mut [u8],
    disk: &mut [u8],
) -> Meter
    requires { Sources (places_of s) b flash.old spare.old disk.old }
    ensures after { running flash.new spare.new disk.new result ≡ run_all s.sizes (unit_stores s.sizes b (merged s.sizes (places_of s) (device flash.old spare.old disk.old) b)) (running flash.old spare.old disk.old meter) }
    ensures lent_after { Lent s.sizes flash.new spare.new disk.new }
{
    gather::write_merged(meter, s, b, flash, spare, disk)
}

// With a read bucket the merged bytes become a Dirty copy, without one the units of the disk.
fn put_away(run: &mut Run<'_>, s: State, b: u16) -> State
    requires lent { LentTo s.sizes run.old }
    requires evicts { Evicts (places_of s) b × (body_fits s.sizes (spare_only run.old.spare.now) ≡ true) }
    ensures after { reached run.new result ≡ after s.sizes (put_away s.sizes b (merged s.sizes (places_of s) (run_of run.old).device b)) (places_of s) (run_of run.old) }
    ensures stays { Stays s.sizes run.old run.new }
{
    if s.reads.holds(b) {
        return copying::copy(run, s, model::DIRTY_KIND, b);
    }
    let meter = run.meter;
    run.meter = write_units(meter, s, b, run.flash, run.spare, run.disk);
    s
}

// And the Write bucket joins GC.
fn put_out(run: &mut Run<'_>, s: State, b: u16) -> State
    requires lent { LentTo s.sizes run.old }
    requires evicts { Evicts (places_of s) b × (body_fits s.sizes (spare_only run.old.spare.now) ≡ true) }
    ensures after { reached run.new result ≡ after s.sizes (put_out s.sizes b) (places_of s) (run_of run.old) }
    ensures stays { Stays s.sizes run.old run.new }
{
    put_away(run, s, b).drop_write(b)
}

// "just sends the Write bucket to GC" where all its logs are in the read bucket.
pub fn evict(run: &mut Run<'_>, s: State, b: u16) -> State
    requires lent { LentTo s.sizes run.old }
    requires evicts { Evicts (places_of s) b × (body_fits s.sizes (spare_only run.old.spare.now) ≡ true) }
    ensures after { reached run.new result ≡ after s.sizes (evict s.sizes b) (places_of s) (run_of run.old) }
    ensures stays { Stays s.sizes run.old run.new }
{
    if s.writes.is_marked(b) {
        return s.drop_write(b);
    }
    put_out(run, s, b)
}
