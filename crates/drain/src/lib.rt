// Drain: all that the disk lacks is written to it.
#![tactic(auto)]

ghost use Rattle.std.specs.Prelude.{◌≡◌, [], length};
ghost use Rattle.model.specs.Sizes.{disk_size};
ghost use Rattle.model.specs.Operations.{drain};
ghost use Rattle.model.specs.Calls.{drain_call, carry_out, call};
ghost use Rattle.geometry.specs.Geometry.{device, Lent};
ghost use Rattle.meter.specs.Run.{running, run_all};
ghost use Rattle.meter.specs.Lent.{run_of, LentTo, Stays};
ghost use Rattle.state.specs.View.{places_of, view_of};
ghost use Rattle.steps.specs.Turns.{reached, after};
ghost use Rattle.outcome.specs.Handed.{handed_back, handed};
ghost use Rattle.drain.specs.Listed.{Drains, Listed};

use meter::{Meter, Run};
use model::Answer;
use outcome::Outcome;
use state::State;

// The units of each listed back-end bucket, in rising order: from one listed number to the next, which no `for` counts.
fn write_listed(
    meter: Meter,
    s: State,
    backs: &[u16],
    flash: &[u8],
    spare: &[u8],
    disk: &mut [u8],
) -> Meter
    requires lent { Lent s.sizes flash.now spare.now disk.old }
    requires listed { Listed (places_of s) spare.now backs.now }
    ensures result_after { running flash.now spare.now disk.new result ≡ run_all s.sizes (drain s.sizes (places_of s) (device flash.now spare.now disk.old)).stores (running flash.now spare.now disk.old meter) }
    ensures disk_len { length disk.new ≡ disk_size s.sizes }
{
    let end = s.sizes.b;
    let mut left = meter;
    let mut b = order::next_of(backs, 0, end);
    while b < end {
        left = gather::write_merged(left, s, b as u16, flash, spare, disk);
        b = order::next_of(backs, b + 1, end);
    }
    left
}

// Chip and disk are lent on; the disk alone is written.
fn write_units(
    meter: Meter,
    s: State,
    backs: &[u16],
    flash: &mut [u8],
    spare: &mut [u8],
    disk: &mut [u8],
) -> Meter
    requires lent { Lent s.sizes flash.old spare.old disk.old }
    requires listed { Listed (places_of s) spare.old backs.now }
    ensures after { running flash.new spare.new disk.new result ≡ run_all s.sizes (drain s.sizes (places_of s) (device flash.old spare.old disk.old)).stores (running flash.old spare.old disk.old meter) }
    ensures lent_after { Lent s.sizes flash.new spare.new disk.new }
{
    write_listed(meter, s, backs, flash, spare, disk)
}

// All stores of the drain, and the state that it leaves. What to write is worked out before the first store.
pub fn drain_queues(run: &mut Run<'_>, s: State) -> State
    requires lent { LentTo s.sizes run.old }
    requires drains { Drains (places_of s) run.old.spare.now }
    ensures after { reached run.new result ≡ after s.sizes (drain s.sizes) (places_of s) (run_of run.old) }
    ensures stays { Stays s.sizes run.old run.new }
{
    let work = unclean::drained(s, run.spare());
    let meter = run.meter;
    run.meter = write_units(
        meter,
        s,
        &work.backs[..work.count],
        run.flash,
        run.spare,
        run.disk,
    );
    work.state
}

fn drain_whole(
    s: State,
    allowance: usize,
    flash: &mut [u8],
    spare: &mut [u8],
    disk: &mut [u8],
) -> Outcome
    requires lent { Lent s.sizes flash.old spare.old disk.old }
    requires drains { Drains (places_of s) spare.old }
    ensures { handed_back (device flash.new spare.new disk.new) [] result ≡ handed s (carry_out allowance drain_call (places_of s) (device flash.old spare.old disk.old) (drain s.sizes (places_of s) (device flash.old spare.old disk.old))) }
{
    let mut run = Run {
        flash,
        spare,
        disk,
        meter: Meter::whole(allowance),
    };
    let state = drain_queues(&mut run, s);
    outcome::finish(run.meter, allowance, Answer::Done, s, state)
}

// The entry.
pub fn drain(
    s: State,
    allowance: usize,
    flash: &mut [u8],
    spare: &mut [u8],
    disk: &mut [u8],
) -> Outcome
    ensures { handed_back (device flash.new spare.new disk.new) [] result ≡ handed s (call allowance drain_call (view_of s) (device flash.old spare.old disk.old)) }
{
    match checks::check_running(s, flash, spare, disk) {
        Ok(()) => drain_whole(s, allowance, flash, spare, disk),
        Err(refusal) => outcome::refused(refusal.number(), s),
    }
}
