// Format: all buckets of the chip are erased, and free.
#![tactic(auto)]

ghost use Rattle.std.specs.Prelude.{◌≡◌, [], map};
ghost use Rattle.lists.specs.Lists.{below};
ghost use Rattle.model.specs.Stores.{erase};
ghost use Rattle.model.specs.Operations.{format};
ghost use Rattle.model.specs.Calls.{format_call, carry_out, call};
ghost use Rattle.model.proofs.Limits.{Limits};
ghost use Rattle.geometry.specs.Geometry.{device, Lent};
ghost use Rattle.meter.specs.Run.{run_all};
ghost use Rattle.meter.specs.Lent.{run_of, LentTo, Stays};
ghost use Rattle.state.specs.View.{places_of, view_of};
ghost use Rattle.outcome.specs.Handed.{handed_back, handed};

use fifo::Fifo;
use meter::{Meter, Run};
use model::{Answer, Sizes};
use outcome::Outcome;
use queue::Queue;
use state::State;

// Erases all buckets in rising order.
fn erase_all(run: &mut Run<'_>, z: Sizes)
    requires { LentTo z run.old }
    ensures after { run_of run.new ≡ run_all z (map erase (below z.c)) (run_of run.old) }
    ensures stays { Stays z run.old run.new }
{
    for bucket in 0..z.c {
        run.erase(z, bucket);
    }
}

fn formatted(z: Sizes) -> State
    requires { Limits z }
    ensures { places_of result ≡ (format z).state }
{
    State {
        sizes: z,
        running: true,
        reads: Queue::empty(),
        writes: Queue::empty(),
        gc: Fifo::empty(),
        free: Fifo::rising(geometry::body(z)),
        accepted: 0,
        next: 1,
    }
}

fn format_chip(
    s: State,
    z: Sizes,
    allowance: usize,
    flash: &mut [u8],
    spare: &mut [u8],
    disk: &mut [u8],
) -> Outcome
    requires limits { Limits z }
    requires lent { Lent z flash.old spare.old disk.old }
    ensures { handed_back (device flash.new spare.new disk.new) [] result ≡ handed s (carry_out allowance (format_call z) (view_of s) (device flash.old spare.old disk.old) (format z)) }
{
    let mut run = Run {
        flash,
        spare,
        disk,
        meter: Meter::whole(allowance),
    };
    erase_all(&mut run, z);
    let new = formatted(z);
    outcome::finish(run.meter, allowance, Answer::Done, s, new)
}

// The entry. The sizes are its own: the state's are not looked at.
pub fn format(
    s: State,
    z: Sizes,
    allowance: usize,
    flash: &mut [u8],
    spare: &mut [u8],
    disk: &mut [u8],
) -> Outcome
    ensures { handed_back (device flash.new spare.new disk.new) [] result ≡ handed s (call allowance (format_call z) (view_of s) (device flash.old spare.old disk.old)) }
{
    match geometry::check_lent(z, flash, spare, disk) {
        Ok(()) => format_chip(s, z, allowance, flash, spare, disk),
        Err(refusal) => outcome::refused(refusal.number(), s),
    }
}
