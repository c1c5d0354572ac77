// The erase step.
#![tactic(auto)]

ghost use Rattle.std.specs.Prelude.{◌≡◌, []};
ghost use Rattle.model.specs.Steps.{erase_step};
ghost use Rattle.model.specs.Calls.{erase_call, done_answer, carry_out, call};
ghost use Rattle.geometry.specs.Geometry.{device, Lent};
ghost use Rattle.state.specs.View.{places_of, view_of};
ghost use Rattle.steps.specs.Ready.{Orderly};
ghost use Rattle.outcome.specs.Handed.{handed_back, handed};

use meter::{Meter, Run};
use model::Answer;
use outcome::Outcome;
use state::State;

// Idle where there is nothing to erase.
fn full_answer(s: State) -> Answer
    ensures { result ≡ done_answer erase_call (places_of s) }
{
    let n = s.gc.used();
    if n == 0 { Answer::Idle } else { Answer::Done }
}

fn erase_head(
    s: State,
    allowance: usize,
    flash: &mut [u8],
    spare: &mut [u8],
    disk: &mut [u8],
) -> Outcome
    requires lent { Lent s.sizes flash.old spare.old disk.old }
    requires orderly { Orderly (places_of s) }
    ensures { handed_back (device flash.new spare.new disk.new) [] result ≡ handed s (carry_out allowance erase_call (places_of s) (device flash.old spare.old disk.old) (erase_step s.sizes (places_of s) (device flash.old spare.old disk.old))) }
{
    let full = full_answer(s);
    let mut run = Run {
        flash,
        spare,
        disk,
        meter: Meter::whole(allowance),
    };
    let state = steps::erase_step(&mut run, s);
    outcome::finish(run.meter, allowance, full, s, state)
}

// The entry.
pub fn erase_step(
    s: State,
    allowance: usize,
    flash: &mut [u8],
    spare: &mut [u8],
    disk: &mut [u8],
) -> Outcome
    ensures { handed_back (device flash.new spare.new disk.new) [] result ≡ handed s (call allowance erase_call (view_of s) (device flash.old spare.old disk.old)) }
{
    match checks::check_running(s, flash, spare, disk) {
        Ok(()) => erase_head(s, allowance, flash, spare, disk),
        Err(refusal) => outcome::refused(refusal.number(), s),
    }
}
