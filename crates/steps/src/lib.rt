// An operation under way, and the erase step.
#![tactic(auto)]

ghost use Rattle.std.specs.Prelude.{◌≡◌};
ghost use Rattle.model.specs.Steps.{erase_step};
ghost use Rattle.meter.specs.Lent.{run_of, LentTo, Stays};
ghost use Rattle.state.specs.View.{places_of};
ghost use Rattle.steps.specs.Turns.{reached, after};
ghost use Rattle.steps.specs.Ready.{Orderly};

use meter::Run;
use state::State;

// The GC head, if there is one, is erased, and before it noted in the ledger.
pub fn erase_step(run: &mut Run<'_>, s: State) -> State
    requires lent { LentTo s.sizes run.old }
    requires orderly { Orderly (places_of s) }
    ensures after { reached run.new result ≡ after s.sizes (erase_step s.sizes) (places_of s) (run_of run.old) }
    ensures stays { Stays s.sizes run.old run.new }
{
    let n = s.gc.used();
    if n == 0 {
        return s;
    }
    let head = s.gc.head() as usize;
    noted::erase_noted(run, s.sizes, head);
    s.freed()
}
