// What an entry hands back.
#![tactic(auto)]

ghost use Rattle.std.specs.Prelude.{◌≡◌, ◌≤◌};
ghost use Rattle.state.specs.View.{places_of};
ghost use Rattle.outcome.specs.Handed.{cut_short, finished, turned};

use meter::Meter;
use model::Answer;
use state::State;

#[derive(Clone, Copy)]
pub struct Outcome {
    pub answer: Answer,
    pub stores: usize,
    pub state: State,
}

// A run that was cut leaves the old state, not running.
pub fn cut_short(m: Meter, allowance: usize, old: State) -> Outcome
    requires { m.left ≤ allowance }
    ensures { result ≡ cut_short m allowance old }
{
    let state = old.stop();
    Outcome {
        answer: Answer::Cut,
        stores: allowance - m.left,
        state,
    }
}

// Once all stores were asked for: `full` with the new state, or Cut.
pub fn finish(m: Meter, allowance: usize, full: Answer, old: State, new: State) -> Outcome
    requires { m.left ≤ allowance }
    ensures { result ≡ finished m allowance full old (places_of new) }
{
    if m.cut {
        return cut_short(m, allowance, old);
    }
    let stores = allowance - m.left;
    let state = new.cleared();
    Outcome {
        answer: full,
        stores,
        state,
    }
}

// A call that is turned down gives the struct back as it came. By the number, which the book's `Refused` has.
pub fn refused(number: u8, s: State) -> Outcome
    ensures { result ≡ turned number s }
{
    Outcome {
        answer: Answer::Refused(number),
        stores: 0,
        state: s,
    }
}
