// The write.
#![tactic(auto)]

ghost use Rattle.std.specs.Prelude.{◌≡◌, [], length};
ghost use Rattle.model.specs.Operations.{make_way, write};
ghost use Rattle.model.specs.Calls.{write_call, carry_out, call};
ghost use Rattle.geometry.specs.Geometry.{device, Lent};
ghost use Rattle.meter.specs.Lent.{run_of, LentTo, Stays};
ghost use Rattle.state.specs.View.{places_of, view_of};
ghost use Rattle.steps.specs.Turns.{reached, after};
ghost use Rattle.outcome.specs.Handed.{handed_back, handed};
ghost use Rattle.write.specs.Writes.{Yields, Writes};

use meter::{Meter, Run};
use model::Answer;
use outcome::Outcome;
use state::State;

// The Write bucket that gives way to the log, if one does, is evicted.
fn make_way(run: &mut Run<'_>, s: State, b: u16) -> State
    requires lent { LentTo s.sizes run.old }
    requires yields { Yields (places_of s) run.old.spare.now }
    ensures after { reached run.new result ≡ after s.sizes (make_way s.sizes b) (places_of s) (run_of run.old) }
    ensures stays { Stays s.sizes run.old run.new }
{
    match victim::outgoing(s, b, run.spare()) {
        Some(v) => evict::evict(run, s, v),
        None => s,
    }
}

// All stores of the write, and the state that it leaves.
fn write_log(run: &mut Run<'_>, s: State, b: u16, offset: u16, bytes: &[u8]) -> State
    requires lent { LentTo s.sizes run.old }
    requires writes { Writes (places_of s) (length bytes.now) run.old.spare.now }
    ensures after { reached run.new result ≡ after s.sizes (write s.sizes b offset bytes.now) (places_of s) (run_of run.old) }
    ensures stays { Stays s.sizes run.old run.new }
{
    let n = bytes.len();
    if arrival::fits(s, b, n) {
        return arrival::append_log(run, s, b, offset, bytes);
    }
    let way = make_way(run, s, b);
    arrival::start_log(run, way, b, offset, bytes)
}

fn write_bytes(
    s: State,
    b: u16,
    offset: u16,
    bytes: &[u8],
    allowance: usize,
    flash: &mut [u8],
    spare: &mut [u8],
    disk: &mut [u8],
) -> Outcome
    requires lent { Lent s.sizes flash.old spare.old disk.old }
    requires writes { Writes (places_of s) (length bytes.now) spare.old }
    ensures { handed_back (device flash.new spare.new disk.new) [] result ≡ handed s (carry_out allowance (write_call b offset bytes.now) (places_of s) (device flash.old spare.old disk.old) (write s.sizes b offset bytes.now (places_of s) (device flash.old spare.old disk.old))) }
{
    let mut run = Run {
        flash,
        spare,
        disk,
        meter: Meter::whole(allowance),
    };
    let state = write_log(&mut run, s, b, offset, bytes);
    outcome::finish(run.meter, allowance, Answer::Done, s, state)
}

// The entry.
pub fn write(
    s: State,
    b: u16,
    offset: usize,
    bytes: &[u8],
    allowance: usize,
    flash: &mut [u8],
    spare: &mut [u8],
    disk: &mut [u8],
) -> Outcome
    ensures { handed_back (device flash.new spare.new disk.new) [] result ≡ handed s (call allowance (write_call b offset bytes.now) (view_of s) (device flash.old spare.old disk.old)) }
{
    match checks::check_write(s, b, offset, bytes.len(), flash, spare, disk) {
        Ok(()) => write_bytes(s, b, offset as u16, bytes, allowance, flash, spare, disk),
        Err(refusal) => outcome::refused(refusal.number(), s),
    }
}
