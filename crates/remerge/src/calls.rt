// The engine's calls that make a chip: writes anywhere and of any length, reads, drains and erase steps between them, some of them cut; a
// recovery after each cut, which may be cut too.
ghost use Rattle.std.specs.Prelude.{◌≤◌};
ghost use Rattle.model.proofs.Limits.{Limits};

use crate::{random, sizes};
use model::{Answer, Sizes};
use outcome::Outcome;
use state::State;

// Never cuts: no call makes as many stores.
const PLENTY: usize = 65535;

#[derive(Clone, Copy)]
pub struct Run {
    pub state: State,
    pub seed: u32,
    pub cut: bool,
}

#[derive(Clone, Copy)]
enum Operation {
    Drain,
    EraseStep,
    Read,
    Write,
}

#[derive(Clone, Copy)]
struct Call {
    operation: Operation,
    b: u16,
    offset: usize,
    length: usize,
    allowance: usize,
}

fn drawn_operation(seed: u32) -> Operation {
    match random::below(seed, 16) {
        0 => Operation::Drain,
        1..=3 => Operation::EraseStep,
        4..=5 => Operation::Read,
        _ => Operation::Write,
    }
}

// A whole bucket, a few bytes, or any number of them.
fn log_length(seed: u32, size: usize) -> usize
    requires { 1 ≤ size }
    ensures { (1 ≤ result) × (result ≤ size) }
{
    let next = random::next(seed);
    match random::below(seed, 8) {
        0 => size,
        1..=3 => random::below(next, size.min(8)) + 1,
        _ => random::below(next, size) + 1,
    }
}

// One call in three may be cut: a write makes at most 2P + 5 stores, or 8 where a bucket has one page.
fn allowance(z: Sizes, seed: u32) -> usize
    requires { Limits z }
{
    if random::below(seed, 3) == 0 {
        random::below(random::next(seed), 2 * z.p + 5)
    } else {
        PLENTY
    }
}

fn drawn(z: Sizes, seed: u32, size: usize) -> Call
    requires limits { Limits z }
    requires le_size { 1 ≤ size }
    ensures { result.length ≤ size }
{
    let second = random::next(seed);
    let third = random::next(second);
    let fourth = random::next(third);
    let length = log_length(second, size);
    Call {
        operation: drawn_operation(seed),
        b: random::below(third, z.b) as u16,
        offset: random::below(fourth, size - length + 1),
        length,
        allowance: allowance(z, random::next(fourth)),
    }
}

fn make(
    s: State,
    call: Call,
    bytes: &mut [u8],
    flash: &mut [u8],
    spare: &mut [u8],
    disk: &mut [u8],
) -> Outcome {
    let n = call.allowance;
    match call.operation {
        Operation::Drain => drain::drain(s, n, flash, spare, disk),
        Operation::EraseStep => erasestep::erase_step(s, n, flash, spare, disk),
        Operation::Read => read::read(s, call.b, call.offset, bytes, n, flash, spare, disk),
        Operation::Write => write::write(s, call.b, call.offset, bytes, n, flash, spare, disk),
    }
}

fn after(seed: u32, o: Outcome) -> Run {
    Run {
        state: o.state,
        seed,
        cut: matches!(o.answer, Answer::Cut),
    }
}

fn any_call(run: Run, z: Sizes, flash: &mut [u8], spare: &mut [u8], disk: &mut [u8]) -> Run
    requires { Limits z }
{
    let seed = random::next(run.seed);
    let call = drawn(z, seed, sizes::bucket(z).min(4096));
    let mut bytes = random::bytes(seed);
    let n = call.length;
    let o = make(run.state, call, &mut bytes[..n], flash, spare, disk);
    after(seed, o)
}

fn recovery(run: Run, z: Sizes, flash: &mut [u8], spare: &mut [u8], disk: &mut [u8]) -> Run
    requires { Limits z }
{
    let seed = random::next(run.seed);
    let o = recover::recover(run.state, z, allowance(z, seed), flash, spare, disk);
    after(seed, o)
}

// The next call.
pub fn step(run: Run, z: Sizes, flash: &mut [u8], spare: &mut [u8], disk: &mut [u8]) -> Run
    requires { Limits z }
{
    if run.cut {
        recovery(run, z, flash, spare, disk)
    } else {
        any_call(run, z, flash, spare, disk)
    }
}

// The chip formatted, with some bytes on the disk.
pub fn begin(seed: u32, z: Sizes, flash: &mut [u8], spare: &mut [u8], disk: &mut [u8]) -> Run {
    random::fill(seed, disk);
    let o = format::format(State::unformatted(), z, PLENTY, flash, spare, disk);
    after(seed, o)
}
