// A list under way: the engine's state, the plain disk beside it, and what the last call answered.
use crate::row::Call;
use crate::{plain, row};
use model::{Answer, Sizes};
use state::State;

#[derive(Clone, Copy)]
pub struct Run {
    pub state: State,
    pub plain: [u8; 256],
    pub answer: Answer,
    pub stores: usize,
}

// Never cuts: no call of a list makes as many stores.
pub const PLENTY: usize = 255;

// Writes and reads that fill queues and buckets of every chip, after a format.
fn mix() -> [Call; 16] {
    [
        Call::Format,
        Call::write(0, 0, 1, 0),
        Call::read(0, 0, 1, 0),
        Call::write(1, 0, 2, 0),
        Call::read(1, 0, 1, 0),
        Call::write(2, 3, 0, 2),
        Call::write(3, 0, 3, 1),
        Call::write(1, 1, 1, 1),
        Call::read(2, 0, 1, 0),
        Call::write(2, 0, 2, 0),
        Call::write(0, 1, 0, 3),
        Call::write(1, 2, 2, 0),
        Call::write(3, 7, 2, 3),
        Call::read(0, 0, 1, 0),
        Call::write(0, 2, 0, 1),
        Call::write(2, 0, 2, 0),
    ]
}

// Only a Done write changes the plain disk.
fn plain_after(plain: [u8; 256], answer: Answer, call: Call, bytes: &[u8]) -> [u8; 256] {
    match (answer, call) {
        (Answer::Done, Call::Write(part)) => plain::laid(plain, part.back, part.offset, bytes),
        _ => plain,
    }
}

fn make_call(
    run: Run,
    z: Sizes,
    call: Call,
    allowance: usize,
    bytes: &mut [u8],
    flash: &mut [u8],
    spare: &mut [u8],
    disk: &mut [u8],
) -> Run {
    let o = row::make(run.state, z, call, allowance, bytes, flash, spare, disk);
    Run {
        state: o.state,
        plain: plain_after(run.plain, o.answer, call, bytes),
        answer: o.answer,
        stores: o.stores,
    }
}

// A call whose data, if it writes, are those of number i.
pub fn make(
    run: Run,
    z: Sizes,
    call: Call,
    allowance: usize,
    i: usize,
    flash: &mut [u8],
    spare: &mut [u8],
    disk: &mut [u8],
) -> Run {
    let mut bytes = row::data_of(i);
    let n = call.length(z);
    make_call(run, z, call, allowance, &mut bytes[..n], flash, spare, disk)
}

// The mix on a chip anew, with zeros on its disk.
pub fn mixed(z: Sizes, flash: &mut [u8], spare: &mut [u8], disk: &mut [u8]) -> Run {
    disk.fill(0);
    let mut run = Run {
        state: State::unformatted(),
        plain: [0u8; 256],
        answer: Answer::Done,
        stores: 0,
    };
    for (i, call) in mix().iter().enumerate() {
        run = make(run, z, *call, PLENTY, i, flash, spare, disk);
    }
    run
}
