// Calls cut after every number of stores, the page that came next spoiled, then recoveries cut after every number of stores, erases stopped
// halfway in both, on chips of several sizes; and a length that no workbench line can say.
#![tactic(auto)]

mod ahead;
mod back;
mod cuts;
mod pages;
mod plain;
mod row;
mod run;
mod spoil;
mod tear;

ghost use Rattle.std.specs.Prelude.{◌≤◌};

use model::{Answer, Sizes};
use std::io;
use std::io::{Cursor, Stdout, Write};

// The smallest chip.
const ONE_PAGE: Sizes = Sizes {
    s: 4,
    p: 1,
    c: 5,
    b: 1,
    r: 1,
    w: 1,
};

const TWO_PAGES: Sizes = Sizes {
    s: 4,
    p: 2,
    c: 8,
    b: 3,
    r: 1,
    w: 2,
};

const ODD_PAGES: Sizes = Sizes {
    s: 5,
    p: 3,
    c: 9,
    b: 3,
    r: 2,
    w: 1,
};

const FOUR_PAGES: Sizes = Sizes {
    s: 16,
    p: 4,
    c: 12,
    b: 4,
    r: 1,
    w: 2,
};

// The number of a refusal, 0 for any other answer.
fn number(answer: Answer) -> u8 {
    match answer {
        Answer::Refused(number) => number,
        _ => 0,
    }
}

// A queue whose length says more than its array has places for, which no form of a state can: number 5.
fn drain_beyond_places(mut out: Stdout) -> io::Result<()> {
    let mut flash = [0u8; 20];
    let mut spare = [0u8; 80];
    let mut disk = [0u8; 4];
    let mut state = run::mixed(ONE_PAGE, &mut flash, &mut spare, &mut disk).state;
    state.reads.len = 1000;
    let o = drain::drain(state, 99, &mut flash, &mut spare, &mut disk);
    let letter = cuts::letter_of_answer(o.answer);
    let number = number(o.answer);
    let mut line = Cursor::new([0u8; 3]);
    writeln!(line, "{letter}{number}")?;
    out.write_all(line.get_ref())
}

// The cuts on a chip of these sizes.
fn on_chip<const FLASH: usize, const SPARE: usize, const DISK: usize>(
    out: Stdout,
    z: Sizes,
) -> io::Result<()>
    requires { (FLASH ≤ 65536) × (SPARE ≤ 65536) × (DISK ≤ 65536) }
{
    let mut flash = [0u8; FLASH];
    let mut spare = [0u8; SPARE];
    let mut disk = [0u8; DISK];
    cuts::cut_all(out, z, &mut flash, &mut spare, &mut disk)
}

fn main(rt: HostRuntime) -> io::Result<()> {
    let out = rt.stdout();
    drain_beyond_places(out)?;
    on_chip::<20, 80, 4>(out, ONE_PAGE)?;
    on_chip::<64, 256, 24>(out, TWO_PAGES)?;
    on_chip::<135, 432, 45>(out, ODD_PAGES)?;
    on_chip::<768, 768, 256>(out, FOUR_PAGES)
}
