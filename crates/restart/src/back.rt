// The restart: recovery cut after every number of stores, its erases stopped halfway, then every back-end bucket read; a write, and all that again.
ghost use Rattle.std.specs.Prelude.{◌≤◌};

use crate::row::Call;
use crate::run::Run;
use crate::{ahead, pages, plain, row, run, tear};
use model::{Answer, Sizes};
use state::State;

// The stores of the whole recovery, the erases that stopped halfway, the pages that were spoiled, and whether every byte read is that of the
// plain disk.
#[derive(Clone, Copy)]
pub struct Back {
    pub stores: usize,
    pub torn: usize,
    pub spoiled: usize,
    pub kept: bool,
}

impl Back {
    // The same, and some erases and pages more; two digits of their numbers are printed.
    pub fn and_damaged(self, torn: usize, spoiled: usize) -> Back {
        Back {
            torn: self.torn % 100 + torn % 100,
            spoiled: self.spoiled % 100 + spoiled % 100,
            ..self
        }
    }

    // The same, and what another restart came to.
    pub fn and(self, other: Back) -> Back {
        let both = self.and_damaged(other.torn, other.spoiled);
        Back {
            kept: self.kept & other.kept,
            ..both
        }
    }
}

#[derive(Clone, Copy)]
struct Recovered {
    state: State,
    stores: usize,
    torn: usize,
    cut: bool,
}

#[derive(Clone, Copy)]
struct Read {
    state: State,
    same: bool,
}

// One recovery. Where it was cut and an erase came next, a set of that bucket's pages is blank.
fn recover_once(
    s: State,
    z: Sizes,
    allowance: usize,
    set: usize,
    flash: &mut [u8],
    spare: &mut [u8],
    disk: &mut [u8],
) -> Recovered
    requires { allowance ≤ 32 }
    ensures { result.torn ≤ 1 }
{
    let after = ahead::blanks_after(s, z, allowance + 1, flash, spare, disk);
    let o = recover::recover(s, z, allowance, flash, spare, disk);
    let blanked = pages::first_blank(after, pages::blanks(spare));
    Recovered {
        state: o.state,
        stores: o.stores,
        torn: tear::tear(z, blanked, set, flash, spare),
        cut: matches!(o.answer, Answer::Cut),
    }
}

// Recovery with no store allowed, with one, and so on until it is whole; the sets of pages take turns.
fn recover_whole(
    s: State,
    z: Sizes,
    set: usize,
    flash: &mut [u8],
    spare: &mut [u8],
    disk: &mut [u8],
) -> Recovered {
    let mut all = Recovered {
        state: s,
        stores: 0,
        torn: 0,
        cut: true,
    };
    for allowance in 0..32 {
        let set = set % 16 + allowance;
        let one = recover_once(all.state, z, allowance, set, flash, spare, disk);
        all = Recovered {
            torn: all.torn + one.torn,
            ..one
        };
        if !all.cut {
            return all;
        }
    }
    all
}

fn read_into(
    s: State,
    plain: [u8; 256],
    b: u8,
    bytes: &mut [u8],
    flash: &mut [u8],
    spare: &mut [u8],
    disk: &mut [u8],
) -> Read {
    let o = read::read(s, u16::from(b), 0, bytes, run::PLENTY, flash, spare, disk);
    Read {
        state: o.state,
        same: matches!(o.answer, Answer::Done) & plain::same(plain, b, bytes),
    }
}

// The whole of back-end bucket b.
fn read_bucket(
    s: State,
    z: Sizes,
    plain: [u8; 256],
    b: u8,
    flash: &mut [u8],
    spare: &mut [u8],
    disk: &mut [u8],
) -> Read {
    let mut bytes = row::data_of(0);
    let n = row::length_of(z, z.p, 0);
    read_into(s, plain, b, &mut bytes[..n], flash, spare, disk)
}

// The whole of every back-end bucket; the plain disk holds four.
fn read_all(
    s: State,
    z: Sizes,
    plain: [u8; 256],
    flash: &mut [u8],
    spare: &mut [u8],
    disk: &mut [u8],
) -> Read {
    let mut all = Read {
        state: s,
        same: true,
    };
    for b in 0..z.b.min(4) as u8 {
        let one = read_bucket(all.state, z, plain, b, flash, spare, disk);
        all = Read {
            same: all.same & one.same,
            ..one
        };
    }
    all
}

// Whether every byte read is that of the plain disk after one more write and a recovery. Where the first cut write spoiled the page that it would
// have appended, this one goes behind it.
fn kept_again(run: Run, z: Sizes, flash: &mut [u8], spare: &mut [u8], disk: &mut [u8]) -> bool {
    let call = Call::write(0, 0, 1, 0);
    let next = run::make(run, z, call, run::PLENTY, 98, flash, spare, disk);
    let o = recover::recover(next.state, z, run::PLENTY, flash, spare, disk);
    read_all(o.state, z, next.plain, flash, spare, disk).same
}

pub fn restart(
    run: Run,
    z: Sizes,
    set: usize,
    flash: &mut [u8],
    spare: &mut [u8],
    disk: &mut [u8],
) -> Back {
    let after = recover_whole(run.state, z, set, flash, spare, disk);
    let read = read_all(after.state, z, run.plain, flash, spare, disk);
    let run = Run {
        state: read.state,
        ..run
    };
    let again = kept_again(run, z, flash, spare, disk);
    Back {
        stores: after.stores,
        torn: after.torn,
        spoiled: 0,
        kept: read.same & again,
    }
}
