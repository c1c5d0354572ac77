// The old merge and the new one on the same buckets. Chips of several sizes are made by the engine's calls, by erases that cuts stop halfway and by
// pages that they spoil; after each call the Write buckets of every back-end bucket are merged by either, over the disk's bytes and over a cache
// bucket's, in several windows.
#![tactic(auto)]

mod calls;
mod compare;
mod listed;
mod old;
mod random;
mod sizes;
mod spoil;
mod tally;
mod tear;
mod windows;
mod within;

ghost use Rattle.model.proofs.Limits.{Limits};

use model::Sizes;
use std::io;
use std::io::{Stdout, Write};
use tally::Tally;

// Calls on each chip.
const CALLS: usize = 300;

// The calls; after a cut one an erase is torn or a page spoiled, and after each comes the comparison.
fn compare_chips(z: Sizes, flash: &mut [u8], spare: &mut [u8], disk: &mut [u8]) -> Tally
    requires { Limits z }
{
    let mut tally = Tally::default();
    let mut run = calls::begin(1, z, flash, spare, disk);
    for _ in 0..CALLS {
        run = calls::step(run, z, flash, spare, disk);
        tally = tally.and(tear::after_call(run.cut, z, run.seed, flash, spare, disk));
        tally = tally.and(compare::compare(z, run.seed, flash, spare, disk));
    }
    tally
}

// The chip and the disk are the first parts of areas that are long enough for all sizes.
fn compare_sizes(z: Sizes) -> Tally
    requires { Limits z }
{
    let mut flash = [0u8; 32768];
    let mut spare = [0u8; 8192];
    let mut disk = [0u8; 8192];
    let bucket = sizes::bucket(z);
    let chip = (z.c * bucket).min(32768);
    let tags = (z.c * z.p * 16).min(8192);
    let end = (z.b * bucket).min(8192);
    compare_chips(z, &mut flash[..chip], &mut spare[..tags], &mut disk[..end])
}

// The sizes of a chip, and then what was compared on it. What are no sizes is left out.
fn compare_chip(mut out: Stdout, z: Sizes) -> io::Result<Tally> {
    if !geometry::limits(z) {
        return Ok(Tally::default());
    }
    let Sizes { s, p, c, b, .. } = z;
    write!(out, "S {s} P {p} C {c} B {b}")?;
    let tally = compare_sizes(z);
    writeln!(out, "{tally}")?;
    Ok(tally)
}

fn main(rt: HostRuntime) -> io::Result<()> {
    let mut out = rt.stdout();
    let mut all = Tally::default();
    for z in sizes::chips() {
        all = all.and(compare_chip(out, z)?);
    }
    writeln!(out, "all{all}")
}
