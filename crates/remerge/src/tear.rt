// What a cut leaves of the store that came next: an erase stopped halfway took some pages of its bucket, or the page of a program is spoiled.
ghost use Rattle.std.specs.Prelude.{◌≡◌, ◌<◌, length};
ghost use Rattle.model.specs.Sizes.{flash_size};
ghost use Rattle.image.specs.Chip.{Chip};

use crate::tally::Tally;
use crate::{random, spoil};
use model::Sizes;

// Page k of bucket c is blank.
fn blank_page(z: Sizes, c: usize, k: usize, flash: &mut [u8], spare: &mut [u8])
    requires chip { Chip z spare.old }
    requires flash_len { length flash.old ≡ flash_size z }
    requires c_lt_c { (c < z.c) × (k < z.p) }
{
    let page = c * z.p + k;
    let data = page * z.s;
    let data_end = data + z.s;
    flash[data..data_end].fill(255);
    let tag = page * 16;
    let tag_end = tag + 16;
    spare[tag..tag_end].fill(255);
}

// Some pages of bucket c are blank. Returns whether one of them was programmed.
fn tear_bucket(z: Sizes, c: usize, seed: u32, flash: &mut [u8], spare: &mut [u8]) -> bool
    requires chip { Chip z spare.old }
    requires flash_len { length flash.old ≡ flash_size z }
    requires c_lt_c { c < z.c }
{
    let mut lost = false;
    let mut s = seed;
    for k in 0..z.p {
        s = random::next(s);
        if random::below(s, 2) == 1 {
            lost = lost | !image::page_blank(z, c, k, spare);
            blank_page(z, c, k, flash, spare);
        }
    }
    lost
}

// At most one of the buckets that the ledger names has a page. Returns how many lost one.
fn tear_named(z: Sizes, seed: u32, flash: &mut [u8], spare: &mut [u8]) -> usize
    requires chip { Chip z spare.old }
    requires flash_len { length flash.old ≡ flash_size z }
{
    let end = geometry::body(z);
    let marks = ledger::named(z, spare);
    let mut count: usize = 0;
    for c in 0..end {
        if marks[c] {
            let lost = tear_bucket(z, c, seed, flash, spare);
            count = count.wrapping_add(usize::from(lost));
        }
    }
    count
}

// The erase that came next is torn; where none did, the page of a program may be spoiled.
fn damage(z: Sizes, seed: u32, flash: &mut [u8], spare: &mut [u8]) -> Tally
    requires chip { Chip z spare.old }
    requires flash_len { length flash.old ≡ flash_size z }
{
    let torn = tear_named(z, seed, flash, spare);
    let spoiled = if torn == 0 {
        spoil::spoil_some(z, seed, flash, spare)
    } else {
        0
    };
    Tally {
        torn,
        spoiled,
        ..Tally::default()
    }
}

// While both ledger buckets are in use, what came next may be an erase of one of theirs, and nothing is done.
pub fn after_call(
    cut: bool,
    z: Sizes,
    seed: u32,
    flash: &mut [u8],
    spare: &mut [u8],
    disk: &[u8],
) -> Tally {
    if !cut {
        return Tally::default();
    }
    if geometry::check_lent(z, flash, spare, disk).is_err() {
        return Tally::default();
    }
    if !ledger::one_in_use(z, spare) {
        return Tally::default();
    }
    damage(z, seed, flash, spare)
}
