// Programs that a cut spoils: spare state 0, and any other bytes.
ghost use Rattle.std.specs.Prelude.{◌≡◌, ◌<◌, length, IfSome};
ghost use Rattle.model.specs.Sizes.{flash_size};
ghost use Rattle.image.specs.Chip.{Chip};

use crate::random;
use model::Sizes;

// Page k of bucket c is spoiled.
fn spoil_page(z: Sizes, c: usize, k: usize, seed: u32, flash: &mut [u8], spare: &mut [u8])
    requires chip { Chip z spare.old }
    requires flash_len { length flash.old ≡ flash_size z }
    requires c_lt_c { (c < z.c) × (k < z.p) }
{
    let page = c * z.p + k;
    let data = page * z.s;
    let data_end = data + z.s;
    random::fill(seed, &mut flash[data..data_end]);
    let tag = page * 16;
    let tag_end = tag + 16;
    random::fill(random::next(seed), &mut spare[tag..tag_end]);
    spare[tag] = 0;
}

// The first blank page of bucket c.
fn first_blank(z: Sizes, c: usize, spare: &[u8]) -> Option<usize>
    requires chip { Chip z spare.now }
    requires c_lt_c { c < z.c }
    ensures { IfSome result (λ k. k < z.p) }
{
    for k in 0..z.p {
        if image::page_blank(z, c, k, spare) {
            return Some(k);
        }
    }
    None
}

// The first blank page of bucket c, if a log or a copy may go there: it is a Write bucket's, or the bucket has none before it.
fn next_page(z: Sizes, c: usize, spare: &[u8]) -> Option<usize>
    requires chip { Chip z spare.now }
    requires c_lt_c { c < z.c }
    ensures { IfSome result (λ k. k < z.p) }
{
    let k = first_blank(z, c, spare)?;
    if (k == 0) | image::is_write(z, c, spare) {
        Some(k)
    } else {
        None
    }
}

// In one case of two that page is spoiled, in some bucket outside the ledger. Returns how many were.
pub fn spoil_some(z: Sizes, seed: u32, flash: &mut [u8], spare: &mut [u8]) -> usize
    requires chip { Chip z spare.old }
    requires flash_len { length flash.old ≡ flash_size z }
{
    let second = random::next(seed);
    let third = random::next(second);
    if random::below(second, 2) == 0 {
        return 0;
    }
    let c = random::below(third, geometry::body(z));
    let Some(k) = next_page(z, c, spare) else {
        return 0;
    };
    spoil_page(z, c, k, third, flash, spare);
    1
}
