// Numbers 1 and 2 of the table: the limits of the sizes, and the lengths of the lent areas.
#![tactic(auto)]

ghost use Rattle.std.specs.Prelude.{◌≡◌, [], ◌∷◌, ◌+◌, ◌≤◌, leb};
ghost use Rattle.lists.specs.Lists.{every, within};
ghost use Rattle.model.specs.Sizes.{limits, body, pages_for};
ghost use Rattle.model.specs.Tests.{first_failed, number};
ghost use Rattle.model.specs.Calls.{lent_tests};
ghost use Rattle.model.specs.Mail.{chip_lengths, chip_tests};
ghost use Rattle.model.proofs.Limits.{Limits};
ghost use Rattle.geometry.specs.Geometry.{device};

use model::{Refusal, Sizes};

fn within(low: usize, high: usize, n: usize) -> bool
    ensures { result ≡ within low high n }
{
    (low <= n) & (n <= high)
}

// R + W is added up only where both are within their limits: the sum then fits.
fn queues_within(z: Sizes) -> bool
    ensures { result ≡ every (within 1 64 z.r ∷ within 1 64 z.w ∷ leb (z.r + z.w + 3) z.c ∷ []) }
{
    within(1, 64, z.r) && within(1, 64, z.w) && z.r + z.w + 3 <= z.c
}

// Number 1.
pub fn limits(z: Sizes) -> bool
    ensures { result ≡ limits z }
{
    within(4, 1024, z.s)
        & (within(1, 64, z.p) & (within(3, 256, z.c) & (within(1, 65535, z.b) & queues_within(z))))
}

// The cache buckets that stand in queues: all but the ledger's two.
pub fn body(z: Sizes) -> usize
    ensures { result ≡ body z }
{
    if z.c < 2 { 0 } else { z.c - 2 }
}

// Number 2 of a chip without its disk, once number 1 is passed: the limits keep the products within the machine's numbers.
fn chip_lengths(z: Sizes, flash: &[u8], spare: &[u8]) -> bool
    requires { Limits z }
    ensures { result ≡ chip_lengths z (device flash.now spare.now []) }
{
    (flash.len() == z.c * (z.p * z.s)) & (spare.len() == z.c * z.p * 16)
}

// Numbers 1 and 2 of an entry that is lent the chip alone.
pub fn check_chip(z: Sizes, flash: &[u8], spare: &[u8]) -> Result<(), Refusal>
    ensures { number result ≡ first_failed (chip_tests z (device flash.now spare.now [])) }
{
    if !limits(z) {
        return Err(Refusal::Limits);
    }
    if !chip_lengths(z, flash, spare) {
        return Err(Refusal::Lengths);
    }
    Ok(())
}

// Numbers 1 and 2 of chip and disk.
pub fn check_lent(z: Sizes, flash: &[u8], spare: &[u8], disk: &[u8]) -> Result<(), Refusal>
    ensures { number result ≡ first_failed (lent_tests z (device flash.now spare.now disk.now)) }
{
    check_chip(z, flash, spare)?;
    if disk.len() != z.b * (z.p * z.s) {
        return Err(Refusal::Lengths);
    }
    Ok(())
}

// The pages that a log of n bytes takes, where n is at most a bucket's.
pub fn pages_for(z: Sizes, n: usize) -> usize
    requires { Limits z × (n ≤ 65536) }
    ensures { result ≡ pages_for z n }
{
    (n + z.s - 1) / z.s
}
