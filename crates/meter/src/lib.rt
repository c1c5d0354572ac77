// The allowance of stores: each store is counted, and made only while the allowance has one left.
#![tactic(auto)]

ghost use Rattle.std.specs.Prelude.{◌≡◌, false, ◌<◌};
ghost use Rattle.model.specs.Stores.{erase};
ghost use Rattle.device.specs.Made.{made, Placed};
ghost use Rattle.meter.specs.Run.{allowed, spent, step};
ghost use Rattle.meter.specs.Lent.{run_of, LentTo, Stays};

use device::Store;
use model::Sizes;

#[derive(Clone, Copy)]
pub struct Meter {
    pub left: usize,
    pub cut: bool,
}

impl Meter {
    // The whole allowance, nothing made of it yet.
    pub fn whole(allowance: usize) -> Meter
        ensures { result ≡ record { left = allowance; cut = false } }
    {
        Meter {
            left: allowance,
            cut: false,
        }
    }
}

// An operation under way: chip and disk as they are lent to it, and what is left of its allowance.
#[derive(Drop)]
pub struct Run<'a> {
    pub flash: &'a mut [u8],
    pub spare: &'a mut [u8],
    pub disk: &'a mut [u8],
    pub meter: Meter,
}

impl<'a> Run<'a> {
    // After a cut an operation goes on asking, and nothing more is made.
    // Laid into its callers, where the kind of store is known: a format makes an erase for each bucket of the chip.
    #[inline(always)]
    pub fn store(&mut self, what: Store, z: Sizes, data: &[u8], tag: &[u8; 16])
        requires lent { LentTo z self.old }
        requires placed { Placed z (made what «data».now tag.now) }
        ensures after { run_of self.new ≡ step z (made what «data».now tag.now) (run_of self.old) }
        ensures stays { Stays z self.old self.new }
    {
        if self.meter.left == 0 {
            self.meter.cut = true;
            return;
        }
        device::carry_out(what, z, data, tag, self.flash, self.spare, self.disk);
        self.meter.left -= 1;
    }

    // The data bytes of the chip, to be looked at.
    pub fn flash(&self) -> &[u8]
        ensures { result.now ≡ self.now.flash.now }
    {
        self.flash
    }

    // Its spare area.
    pub fn spare(&self) -> &[u8]
        ensures { result.now ≡ self.now.spare.now }
    {
        self.spare
    }

    // Erases a bucket of the chip.
    #[inline(always)]
    pub fn erase(&mut self, z: Sizes, bucket: usize)
        requires lent { LentTo z self.old }
        requires bucket_lt_c { bucket < z.c }
        ensures after { run_of self.new ≡ step z (erase bucket) (run_of self.old) }
        ensures stays { Stays z self.old self.new }
    {
        self.store(Store::Erase { bucket }, z, &[0; 1], &[0; 16]);
    }
}

// How many of n stores in a row the allowance lets be made. Code that makes them at one go relies on the law `row_run` of `proofs/Runs`.
pub fn allowed(meter: Meter, n: usize) -> usize
    ensures { result ≡ allowed n meter }
{
    meter.left.min(n)
}

// The allowance once they were made, and the rest of the n asked for.
pub fn spent(meter: Meter, n: usize) -> Meter
    ensures { result ≡ spent n meter }
{
    Meter {
        left: meter.left.saturating_sub(n),
        cut: meter.cut | (meter.left < n),
    }
}
