// The units of a back-end bucket. Their bytes are laid in place on the disk by the code that has them, all at one go: the laws of `proofs/Spliced` say
// that this is the run of unit stores, one by one in rising order, cut where the allowance ends.
#![tactic(auto)]

ghost use Rattle.std.specs.Prelude.{◌≡◌, ◌+◌, ◌*◌, ◌<◌};
ghost use Rattle.model.specs.Sizes.{bucket_size};
ghost use Rattle.model.proofs.Limits.{Limits};
ghost use Rattle.meter.specs.Run.{allowed};

use device::Store;
use meter::Meter;
use model::Sizes;
use std::ops::Range;

// The part of the disk for those units of the back-end bucket b that the allowance lets be made: from its first unit on.
pub fn place(meter: Meter, z: Sizes, b: usize) -> Range<usize>
    requires { Limits z × (b < z.b) }
    ensures { result ≡ record { start = b * bucket_size z; end = b * bucket_size z + allowed z.p meter * z.s } }
{
    let first = Store::Unit { index: b * z.p };
    let start = device::begins(first, z);
    let end = start + meter::allowed(meter, z.p) * z.s;
    start..end
}
