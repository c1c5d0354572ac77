// What a call is lent: the parts of the arrays that hold chip and disk, shorter by what a line 17 said.
ghost use Rattle.std.specs.Prelude.{◌≤◌};
ghost use Rattle.calls.specs.Arrays.{Held};

use crate::fields;
use calls::Lengths;
use model::Sizes;

pub fn no_less() -> Lengths {
    Lengths {
        flash: 0,
        spare: 0,
        disk: 0,
    }
}

// Fields: three numbers (2 each).
pub fn less(fields: &[u8]) -> Lengths {
    let flash = fields::number_at(fields, 0);
    let spare = fields::number_at(fields, 2);
    let disk = fields::number_at(fields, 4);
    Lengths { flash, spare, disk }
}

// An area is empty where that is as many bytes as it has, or more.
pub fn lent(z: Sizes, less: Lengths) -> Lengths
    requires { Held z }
    ensures { (result.flash ≤ 32768) × (result.spare ≤ 32768) × (result.disk ≤ 16384) }
{
    let whole = calls::lengths_of(z);
    Lengths {
        flash: whole.flash.saturating_sub(less.flash),
        spare: whole.spare.saturating_sub(less.spare),
        disk: whole.disk.saturating_sub(less.disk),
    }
}
