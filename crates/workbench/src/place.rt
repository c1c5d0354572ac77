// Where a line's page stands among those of the chip, and its unit among those of the disk.
ghost use Rattle.std.specs.Prelude.{◌+◌, ◌*◌, ◌<◌, ◌≤◌, IfSome};
ghost use Rattle.calls.specs.Arrays.{Held};

use crate::fields;
use model::Sizes;

// The refusal where there is no such place.
pub const NO_PLACE: u8 = 6;

// The number among all, if there is such a place.
// Fields: bucket (2), page or unit (1), one of `parts` in one of so many buckets.
fn place_of(fields: &[u8], buckets: usize, parts: usize) -> Option<usize>
    requires { (1 ≤ buckets) × (1 ≤ parts) × (parts ≤ 64) }
    ensures { IfSome result (λ number. number < buckets * parts) }
{
    let bucket = fields::number_at(fields, 0);
    let part = fields::byte_at(fields, 2);
    if bucket < buckets && part < parts {
        Some(bucket * parts + part)
    } else {
        None
    }
}

pub fn page(z: Sizes, fields: &[u8]) -> Option<usize>
    requires { Held z }
    ensures { IfSome result (λ number. (number * 16 + 16 ≤ 32768) × (number * z.s + z.s ≤ 32768)) }
{
    place_of(fields, z.c, z.p)
}

pub fn unit(z: Sizes, fields: &[u8]) -> Option<usize>
    requires { Held z }
    ensures { IfSome result (λ number. number * z.s + z.s ≤ 16384) }
{
    place_of(fields, z.b, z.p)
}
