// The sizes of the chips.
ghost use Rattle.std.specs.Prelude.{◌≡◌, ◌≤◌};
ghost use Rattle.model.specs.Sizes.{bucket_size};
ghost use Rattle.model.proofs.Limits.{Limits};

use model::Sizes;

fn chip(s: usize, p: usize, c: usize, b: usize, r: usize, w: usize) -> Sizes {
    Sizes { s, p, c, b, r, w }
}

pub fn chips() -> [Sizes; 10] {
    [
        chip(4, 1, 5, 1, 1, 1),
        chip(5, 1, 9, 2, 1, 2),
        chip(4, 2, 8, 3, 1, 2),
        chip(7, 3, 12, 3, 2, 1),
        chip(5, 8, 16, 3, 2, 3),
        chip(16, 4, 12, 4, 1, 2),
        chip(13, 16, 16, 2, 2, 2),
        chip(64, 8, 10, 3, 1, 2),
        chip(1024, 2, 6, 2, 1, 1),
        chip(64, 64, 8, 2, 1, 2),
    ]
}

// The bytes of a bucket.
pub fn bucket(z: Sizes) -> usize
    requires { Limits z }
    ensures { (result ≡ bucket_size z) × (1 ≤ result) × (result ≤ 65536) }
{
    z.p * z.s
}
