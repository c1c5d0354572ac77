// Windows on the bytes of a back-end bucket, by either merge.
ghost use Rattle.std.specs.Prelude.{◌≡◌, ◌+◌, ◌≤◌, true, length};
ghost use Rattle.lists.specs.Lists.{all};
ghost use Rattle.model.specs.Sizes.{bucket_size, body};
ghost use Rattle.model.specs.State.{is_below};
ghost use Rattle.model.proofs.Limits.{Limits};
ghost use Rattle.overlay.specs.Window.{Readable};

use crate::tally::Tally;
use crate::{old, random, sizes, tally};
use model::Sizes;

// Windows over the same bytes.
const WINDOWS: usize = 6;

#[derive(Clone, Copy)]
pub struct Window {
    pub from: usize,
    pub length: usize,
}

// The whole bucket, one byte, or some part.
pub fn window_of(z: Sizes, i: usize, seed: u32) -> Window
    requires { Limits z }
    ensures { (result.from + result.length ≤ bucket_size z) × (result.length ≤ 4096) }
{
    let size = sizes::bucket(z);
    let from = random::below(seed, size);
    let some = random::below(random::next(seed), size - from) + 1;
    match i {
        0 => Window {
            from: 0,
            length: size.min(4096),
        },
        1 => Window { from, length: 1 },
        _ => Window {
            from,
            length: some.min(4096),
        },
    }
}

// A window by either merge: laid out, and then over the bytes that it shows.
fn compare_lent(
    z: Sizes,
    list: &[u8],
    from: usize,
    flash: &[u8],
    spare: &[u8],
    under: &[u8],
    one: &mut [u8],
    other: &mut [u8],
) -> Tally
    requires readable { Readable z flash.now spare.now }
    requires list_value { all (is_below (body z)) list.now ≡ true }
    requires under_len { length under.now ≡ bucket_size z }
    requires one_bound { from + length one.old ≤ bucket_size z }
    requires other_len { length other.old ≡ length one.old }
{
    old::lay_out(z, list, from, flash, spare, under, one);
    overlay::lay_out(z, list, from, flash, spare, under, other);
    let out = tally::compared(list.len(), one, other);
    old::show(under, from, other);
    overlay::lay_over(z, list, from, flash, spare, other);
    let over = tally::compared(list.len(), one, other);
    out.and(over)
}

fn compare_window(
    z: Sizes,
    list: &[u8],
    window: Window,
    flash: &[u8],
    spare: &[u8],
    under: &[u8],
) -> Tally
    requires readable { Readable z flash.now spare.now }
    requires list_value { all (is_below (body z)) list.now ≡ true }
    requires under_len { length under.now ≡ bucket_size z }
    requires length_bound { (window.from + window.length ≤ bucket_size z) × (window.length ≤ 4096) }
{
    let mut one = [0u8; 4096];
    let mut other = [0u8; 4096];
    let n = window.length;
    compare_lent(
        z,
        list,
        window.from,
        flash,
        spare,
        under,
        &mut one[..n],
        &mut other[..n],
    )
}

// Every window over the same bytes.
pub fn compare_windows(
    z: Sizes,
    list: &[u8],
    seed: u32,
    flash: &[u8],
    spare: &[u8],
    under: &[u8],
) -> Tally
    requires readable { Readable z flash.now spare.now }
    requires list_value { all (is_below (body z)) list.now ≡ true }
    requires under_len { length under.now ≡ bucket_size z }
{
    let mut tally = Tally::default();
    let mut s = seed;
    for i in 0..WINDOWS {
        s = random::next(s);
        let one = compare_window(z, list, window_of(z, i, s), flash, spare, under);
        tally = tally.and(one);
    }
    tally
}
