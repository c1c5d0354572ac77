// The old merge: the bytes under the logs are copied into the window, and the logs over them, one after the other.
ghost use Rattle.std.specs.Prelude.{◌≡◌, ◌+◌, ◌<◌, ◌≤◌, true, length};
ghost use Rattle.lists.specs.Lists.{all};
ghost use Rattle.model.specs.Sizes.{bucket_size, body};
ghost use Rattle.model.specs.State.{is_below};
ghost use Rattle.overlay.specs.Window.{Readable};

use crate::sizes;
use model::Sizes;

pub fn lay_over(z: Sizes, list: &[u8], from: usize, flash: &[u8], spare: &[u8], window: &mut [u8])
    requires readable { Readable z flash.now spare.now }
    requires list_value { all (is_below (body z)) list.now ≡ true }
    requires window_bound { from + length window.old ≤ bucket_size z }
{
    for c in list {
        merge::merge_range(z, usize::from(*c), from, flash, spare, window);
    }
}

// The window comes to show a part of the bytes.
pub fn show(bytes: &[u8], from: usize, window: &mut [u8])
    requires { from + length window.old ≤ length bytes.now }
{
    let end = from + window.len();
    window.copy_from_slice(&bytes[from..end]);
}

pub fn lay_out(
    z: Sizes,
    list: &[u8],
    from: usize,
    flash: &[u8],
    spare: &[u8],
    under: &[u8],
    window: &mut [u8],
)
    requires readable { Readable z flash.now spare.now }
    requires list_value { all (is_below (body z)) list.now ≡ true }
    requires under_len { length under.now ≡ bucket_size z }
    requires window_bound { from + length window.old ≤ bucket_size z }
{
    show(under, from, window);
    lay_over(z, list, from, flash, spare, window);
}

// The chip with the first n bytes laid in the cache bucket `target`.
pub fn lay_within(
    z: Sizes,
    list: &[u8],
    under: &[u8],
    target: usize,
    n: usize,
    flash: &[u8],
    spare: &[u8],
    chip: &mut [u8],
)
    requires readable { Readable z flash.now spare.now }
    requires list_value { all (is_below (body z)) list.now ≡ true }
    requires under_len { length under.now ≡ bucket_size z }
    requires target_lt_c { (target < z.c) × (n ≤ bucket_size z) }
    requires chip_len { length chip.old ≡ length flash.now }
{
    chip.copy_from_slice(flash);
    let at = target * sizes::bucket(z);
    let end = at + n;
    lay_out(z, list, 0, flash, spare, under, &mut chip[at..end]);
}
