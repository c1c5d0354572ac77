// A cache bucket of the chip that comes to hold the bytes of a back-end bucket, by either merge.
ghost use Rattle.std.specs.Prelude.{◌≡◌, ◌<◌, true, ◌⊎◌, length};
ghost use Rattle.lists.specs.Lists.{all};
ghost use Rattle.model.specs.Sizes.{bucket_size, body};
ghost use Rattle.model.specs.State.{is_below};
ghost use Rattle.overlay.specs.Window.{Readable};
ghost use Rattle.remerge.specs.Placed.{Placed};

use crate::tally::Tally;
use crate::{listed, old, random, tally, windows};
use model::Sizes;

// Flashes of at most so many bytes are copied.
const CHIP: usize = 32768;

// The first bytes of the cache bucket `target`, over those of the cache bucket `base`.
#[derive(Clone, Copy)]
pub struct Place {
    pub base: usize,
    pub target: usize,
    pub length: usize,
}

// A cache bucket of the chip by either merge, on copies of the flash: all bytes are compared.
fn compare_flashes(
    z: Sizes,
    list: &[u8],
    place: Place,
    under: &[u8],
    bytes: &[u8],
    flash: &[u8],
    spare: &[u8],
    one: &mut [u8],
    other: &mut [u8],
) -> Tally
    requires readable { Readable z flash.now spare.now }
    requires list_value { all (is_below (body z)) list.now ≡ true }
    requires bytes_len { length bytes.now ≡ bucket_size z }
    requires placed { Placed z place list.now }
    requires fact { (length under.now ≡ bucket_size z) ⊎ (length under.now ≡ 0) }
    requires one_len { (length one.old ≡ length flash.now) × (length other.old ≡ length flash.now) }
{
    let target = place.target;
    let n = place.length;
    old::lay_within(z, list, bytes, target, n, flash, spare, one);
    other.copy_from_slice(flash);
    overlay::lay_within(z, list, place.base, under, target, n, other, spare);
    tally::compared(list.len(), one, other)
}

fn compare_place(
    z: Sizes,
    list: &[u8],
    place: Place,
    under: &[u8],
    bytes: &[u8],
    flash: &[u8],
    spare: &[u8],
) -> Tally
    requires readable { Readable z flash.now spare.now }
    requires list_value { all (is_below (body z)) list.now ≡ true }
    requires bytes_len { length bytes.now ≡ bucket_size z }
    requires placed { Placed z place list.now }
    requires fact { (length under.now ≡ bucket_size z) ⊎ (length under.now ≡ 0) }
{
    let n = flash.len();
    if CHIP < n {
        return Tally::default();
    }
    let mut one = [0u8; CHIP];
    let mut other = [0u8; CHIP];
    compare_flashes(
        z,
        list,
        place,
        under,
        bytes,
        flash,
        spare,
        &mut one[..n],
        &mut other[..n],
    )
}

// A part of a cache bucket that is not listed, over the bytes of the cache bucket `base`; what lies under the logs is lent, or it is these.
pub fn compare_within(
    z: Sizes,
    list: &[u8],
    base: usize,
    seed: u32,
    under: &[u8],
    bytes: &[u8],
    flash: &[u8],
    spare: &[u8],
) -> Tally
    requires readable { Readable z flash.now spare.now }
    requires list_value { all (is_below (body z)) list.now ≡ true }
    requires bytes_len { (length bytes.now ≡ bucket_size z) × (base < z.c) }
    requires fact { (length under.now ≡ bucket_size z) ⊎ (length under.now ≡ 0) }
{
    let next = random::next(seed);
    let last = random::next(next);
    let part = windows::window_of(z, random::below(last, 3), last);
    let Some(target) = listed::next_unlisted(z, random::below(next, z.c), list) else {
        return Tally::default();
    };
    if target == base {
        return Tally::default();
    }
    let place = Place {
        base,
        target,
        length: part.length,
    };
    compare_place(z, list, place, under, bytes, flash, spare)
}
