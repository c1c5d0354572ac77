// The old merge and the new one, on the chip as it is.
ghost use Rattle.std.specs.Prelude.{◌≡◌, ◌+◌, ◌*◌, ◌<◌, ◌≤◌, true, ◌⊎◌, length};
ghost use Rattle.lists.specs.Lists.{all};
ghost use Rattle.model.specs.Sizes.{bucket_size, disk_size, body};
ghost use Rattle.model.specs.State.{is_below};
ghost use Rattle.overlay.specs.Window.{Readable};

use crate::tally::Tally;
use crate::{listed, random, sizes, windows, within};
use model::Sizes;

// The piece number `index` of an area of pieces of so many bytes.
fn piece<'a>(area: &'a [u8], size: usize, index: usize) -> &'a [u8]
    requires { index * size + size ≤ length area.now }
    ensures { length result.now ≡ size }
{
    let at = index * size;
    let end = at + size;
    &area[at..end]
}

// All windows over the same bytes, and a cache bucket.
fn compare_over(
    z: Sizes,
    list: &[u8],
    base: usize,
    seed: u32,
    under: &[u8],
    bytes: &[u8],
    flash: &[u8],
    spare: &[u8],
) -> Tally
    requires readable { Readable z flash.now spare.now }
    requires list_value { all (is_below (body z)) list.now ≡ true }
    requires bytes_len { (length bytes.now ≡ bucket_size z) × (base < z.c) }
    requires fact { (length under.now ≡ bucket_size z) ⊎ (length under.now ≡ 0) }
{
    let shown = windows::compare_windows(z, list, seed, flash, spare, bytes);
    shown.and(within::compare_within(z, list, base, seed, under, bytes, flash, spare))
}

// The listed Write buckets of b over its bytes on the disk, and over those of some cache bucket.
fn compare_listed(
    z: Sizes,
    b: usize,
    list: &[u8],
    seed: u32,
    flash: &[u8],
    spare: &[u8],
    disk: &[u8],
) -> Tally
    requires readable { Readable z flash.now spare.now }
    requires disk_len { length disk.now ≡ disk_size z }
    requires b_lt_b { b < z.b }
    requires list_value { all (is_below (body z)) list.now ≡ true }
{
    let size = sizes::bucket(z);
    let c = random::below(seed, z.c);
    let on_disk = piece(disk, size, b);
    let on_chip = piece(flash, size, c);
    let lent = compare_over(z, list, c, seed, on_disk, on_disk, flash, spare);
    let own = compare_over(z, list, c, seed, &disk[..0], on_chip, flash, spare);
    lent.and(own).and(Tally {
        abandoned: listed::abandoned(z, list, spare),
        ..Tally::default()
    })
}

fn compare_back(z: Sizes, b: usize, seed: u32, flash: &[u8], spare: &[u8], disk: &[u8]) -> Tally
    requires readable { Readable z flash.now spare.now }
    requires disk_len { length disk.now ≡ disk_size z }
    requires b_lt_b { b < z.b }
{
    let found = listed::write_buckets(z, b as u16, spare);
    let n = found.used();
    let list = found.items;
    compare_listed(z, b, &list[..n], seed, flash, spare, disk)
}

fn compare_all(z: Sizes, seed: u32, flash: &[u8], spare: &[u8], disk: &[u8]) -> Tally
    requires readable { Readable z flash.now spare.now }
    requires disk_len { length disk.now ≡ disk_size z }
{
    let mut tally = Tally::default();
    let mut s = seed;
    for b in 0..z.b {
        s = random::next(s);
        tally = tally.and(compare_back(z, b, s, flash, spare, disk));
    }
    tally
}

// Every back-end bucket, if the chip passes numbers 1, 2 and 4.
pub fn compare(z: Sizes, seed: u32, flash: &[u8], spare: &[u8], disk: &[u8]) -> Tally {
    if checks::check_image(z, flash, spare, disk).is_err() {
        return Tally::default();
    }
    compare_all(z, seed, flash, spare, disk)
}
