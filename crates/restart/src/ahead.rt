// A look ahead: what one store more of a recovery would leave, on a copy of chip and disk.
use crate::pages;
use crate::pages::PAGES;
use model::Sizes;
use state::State;

// No area of the program's chips is longer.
const LONGEST: usize = 768;

fn copied(area: &[u8]) -> [u8; LONGEST] {
    let end = area.len().min(LONGEST);
    let mut copy = [0u8; LONGEST];
    copy[..end].copy_from_slice(&area[..end]);
    copy
}

// The blank pages after a recovery with its allowance.
pub fn blanks_after(
    s: State,
    z: Sizes,
    allowance: usize,
    flash: &[u8],
    spare: &[u8],
    disk: &[u8],
) -> [bool; PAGES] {
    let mut data = copied(flash);
    let mut tags = copied(spare);
    let mut units = copied(disk);
    let data = &mut data[..flash.len().min(LONGEST)];
    let tags = &mut tags[..spare.len().min(LONGEST)];
    let units = &mut units[..disk.len().min(LONGEST)];
    recover::recover(s, z, allowance, data, tags, units);
    pages::blanks(tags)
}
