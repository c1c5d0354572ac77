// Bytes in lent areas: copied over a part, or filled into it. Every store of bytes goes through here.
#![tactic(auto)]

ghost use Rattle.std.specs.Prelude.{◌≡◌, ◌⊎◌, ◌+◌, ◌≤◌, length, replicate};
ghost use Rattle.lists.specs.Lists.{part, splice};

// Copies the source over the whole area.
pub fn copy_over(area: &mut [u8], source: &[u8])
    requires { length source.now ≡ length area.old }
    ensures { area.new ≡ source.now }
{
    area.copy_from_slice(source);
}

// Fills the whole area with one byte.
pub fn fill(area: &mut [u8], byte: u8)
    ensures { area.new ≡ replicate (length area.old) byte }
{
    area.fill(byte);
}

// Copies the source into the area, from an index on.
pub fn write_at(area: &mut [u8], at: usize, source: &[u8])
    requires { at + length source.now ≤ length area.old }
    ensures { area.new ≡ splice area.old at source.now }
{
    let end = at + source.len();
    copy_over(&mut area[at..end], source);
}

// Fills so many bytes of the area, from an index on, with one byte.
pub fn fill_at(area: &mut [u8], at: usize, count: usize, byte: u8)
    requires { at + count ≤ length area.old }
    ensures { area.new ≡ splice area.old at (replicate count byte) }
{
    let end = at + count;
    fill(&mut area[at..end], byte);
}

// Copies a part of the area over another part that it does not meet.
pub fn move_within(area: &mut [u8], from: usize, to: usize, count: usize)
    requires count_in_bounds { from + count ≤ length area.old }
    requires count_in_bounds_2 { to + count ≤ length area.old }
    requires fact { (from + count ≤ to) ⊎ (to + count ≤ from) }
    ensures { area.new ≡ splice area.old to (part area.old from count) }
{
    area.copy_within(from..from + count, to);
}
