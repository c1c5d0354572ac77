// The three kinds of store, each made wholly on the lent areas.
#![tactic(auto)]

ghost use Rattle.std.specs.Prelude.{◌≡◌, ◌*◌, ◌<◌, length};
ghost use Rattle.lists.specs.Lists.{splice, ff};
ghost use Rattle.model.specs.Sizes.{page_index, bucket_size, flash_size, spare_size, disk_size};
ghost use Rattle.model.specs.Stores.{apply};
ghost use Rattle.model.proofs.Limits.{Limits};
ghost use Rattle.geometry.specs.Geometry.{device, Lent};
ghost use Rattle.device.specs.Made.{made, Placed, begins_at, Names};

use model::Sizes;

#[derive(Clone, Copy)]
pub enum Store {
    Program { bucket: usize, page: usize },
    Erase { bucket: usize },
    Unit { index: usize },
}

// Writes a page's own parts of the chip: its S bytes and its 16 spare bytes.
fn write_page(page: &mut [u8], spare: &mut [u8], data: &[u8], tag: &[u8; 16])
    requires { (length «data».now ≡ length page.old) × (length spare.old ≡ 16) }
    ensures page_after { page.new ≡ «data».now }
    ensures spare_after { spare.new ≡ tag.now }
{
    area::copy_over(page, data);
    area::copy_over(spare, tag);
}

// The page's parts, from the middle of the lent flash and of the spare area, are lent on to be written.
fn program(
    z: Sizes,
    bucket: usize,
    page: usize,
    data: &[u8],
    tag: &[u8; 16],
    flash: &mut [u8],
    spare: &mut [u8],
)
    requires flash_len { (length flash.old ≡ flash_size z) × (length spare.old ≡ spare_size z) }
    requires bucket_lt_c { (bucket < z.c) × (page < z.p) × (length «data».now ≡ z.s) }
    ensures flash_after { flash.new ≡ splice flash.old (page_index z bucket page * z.s) «data».now }
    ensures spare_after { spare.new ≡ splice spare.old (page_index z bucket page * 16) tag.now }
{
    let index = bucket * z.p + page;
    let at = index * z.s;
    let end = at + z.s;
    let spare_at = index * 16;
    let spare_end = spare_at + 16;
    write_page(
        &mut flash[at..end],
        &mut spare[spare_at..spare_end],
        data,
        tag,
    );
}

// All data and spare bytes of the bucket are FF.
fn erase(z: Sizes, bucket: usize, flash: &mut [u8], spare: &mut [u8])
    requires { (length flash.old ≡ flash_size z) × (length spare.old ≡ spare_size z) × (bucket < z.c) }
    ensures flash_after { flash.new ≡ splice flash.old (bucket * bucket_size z) (ff (bucket_size z)) }
    ensures spare_after { spare.new ≡ splice spare.old (bucket * z.p * 16) (ff (z.p * 16)) }
{
    let size = z.p * z.s;
    area::fill_at(flash, bucket * size, size, 255);
    area::fill_at(spare, bucket * z.p * 16, z.p * 16, 255);
}

fn write_unit(z: Sizes, index: usize, data: &[u8], disk: &mut [u8])
    requires { (length disk.old ≡ disk_size z) × (index < z.b * z.p) × (length «data».now ≡ z.s) }
    ensures { disk.new ≡ splice disk.old (index * z.s) «data».now }
{
    area::write_at(disk, index * z.s, data);
}

// Makes a store. A program takes data and tag, a unit the data alone, an erase neither.
#[inline(always)]
pub fn carry_out(
    what: Store,
    z: Sizes,
    data: &[u8],
    tag: &[u8; 16],
    flash: &mut [u8],
    spare: &mut [u8],
    disk: &mut [u8],
)
    requires lent { Lent z flash.old spare.old disk.old }
    requires placed { Placed z (made what «data».now tag.now) }
    ensures disk_after { device flash.new spare.new disk.new ≡ apply z (device flash.old spare.old disk.old) (made what «data».now tag.now) }
    ensures lent_2 { Lent z flash.new spare.new disk.new }
{
    match what {
        Store::Program { bucket, page } => program(z, bucket, page, data, tag, flash, spare),
        Store::Erase { bucket } => erase(z, bucket, flash, spare),
        Store::Unit { index } => write_unit(z, index, data, disk),
    }
}

// Where the bytes of a store begin, for code that lays those of many in a row there itself.
pub fn begins(what: Store, z: Sizes) -> usize
    requires { Limits z × Names z what }
    ensures { result ≡ begins_at z what }
{
    match what {
        Store::Program { bucket, page } => (bucket * z.p + page) * z.s,
        Store::Erase { bucket } => bucket * (z.p * z.s),
        Store::Unit { index } => index * z.s,
    }
}
