// Lines 12 and 14: bytes put on the chip and on the disk, as they are. The answer is 0 or the number of the refusal.
ghost use Rattle.std.specs.Prelude.{◌≡◌, ◌+◌, length};
ghost use Rattle.calls.specs.Arrays.{Held};

use crate::place;
use model::Sizes;

// Fields: bucket (2), page (1), spare (16), data (S).
pub fn put_page(z: Sizes, fields: &[u8], flash: &mut [u8], spare: &mut [u8]) -> u8
    requires held { Held z × (length fields.now ≡ 19 + z.s) }
    requires flash_len { (length flash.old ≡ 32768) × (length spare.old ≡ 32768) }
{
    let Some(page) = place::page(z, fields) else {
        return place::NO_PLACE;
    };
    area::write_at(spare, page * 16, &fields[3..19]);
    area::write_at(flash, page * z.s, &fields[19..]);
    model::DONE
}

// Fields: back-end bucket (2), unit (1), data (S).
pub fn put_unit(z: Sizes, fields: &[u8], disk: &mut [u8]) -> u8
    requires { Held z × (length fields.now ≡ 3 + z.s) × (length disk.old ≡ 16384) }
{
    let Some(unit) = place::unit(z, fields) else {
        return place::NO_PLACE;
    };
    area::write_at(disk, unit * z.s, &fields[3..]);
    model::DONE
}
