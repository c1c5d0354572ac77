// Numbers among the bytes of a line's fields, high byte first; 0 where there are no more.
ghost use Rattle.std.specs.Prelude.{◌≡◌, ◌<◌, get_or};
ghost use Rattle.model.specs.Spare.{two, four};

pub fn byte_at(fields: &[u8], at: usize) -> usize
    ensures { (result ≡ get_or fields.now at 0) × (result < 256) }
{
    usize::from(fields.get(at).copied().unwrap_or(0))
}

pub fn number_at(fields: &[u8], at: usize) -> usize
    ensures { (result ≡ two fields.now at) × (result < 65536) }
{
    if at < fields.len() {
        let high = byte_at(fields, at);
        let low = byte_at(fields, at + 1);
        high * 256 + low
    } else {
        0
    }
}

// The number that the first four bytes say.
pub fn long_number(fields: &[u8]) -> usize
    ensures { result ≡ four fields.now 0 }
{
    let high = number_at(fields, 0);
    let low = number_at(fields, 2);
    high * 65536 + low
}
