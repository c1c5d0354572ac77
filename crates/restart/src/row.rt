// A call of a list, made on lent areas: its length is given in pages and bytes, for chips of several sizes.
ghost use Rattle.std.specs.Prelude.{◌≤◌};

use model::Sizes;
use outcome::Outcome;
use state::State;

// The most bytes that a call of a list reads or writes.
pub const MOST: usize = 64;

// What a read or a write is of: bytes of a back-end bucket from an offset on, as many as some pages and bytes have.
#[derive(Clone, Copy)]
pub struct Part {
    pub back: u8,
    pub offset: u8,
    pub pages: u8,
    pub bytes: u8,
}

#[derive(Clone, Copy)]
pub enum Call {
    Format,
    Read(Part),
    Write(Part),
    EraseStep,
    Drain,
}

impl Call {
    pub fn read(back: u8, offset: u8, pages: u8, bytes: u8) -> Call {
        Call::Read(Part {
            back,
            offset,
            pages,
            bytes,
        })
    }

    pub fn write(back: u8, offset: u8, pages: u8, bytes: u8) -> Call {
        Call::Write(Part {
            back,
            offset,
            pages,
            bytes,
        })
    }

    // How many bytes it reads or writes.
    pub fn length(self, z: Sizes) -> usize
        ensures { result ≤ 64 }
    {
        match self {
            Call::Read(part) | Call::Write(part) => {
                length_of(z, usize::from(part.pages), usize::from(part.bytes))
            }
            _ => 0,
        }
    }
}

// The bytes that call i of a list writes; a read finds them in its buffer.
pub fn data_of(i: usize) -> [u8; MOST] {
    let mut bytes = [0u8; MOST];
    for (k, byte) in bytes.iter_mut().enumerate() {
        *byte = ((i % 256 * 37 + k) % 256) as u8;
    }
    bytes
}

// The length of so many pages and bytes, cut to the bytes of a call's data.
pub fn length_of(z: Sizes, pages: usize, bytes: usize) -> usize
    ensures { result ≤ 64 }
{
    (pages.min(MOST) * z.s.min(MOST) + bytes.min(MOST)).min(MOST)
}

pub fn make(
    s: State,
    z: Sizes,
    call: Call,
    allowance: usize,
    bytes: &mut [u8],
    flash: &mut [u8],
    spare: &mut [u8],
    disk: &mut [u8],
) -> Outcome {
    match call {
        Call::Format => format::format(s, z, allowance, flash, spare, disk),
        Call::Read(part) => read::read(
            s,
            u16::from(part.back),
            usize::from(part.offset),
            bytes,
            allowance,
            flash,
            spare,
            disk,
        ),
        Call::Write(part) => write::write(
            s,
            u16::from(part.back),
            usize::from(part.offset),
            bytes,
            allowance,
            flash,
            spare,
            disk,
        ),
        Call::EraseStep => erasestep::erase_step(s, allowance, flash, spare, disk),
        Call::Drain => drain::drain(s, allowance, flash, spare, disk),
    }
}
