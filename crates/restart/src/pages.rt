// The pages of the program's chips: which are blank, what one holds, and other bytes put there.
ghost use Rattle.std.specs.Prelude.{◌<◌, ◌≤◌, length, IfSome};

use model::Sizes;

// No chip of the program has more pages.
pub const PAGES: usize = 48;

// The spare bytes of a page and its data bytes, as many as the longest page has.
#[derive(Clone, Copy)]
pub struct Page {
    pub tag: [u8; 16],
    pub data: [u8; 16],
}

impl Page {
    // All bytes are the same.
    pub fn filled(byte: u8) -> Page {
        Page {
            tag: [byte; 16],
            data: [byte; 16],
        }
    }
}

// The pages of a bucket.
pub fn in_bucket(z: Sizes) -> usize
    ensures { (1 ≤ result) × (result ≤ 4) }
{
    z.p.clamp(1, 4)
}

// The data bytes of a page.
fn data_bytes(z: Sizes) -> usize
    ensures { result ≤ 16 }
{
    z.s.min(16)
}

// The sixteen bytes from an index on; behind the end of the area all are FF.
fn sixteen(area: &[u8], at: usize) -> [u8; 16] {
    let mut bytes = [255u8; 16];
    for (byte, held) in bytes.iter_mut().zip(area.iter().skip(at)) {
        *byte = *held;
    }
    bytes
}

// What a page holds.
pub fn page_at(z: Sizes, page: usize, flash: &[u8], spare: &[u8]) -> Page
    requires { page ≤ 64 }
{
    Page {
        tag: sixteen(spare, page * 16),
        data: sixteen(flash, page * data_bytes(z)),
    }
}

// Which pages are blank.
pub fn blanks(spare: &[u8]) -> [bool; PAGES] {
    let mut blank = [false; PAGES];
    for page in 0..PAGES {
        blank[page] = sixteen(spare, page * 16) == [255; 16];
    }
    blank
}

// The first page that is blank in one and not in the other.
pub fn first_blank(one: [bool; PAGES], other: [bool; PAGES]) -> Option<usize>
    ensures { IfSome result (λ page. page < PAGES) }
{
    one.iter()
        .zip(other.iter())
        .position(|(one, other)| *one & !*other)
}

// Copies the bytes into the area from an index on, if it has the place.
fn put_part(area: &mut [u8], at: usize, bytes: &[u8])
    requires { (at ≤ 1024) × (length bytes.now ≤ 16) }
{
    let end = at + bytes.len();
    if end <= area.len() {
        area[at..end].copy_from_slice(bytes);
    }
}

// The page comes to hold these bytes.
pub fn put(z: Sizes, page: usize, content: Page, flash: &mut [u8], spare: &mut [u8])
    requires { page ≤ 64 }
{
    let n = data_bytes(z);
    put_part(flash, page * n, &content.data[..n]);
    put_part(spare, page * 16, &content.tag);
}
