// Chip images by mail, written: a line for each page that is not blank.
#![tactic(auto)]

ghost use Rattle.std.specs.Prelude.{◌≡◌, not, [], ◌∷◌, ◌++◌, ◌+◌, ◌*◌, ◌/◌, ◌%◌, ◌<◌, ◌≤◌, length};
ghost use Rattle.lists.specs.Lists.{count_below, splice, part};
ghost use Rattle.model.specs.Tests.{first_failed, number};
ghost use Rattle.model.specs.Sizes.{flash_size, spare_size};
ghost use Rattle.model.specs.Spare.{blank};
ghost use Rattle.model.specs.Driving.{digits_of};
ghost use Rattle.model.specs.Mail.{is_listed, page_line, text_of, write_tests, write_text};
ghost use Rattle.model.proofs.Limits.{Limits};
ghost use Rattle.geometry.specs.Geometry.{device};
ghost use Rattle.send.specs.Text.{text_written, line_length};

use model::{Answer, Refusal, Sizes};

// The bytes of a frame before the page's data: bucket, page, spare bytes.
const HEAD: usize = 19;

// The text's length is 0 with a refusal.
#[derive(Clone, Copy)]
pub struct Written {
    pub answer: Answer,
    pub length: usize,
}

// The characters of a page's line.
fn line_length(z: Sizes) -> usize
    requires { Limits z }
    ensures { result ≡ line_length z }
{
    (HEAD + z.s) * 2 + 1
}

// Whether a page has a line.
fn is_listed(spare: &[u8], page: usize) -> bool
    requires { page * 16 + 16 ≤ length spare.now }
    ensures { result ≡ not (blank (part spare.now (page * 16) 16)) }
{
    !spare::blank_at(spare, page)
}

// How many pages have a line.
fn listed_pages(z: Sizes, spare: &[u8]) -> usize
    requires { Limits z × (length spare.now ≡ spare_size z) }
    ensures { result ≡ count_below (z.c * z.p) (is_listed z (device [] spare.now [])) }
{
    let pages = z.c * z.p;
    let mut count = 0;
    for page in 0..pages {
        if is_listed(spare, page) {
            count += 1;
        }
    }
    count
}

// The first bytes of a page's frame: its bucket, and its page in it.
fn place_bytes(z: Sizes, page: usize) -> [u8; 3]
    requires { Limits z × (page < z.c * z.p) }
    ensures { result ≡ page / z.p / 256 ∷ page / z.p % 256 ∷ page % z.p ∷ [] }
{
    let [high, low] = ((page / z.p) as u16).to_be_bytes();
    [high, low, (page % z.p) as u8]
}

// A frame's digits and the line feed, from `at` on.
fn put_line(text: &mut [u8], at: usize, place: &[u8], tag: &[u8], bytes: &[u8])
    requires { at + (length place.now + length tag.now + length bytes.now) * 2 + 1 ≤ length text.old }
    ensures { text.new ≡ splice text.old at (digits_of (place.now ++ (tag.now ++ bytes.now)) ++ (10 ∷ [])) }
{
    let tag_at = at + place.len() * 2;
    let bytes_at = tag_at + tag.len() * 2;
    let end = bytes_at + bytes.len() * 2;
    text::put_bytes(text, at, place);
    text::put_bytes(text, tag_at, tag);
    text::put_bytes(text, bytes_at, bytes);
    text[end] = b'\n';
}

// The page's line, from `at` on.
fn put_page(z: Sizes, page: usize, flash: &[u8], spare: &[u8], text: &mut [u8], at: usize)
    requires { Limits z × (length flash.now ≡ flash_size z) × (length spare.now ≡ spare_size z) × (page < z.c * z.p) × (at + line_length z ≤ length text.old) }
    ensures { text.new ≡ splice text.old at (page_line z (device flash.now spare.now []) page) }
{
    let spare_at = page * 16;
    let spare_end = spare_at + 16;
    let data_at = page * z.s;
    let data_end = data_at + z.s;
    let place = place_bytes(z, page);
    put_line(
        text,
        at,
        &place,
        &spare[spare_at..spare_end],
        &flash[data_at..data_end],
    );
}

// The lines of all pages that have one, at the start of the buffer: how many characters they are.
fn put_pages(z: Sizes, flash: &[u8], spare: &[u8], text: &mut [u8]) -> usize
    requires limits { Limits z × (length flash.now ≡ flash_size z) × (length spare.now ≡ spare_size z) }
    requires spare_in_bounds { length (text_of z (device flash.now spare.now [])) ≤ length text.old }
    ensures value { result ≡ length (text_of z (device flash.now spare.now [])) }
    ensures text_after { text.new ≡ splice text.old 0 (text_of z (device flash.now spare.now [])) }
{
    let pages = z.c * z.p;
    let line = line_length(z);
    let mut at = 0;
    for page in 0..pages {
        if is_listed(spare, page) {
            put_page(z, page, flash, spare, text, at);
            at += line;
        }
    }
    at
}

fn check_room(z: Sizes, flash: &[u8], spare: &[u8], room: usize) -> Result<(), Refusal>
    ensures { number result ≡ first_failed (write_tests z (device flash.now spare.now []) room) }
{
    geometry::check_chip(z, flash, spare)?;
    if room < listed_pages(z, spare) * line_length(z) {
        return Err(Refusal::Lengths);
    }
    Ok(())
}

// The text stands at the buffer's start; the bytes past it stay.
pub fn write_text(z: Sizes, flash: &[u8], spare: &[u8], text: &mut [u8]) -> Written
    ensures { text_written result text.new ≡ write_text z (device flash.now spare.now []) text.old }
{
    if let Err(refusal) = check_room(z, flash, spare, text.len()) {
        return Written {
            answer: Answer::Refused(refusal.number()),
            length: 0,
        };
    }
    let length = put_pages(z, flash, spare, text);
    Written {
        answer: Answer::Done,
        length,
    }
}
