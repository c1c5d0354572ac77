// Answers as text, and lines 11, 13 and 15: the state, a page and a disk unit shown.
ghost use Rattle.std.specs.Prelude.{◌≡◌, ◌≤◌, length};
ghost use Rattle.calls.specs.Arrays.{Held};
ghost use Rattle.workbench.specs.Bench.{text_room};

use crate::place;
use model::Sizes;
use state::State;

// Spare bytes and data of the largest page.
const PAGE: usize = 1040;

// An answer with its bytes and no stores.
pub fn show(answer: u8, bytes: &[u8], out: &mut [u8]) -> usize
    requires { (length bytes.now ≤ 65535) × (text_room ≤ length out.old) }
    ensures { result ≤ length out.new }
{
    text::show(answer, 0, bytes, out)
}

// An answer alone.
pub fn show_answer(answer: u8, out: &mut [u8]) -> usize
    requires { text_room ≤ length out.old }
    ensures { result ≤ length out.new }
{
    show(answer, b"", out)
}

// No bytes where the state has no form.
pub fn show_state(s: State, out: &mut [u8]) -> usize
    requires { text_room ≤ length out.old }
    ensures { result ≤ length out.new }
{
    let mut bytes = [0u8; form::LONGEST];
    match form::state_bytes(s, &mut bytes) {
        Some(count) => show(model::DONE, &bytes[..count], out),
        None => show_answer(model::DONE, out),
    }
}

// Fields: bucket (2), page (1). Shown are 16 spare bytes and S of data.
pub fn show_page(z: Sizes, fields: &[u8], flash: &[u8], spare: &[u8], out: &mut [u8]) -> usize
    requires { Held z × (length flash.now ≡ 32768) × (length spare.now ≡ 32768) × (text_room ≤ length out.old) }
    ensures { result ≤ length out.new }
{
    let Some(page) = place::page(z, fields) else {
        return show_answer(place::NO_PLACE, out);
    };
    let spare_at = page * 16;
    let spare_end = spare_at + 16;
    let data_at = page * z.s;
    let data_end = data_at + z.s;
    let mut bytes = [0u8; PAGE];
    area::write_at(&mut bytes, 0, &spare[spare_at..spare_end]);
    area::write_at(&mut bytes, 16, &flash[data_at..data_end]);
    let count = 16 + z.s;
    show(model::DONE, &bytes[..count], out)
}

// Fields: back-end bucket (2), unit (1).
pub fn show_unit(z: Sizes, fields: &[u8], disk: &[u8], out: &mut [u8]) -> usize
    requires { Held z × (length disk.now ≡ 16384) × (text_room ≤ length out.old) }
    ensures { result ≤ length out.new }
{
    let Some(unit) = place::unit(z, fields) else {
        return show_answer(place::NO_PLACE, out);
    };
    let at = unit * z.s;
    let end = at + z.s;
    show(model::DONE, &disk[at..end], out)
}
