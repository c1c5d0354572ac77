// Lines 30 and 31, the chip written as a text and a text read onto it: on the lent parts of the arrays. Each uses up what a line 17 left.
ghost use Rattle.std.specs.Prelude.{◌≡◌, true, ◌+◌, ◌≤◌, length};
ghost use Rattle.model.specs.Spare.{four};
ghost use Rattle.calls.specs.Arrays.{Held};
ghost use Rattle.drive.specs.Recorder.{Ready};
ghost use Rattle.workbench.specs.Bench.{most_text, text_room};

use crate::bench::{Answered, Bench};
use crate::{fields, lend};
use model::{Answer, Sizes};
use outcome::Outcome;
use send::Written;
use state::State;

// The longest text buffer that a line may ask for.
const MOST_TEXT: usize = 131072;

// The bytes that say a length: the buffer's among the fields, the text's in what is printed.
const LENGTH_BYTES: usize = 4;

// Fields: buffer length (4).
pub fn buffer_fits(fields: &[u8]) -> bool
    ensures { result ≡ true → four fields.now 0 ≤ most_text }
{
    (fields.len() == LENGTH_BYTES) & (fields::long_number(fields) <= MOST_TEXT)
}

// An answer without stores, and its bytes if it is Done.
fn print(state: State, answer: Answer, bytes: &[u8], out: &mut [u8]) -> usize
    requires { (length bytes.now ≤ 4 + most_text) × (text_room ≤ length out.old) }
    ensures { result ≤ length out.new }
{
    let outcome = Outcome {
        answer,
        stores: 0,
        state,
    };
    drive::print(outcome, bytes, out)
}

// The chip's text, behind the four bytes of its length.
fn write_behind(z: Sizes, flash: &[u8], spare: &[u8], bytes: &mut [u8]) -> Written
    requires { 4 ≤ length bytes.old }
    ensures { 4 + result.length ≤ length bytes.new }
{
    let written = send::write_text(z, flash, spare, &mut bytes[LENGTH_BYTES..]);
    let length = written.length;
    area::write_at(bytes, 0, &length.to_be_bytes()[LENGTH_BYTES..]);
    written
}

// Fields: buffer length (4). It goes by the state's sizes; `bytes` has room for any text and its length.
fn send_into(
    state: State,
    fields: &[u8],
    flash: &[u8],
    spare: &[u8],
    bytes: &mut [u8],
    out: &mut [u8],
) -> usize
    requires { (four fields.now 0 ≤ most_text) × (length bytes.old ≡ 4 + most_text) × (text_room ≤ length out.old) }
    ensures { result ≤ length out.new }
{
    let end = LENGTH_BYTES + fields::long_number(fields);
    let written = write_behind(state.sizes, flash, spare, &mut bytes[..end]);
    let answer = written.answer;
    let count = LENGTH_BYTES + written.length;
    print(state, answer, &bytes[..count], out)
}

// Before the text is written, its buffer is filled with 00.
fn send(state: State, fields: &[u8], flash: &[u8], spare: &[u8], out: &mut [u8]) -> usize
    requires { (four fields.now 0 ≤ most_text) × (text_room ≤ length out.old) }
    ensures { result ≤ length out.new }
{
    let mut bytes = [0u8; LENGTH_BYTES + MOST_TEXT];
    send_into(state, fields, flash, spare, &mut bytes, out)
}

// Lent are data and spare areas, by the sizes of the last Done format.
pub fn send_line(b: Bench, fields: &[u8], flash: &[u8], spare: &[u8], out: &mut [u8]) -> Answered
    requires held { Held b.recorder.sizes × (four fields.now 0 ≤ most_text) }
    requires flash_len { (length flash.now ≡ 32768) × (length spare.now ≡ 32768) × (text_room ≤ length out.old) }
    ensures { Ready result.bench.recorder.formatted result.bench.recorder.sizes × (result.length ≤ length out.new) }
{
    let recorder = b.recorder;
    let lent = lend::lent(recorder.sizes, b.less);
    let flash_end = lent.flash;
    let spare_end = lent.spare;
    let state = recorder.state;
    let length = send(state, fields, &flash[..flash_end], &spare[..spare_end], out);
    let bench = b.with_less(lend::no_less());
    Answered { bench, length }
}

// Fields: the text. Lent as to a line 30, and by the state's sizes too.
pub fn receive_line(
    b: Bench,
    text: &[u8],
    flash: &mut [u8],
    spare: &mut [u8],
    out: &mut [u8],
) -> Answered
    requires { Held b.recorder.sizes × (length flash.old ≡ 32768) × (length spare.old ≡ 32768) × (text_room ≤ length out.old) }
    ensures { Ready result.bench.recorder.formatted result.bench.recorder.sizes × (result.length ≤ length out.new) }
{
    let recorder = b.recorder;
    let lent = lend::lent(recorder.sizes, b.less);
    let flash_end = lent.flash;
    let spare_end = lent.spare;
    let state = recorder.state;
    let answer = receive::read_text(
        state.sizes,
        text,
        &mut flash[..flash_end],
        &mut spare[..spare_end],
    );
    let length = print(state, answer, b"", out);
    let bench = b.with_less(lend::no_less());
    Answered { bench, length }
}
