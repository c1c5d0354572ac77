// What the workbench holds from line to line, and a line's way: F0 first, then 030000, then what the line does.
ghost use Rattle.std.specs.Prelude.{◌≡◌, true, ◌≤◌, length};
ghost use Rattle.calls.specs.Arrays.{Arrays, Held};
ghost use Rattle.drive.specs.Recorder.{Ready};
ghost use Rattle.workbench.specs.Bench.{text_room, Hex, Fields};

use crate::{asks, lend, mail, puts, shows};
use calls::Lengths;
use drive::Recorder;
use model::Sizes;
use state::State;

// The digits of the longest line.
const LONGEST: usize = 8192;

// The last of the driving program's operations.
const RECOVER: u8 = 0x06;

// The further operations: numbers, as `Fields` names them.
const PUT_STATE: u8 = 0x10;

const SHOW_STATE: u8 = 0x11;

const PUT_PAGE: u8 = 0x12;

const SHOW_PAGE: u8 = 0x13;

const PUT_UNIT: u8 = 0x14;

const SHOW_UNIT: u8 = 0x15;

const LOOK: u8 = 0x16;

const LEND_LESS: u8 = 0x17;

const SEND: u8 = 0x30;

const RECEIVE: u8 = 0x31;

// The driving program's recorder, and by how many bytes the next call is lent less.
#[derive(Clone, Copy)]
pub struct Bench {
    pub recorder: Recorder,
    pub less: Lengths,
}

// What a line leaves, and how many characters are printed of it.
#[derive(Clone, Copy)]
pub struct Answered {
    pub bench: Bench,
    pub length: usize,
}

impl Bench {
    // No format yet.
    pub fn start() -> Bench
        ensures { Ready result.recorder.formatted result.recorder.sizes }
    {
        let recorder = Recorder::unformatted();
        let less = lend::no_less();
        Bench { recorder, less }
    }

    fn with_state(self, state: State) -> Bench
        requires { Ready self.recorder.formatted self.recorder.sizes }
        ensures { Ready result.recorder.formatted result.recorder.sizes }
    {
        let mut recorder = self.recorder;
        recorder.state = state;
        let less = self.less;
        Bench { recorder, less }
    }

    pub fn with_less(self, less: Lengths) -> Bench
        requires { Ready self.recorder.formatted self.recorder.sizes }
        ensures { Ready result.recorder.formatted result.recorder.sizes }
    {
        let recorder = self.recorder;
        Bench { recorder, less }
    }
}

// The bench, and an answer printed alone.
pub fn told(b: Bench, answer: u8, out: &mut [u8]) -> Answered
    requires { Ready b.recorder.formatted b.recorder.sizes × (text_room ≤ length out.old) }
    ensures { Ready result.bench.recorder.formatted result.bench.recorder.sizes × (result.length ≤ length out.new) }
{
    let length = shows::show_answer(answer, out);
    Answered { bench: b, length }
}

// Whether the line has digits alone, two to a byte, some and not too many.
fn is_hex(line: &[u8]) -> bool
    ensures { result ≡ true → Hex line.now }
{
    let count = line.len();
    if count == 0 {
        return false;
    }
    if LONGEST < count {
        return false;
    }
    digits::all_digits(line) & (count % 2 == 0)
}

// S counts as 0 until there was a Done format.
fn page_size(formatted: bool, z: Sizes) -> usize
    requires { Ready formatted z }
    ensures { (result ≤ 1024) × (formatted ≡ true → result ≡ z.s) }
{
    if formatted { z.s } else { 0 }
}

// A known operation with fields of its form, at pages of s bytes.
fn fields_fit(operation: u8, line: &[u8], fields: &[u8], s: usize) -> bool
    requires { s ≤ 1024 }
    ensures { result ≡ true → Fields operation s fields.now }
{
    let count = fields.len();
    match operation {
        0x01..=RECOVER => frame::frame_fits(line),
        PUT_STATE => form::is_form(fields),
        SHOW_STATE => count == 0,
        PUT_PAGE => count == 19 + s,
        PUT_UNIT => count == 3 + s,
        SHOW_PAGE | SHOW_UNIT | LOOK => count == 3,
        LEND_LESS => count == 6,
        SEND => mail::buffer_fits(fields),
        RECEIVE => true,
        _ => false,
    }
}

// What a line of a further operation does, once there was a Done format. The last arm is LEND_LESS: the fields of no other fit.
fn does(
    b: Bench,
    operation: u8,
    fields: &[u8],
    flash: &mut [u8],
    spare: &mut [u8],
    disk: &mut [u8],
    out: &mut [u8],
) -> Answered
    requires held { Held b.recorder.sizes × Fields operation b.recorder.sizes.s fields.now }
    requires arrays { Arrays flash.old spare.old disk.old × (text_room ≤ length out.old) }
    ensures { Ready result.bench.recorder.formatted result.bench.recorder.sizes × (result.length ≤ length out.new) }
{
    let recorder = b.recorder;
    let z = recorder.sizes;
    match operation {
        PUT_STATE => told(b.with_state(form::state_of(fields)), model::DONE, out),
        SHOW_STATE => {
            let length = shows::show_state(recorder.state, out);
            Answered { bench: b, length }
        }
        PUT_PAGE => told(b, puts::put_page(z, fields, flash, spare), out),
        SHOW_PAGE => {
            let length = shows::show_page(z, fields, flash, spare, out);
            Answered { bench: b, length }
        }
        PUT_UNIT => told(b, puts::put_unit(z, fields, disk), out),
        SHOW_UNIT => {
            let length = shows::show_unit(z, fields, disk, out);
            Answered { bench: b, length }
        }
        LOOK => asks::look_line(b, fields, flash, out),
        SEND => mail::send_line(b, fields, flash, spare, out),
        RECEIVE => mail::receive_line(b, fields, flash, spare, out),
        _ => told(b.with_less(lend::less(fields)), model::DONE, out),
    }
}

// F0, then the driving program's own lines, then 030000.
fn on_frame(
    b: Bench,
    line: &[u8],
    operation: u8,
    fields: &[u8],
    flash: &mut [u8],
    spare: &mut [u8],
    disk: &mut [u8],
    out: &mut [u8],
) -> Answered
    requires hex { Hex line.now × Ready b.recorder.formatted b.recorder.sizes }
    requires arrays { Arrays flash.old spare.old disk.old × (text_room ≤ length out.old) }
    ensures { Ready result.bench.recorder.formatted result.bench.recorder.sizes × (result.length ≤ length out.new) }
{
    let recorder = b.recorder;
    let s = page_size(recorder.formatted, recorder.sizes);
    if !fields_fit(operation, line, fields, s) {
        return told(b, model::NO_FRAME, out);
    }
    if operation <= RECOVER {
        return asks::call_line(b, line, flash, spare, disk, out);
    }
    if !recorder.formatted {
        return told(b, 3, out);
    }
    does(b, operation, fields, flash, spare, disk, out)
}

// The line's bytes are read from its digits once.
fn on_digits(
    b: Bench,
    line: &[u8],
    bytes: &mut [u8],
    flash: &mut [u8],
    spare: &mut [u8],
    disk: &mut [u8],
    out: &mut [u8],
) -> Answered
    requires hex { Hex line.now × (4096 ≤ length bytes.old) × Ready b.recorder.formatted b.recorder.sizes }
    requires arrays { Arrays flash.old spare.old disk.old × (text_room ≤ length out.old) }
    ensures { Ready result.bench.recorder.formatted result.bench.recorder.sizes × (result.length ≤ length out.new) }
{
    let count = line.len() / 2;
    digits::decode(line, 0, &mut bytes[..count]);
    let operation = bytes[0];
    on_frame(
        b,
        line,
        operation,
        &bytes[1..count],
        flash,
        spare,
        disk,
        out,
    )
}

// The line's text stands at the start of `out`.
pub fn on_line(
    b: Bench,
    line: &[u8],
    flash: &mut [u8],
    spare: &mut [u8],
    disk: &mut [u8],
    out: &mut [u8],
) -> Answered
    requires ready { Ready b.recorder.formatted b.recorder.sizes }
    requires arrays { Arrays flash.old spare.old disk.old × (text_room ≤ length out.old) }
    ensures { Ready result.bench.recorder.formatted result.bench.recorder.sizes × (result.length ≤ length out.new) }
{
    if !is_hex(line) {
        return told(b, model::NO_FRAME, out);
    }
    let mut bytes = [0u8; LONGEST / 2];
    on_digits(b, line, &mut bytes, flash, spare, disk, out)
}
