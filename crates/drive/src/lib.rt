// A line of the driving program: what is printed of it, and the recorder that it leaves.
#![tactic(auto)]

ghost use Rattle.std.specs.Prelude.{◌≡◌, true, false, [], ◌+◌, ◌*◌, ◌<◌, ◌≤◌, length, take, MatchOption, if◌then◌else◌};
ghost use Rattle.model.specs.declared.Answer.TheVariants.{Done};
ghost use Rattle.model.specs.Tests.{number, number_of};
ghost use Rattle.model.specs.Calls.{is_done};
ghost use Rattle.model.specs.Driving.{bytes_of, line_fits, too_large, shown, printed, on_line};
ghost use Rattle.model.proofs.Limits.{Limits};
ghost use Rattle.geometry.specs.Geometry.{device};
ghost use Rattle.frame.specs.Request.{frame_request, is_format};
ghost use Rattle.outcome.specs.Handed.{handed_back};
ghost use Rattle.calls.specs.Arrays.{Arrays, Held};
ghost use Rattle.drive.specs.Recorder.{recorder_of, printed_of, outcome_of, fresh, Ready, Room, after, called_line};
ghost use Rattle.drive.specs.Asking.{format_unmade, unmade, sizes_asked};

use frame::Request;
use model::{Answer, Refusal, Sizes};
use outcome::Outcome;
use state::State;

// "Its flash buffer is 32,768 bytes, spare areas included; its disk is 16,384"
pub const FLASH: usize = 32768;

pub const DISK: usize = 16384;

// The longest text of a line: answer, stores and the bytes of the whole disk, two digits each, and a line feed.
pub const LONGEST_TEXT: usize = 32775;

// What the program holds from line to line beside its arrays; the sizes are those of the last Done format, if there was one.
#[derive(Clone, Copy)]
pub struct Recorder {
    pub state: State,
    pub formatted: bool,
    pub sizes: Sizes,
}

impl Recorder {
    // No format yet.
    pub fn unformatted() -> Recorder
        ensures { result ≡ fresh }
    {
        let state = State::unformatted();
        let sizes = state.sizes;
        Recorder {
            state,
            formatted: false,
            sizes,
        }
    }
}

// The recorder after a line, and how many characters were printed of it.
#[derive(Clone, Copy)]
pub struct Printed {
    pub recorder: Recorder,
    pub length: usize,
}

pub fn is_done(answer: Answer) -> bool
    ensures { result ≡ is_done answer }
{
    matches!(answer, Answer::Done)
}

// "answer byte, stores (2), bytes read if Done": "all but Done and Cut print stores 0000".
pub fn print(o: Outcome, bytes: &[u8], out: &mut [u8]) -> usize
    requires { (o.stores < 65536) × (7 ≤ length out.old) × (o.answer ≡ Done → 7 + length bytes.now * 2 ≤ length out.old) }
    ensures out_after { take result out.new ≡ printed (outcome_of (handed_back (device [] [] []) bytes.now o)) }
    ensures upper_bound { result ≤ length out.new }
{
    match o.answer {
        Answer::Done => text::show(model::DONE, o.stores, bytes, out),
        Answer::Idle => text::show(model::IDLE, 0, b"", out),
        Answer::Cut => text::show(model::CUT, o.stores, b"", out),
        Answer::Refused(number) => text::show(number, 0, b"", out),
    }
}

// A line that makes no call prints why.
fn no_call(refusal: Refusal, r: Recorder, out: &mut [u8]) -> Printed
    requires { 7 ≤ length out.old }
    ensures recorder_value { (result.recorder ≡ r) × (take result.length out.new ≡ shown (number_of refusal) 0 []) }
    ensures length_in_bounds { result.length ≤ length out.new }
{
    let length = text::show(refusal.number(), 0, b"", out);
    Printed {
        recorder: r,
        length,
    }
}

// "F1 for valid sizes where C × P × (S + 16) or B × P × S is beyond its buffers"
fn too_large(z: Sizes) -> bool
    requires { Limits z }
    ensures { result ≡ too_large z }
{
    let chip = z.c * z.p * (z.s + 16);
    let bucket = z.p * z.s;
    (FLASH < chip) | (DISK < z.b * bucket)
}

// The recorder after a call at the sizes z: a Done format's sizes are kept. Only the sizes are chosen between: a choice between recorders would copy the state.
pub fn settle(r: Recorder, z: Sizes, state: State, formats: bool) -> Recorder
    ensures { result ≡ after r z state formats }
{
    let formatted = r.formatted | formats;
    let sizes = sizes_kept(formats, z, r.sizes);
    Recorder {
        state,
        formatted,
        sizes,
    }
}

fn sizes_kept(formats: bool, new: Sizes, old: Sizes) -> Sizes
    ensures { result ≡ (if formats then new else old) }
{
    if formats { new } else { old }
}

// A line that makes its call, at the sizes z.
fn called_line(
    r: Recorder,
    z: Sizes,
    format: bool,
    request: Request,
    line: &[u8],
    buffer: &mut [u8],
    flash: &mut [u8],
    spare: &mut [u8],
    disk: &mut [u8],
    out: &mut [u8],
) -> Printed
    requires line_value { (line_fits line.now ≡ true) × (request ≡ frame_request (bytes_of line.now)) }
    requires arrays { Arrays flash.old spare.old disk.old × Room buffer.old out.old × Held z }
    ensures out_after { printed_of result flash.new spare.new disk.new out.new ≡ called_line z format (recorder_of r flash.old spare.old disk.old) (bytes_of line.now) }
    ensures length_in_bounds { result.length ≤ length out.new }
{
    let made = calls::make_in_arrays(r.state, z, request, line, buffer, flash, spare, disk);
    let outcome = made.outcome;
    let read = made.read;
    let length = print(outcome, &buffer[..read], out);
    let answer = outcome.answer;
    let formats = format & is_done(answer);
    let recorder = settle(r, z, outcome.state, formats);
    Printed { recorder, length }
}

// "F1 for valid sizes", so after number 1.
fn check_format(z: Sizes) -> Result<(), Refusal>
    ensures { number result ≡ format_unmade z }
{
    if !geometry::limits(z) {
        return Err(Refusal::Limits);
    }
    if too_large(z) {
        return Err(Refusal::NoRoom);
    }
    Ok(())
}

// What a line asks for: whether it makes its call, or what is printed of it instead; the sizes of its call; whether that is a format.
#[derive(Clone, Copy)]
pub struct Asked {
    pub makes: Result<(), Refusal>,
    pub sizes: Sizes,
    pub format: bool,
}

// "02 to 06 before a format that was Done print 030000". A format has sizes of its own.
fn frame_asks(formatted: bool, kept: Sizes, request: Request) -> Asked
    ensures { (number result.makes ≡ unmade formatted request) × (result.sizes ≡ sizes_asked request kept) × (result.format ≡ is_format request) }
{
    match request {
        Request::Format { allowance, sizes } => {
            let makes = check_format(sizes);
            Asked {
                makes,
                sizes,
                format: true,
            }
        }
        _ => {
            let makes = if formatted {
                Ok(())
            } else {
                Err(Refusal::NotRunning)
            };
            Asked {
                makes,
                sizes: kept,
                format: false,
            }
        }
    }
}

// "F0, before all else": a line that is no frame has no request.
pub fn asks(formatted: bool, kept: Sizes, request: Option<Request>) -> Asked
    ensures { MatchOption request ((number result.makes ≡ 0xF0) × (result.sizes ≡ kept) × (result.format ≡ false)) (λ q. (number result.makes ≡ unmade formatted q) × (result.sizes ≡ sizes_asked q kept) × (result.format ≡ is_format q)) }
{
    match request {
        Some(request) => frame_asks(formatted, kept, request),
        None => Asked {
            makes: Err(Refusal::NoFrame),
            sizes: kept,
            format: false,
        },
    }
}

// The line's text stands at the start of `out`. All calls are made at one place, so that the recorder is handed on without a copy of it.
pub fn on_line(
    r: Recorder,
    line: &[u8],
    buffer: &mut [u8],
    flash: &mut [u8],
    spare: &mut [u8],
    disk: &mut [u8],
    out: &mut [u8],
) -> Printed
    requires { Arrays flash.old spare.old disk.old × Room buffer.old out.old × Ready r.formatted r.sizes }
    ensures out_after { printed_of result flash.new spare.new disk.new out.new ≡ on_line (recorder_of r flash.old spare.old disk.old) line.now }
    ensures ready { Ready result.recorder.formatted result.recorder.sizes × (result.length ≤ length out.new) }
{
    let request = frame::request_of(line);
    let asked = asks(r.formatted, r.sizes, request);
    if let Err(refusal) = asked.makes {
        return no_call(refusal, r, out);
    }
    called_line(
        r,
        asked.sizes,
        asked.format,
        request.unwrap(),
        line,
        buffer,
        flash,
        spare,
        disk,
        out,
    )
}
