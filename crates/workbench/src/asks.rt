// Lines 01 to 06, the calls, and 16, the page look: on the lent parts of the arrays. Each uses up what a line 17 left.
ghost use Rattle.std.specs.Prelude.{◌≡◌, true, ◌<◌, ◌≤◌, length};
ghost use Rattle.lists.specs.Lists.{all};
ghost use Rattle.model.specs.Driving.{is_digit};
ghost use Rattle.calls.specs.Arrays.{Arrays, most_read, Held};
ghost use Rattle.calls.specs.Framed.{Framed};
ghost use Rattle.drive.specs.Recorder.{Ready};
ghost use Rattle.workbench.specs.Bench.{text_room};

use crate::bench::{Answered, Bench};
use crate::{bench, fields, lend, shows};
use calls::Made;
use frame::Request;
use model::Sizes;

// The call of a frame, at the sizes z. What it hands back has room in the text of a line.
fn make_lent(
    b: Bench,
    z: Sizes,
    request: Request,
    line: &[u8],
    buffer: &mut [u8],
    flash: &mut [u8],
    spare: &mut [u8],
    disk: &mut [u8],
) -> Made
    requires framed { Framed request line.now × Held z }
    requires arrays { Arrays flash.old spare.old disk.old × (most_read ≤ length buffer.old) }
    ensures { (result.read ≤ most_read) × (result.outcome.stores < 65536) }
{
    let lent = lend::lent(z, b.less);
    let flash_end = lent.flash;
    let spare_end = lent.spare;
    let disk_end = lent.disk;
    let recorder = b.recorder;
    calls::make(
        recorder.state,
        z,
        request,
        line,
        buffer,
        &mut flash[..flash_end],
        &mut spare[..spare_end],
        &mut disk[..disk_end],
    )
}

// A line that makes its call, at the sizes z.
fn called_line(
    b: Bench,
    z: Sizes,
    format: bool,
    request: Request,
    line: &[u8],
    flash: &mut [u8],
    spare: &mut [u8],
    disk: &mut [u8],
    out: &mut [u8],
) -> Answered
    requires framed { Framed request line.now × Held z × Ready b.recorder.formatted b.recorder.sizes }
    requires arrays { Arrays flash.old spare.old disk.old × (text_room ≤ length out.old) }
    ensures { Ready result.bench.recorder.formatted result.bench.recorder.sizes × (result.length ≤ length out.new) }
{
    let mut buffer = [0u8; 65536];
    let made = make_lent(b, z, request, line, &mut buffer, flash, spare, disk);
    let outcome = made.outcome;
    let read = made.read;
    let length = drive::print(outcome, &buffer[..read], out);
    let answer = outcome.answer;
    let formats = format & drive::is_done(answer);
    let recorder = drive::settle(b.recorder, z, outcome.state, formats);
    let less = lend::no_less();
    Answered {
        bench: Bench { recorder, less },
        length,
    }
}

// A number alone where no call is made: by the sizes of a format, or before the first Done one.
pub fn call_line(
    b: Bench,
    line: &[u8],
    flash: &mut [u8],
    spare: &mut [u8],
    disk: &mut [u8],
    out: &mut [u8],
) -> Answered
    requires line_value { (all is_digit line.now ≡ true) × (length line.now ≤ 8192) × Ready b.recorder.formatted b.recorder.sizes }
    requires arrays { Arrays flash.old spare.old disk.old × (text_room ≤ length out.old) }
    ensures { Ready result.bench.recorder.formatted result.bench.recorder.sizes × (result.length ≤ length out.new) }
{
    let request = frame::frame_request(line);
    let recorder = b.recorder;
    let asked = drive::asks(recorder.formatted, recorder.sizes, Some(request));
    match asked.makes {
        Ok(()) => called_line(
            b,
            asked.sizes,
            asked.format,
            request,
            line,
            flash,
            spare,
            disk,
            out,
        ),
        Err(refusal) => bench::told(b.with_less(lend::no_less()), refusal.number(), out),
    }
}

// Fields: cache bucket (2), page (1). It goes by the state's sizes.
fn look_at(z: Sizes, fields: &[u8], flash: &[u8], out: &mut [u8]) -> usize
    requires { (length flash.now ≤ 32768) × (text_room ≤ length out.old) }
    ensures { result ≤ length out.new }
{
    let bucket = fields::number_at(fields, 0);
    let page = fields::byte_at(fields, 2);
    let mut answer = model::DONE;
    let bytes = look::look(z, flash, bucket, page, &mut answer);
    shows::show(answer, bytes, out)
}

// The page look is lent data alone, by the sizes of the last Done format.
pub fn look_line(b: Bench, fields: &[u8], flash: &[u8], out: &mut [u8]) -> Answered
    requires { Held b.recorder.sizes × (length flash.now ≡ 32768) × (text_room ≤ length out.old) }
    ensures { Ready result.bench.recorder.formatted result.bench.recorder.sizes × (result.length ≤ length out.new) }
{
    let recorder = b.recorder;
    let lent = lend::lent(recorder.sizes, b.less);
    let end = lent.flash;
    let state = recorder.state;
    let length = look_at(state.sizes, fields, &flash[..end], out);
    let bench = b.with_less(lend::no_less());
    Answered { bench, length }
}
