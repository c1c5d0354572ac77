// The call that a line asks for, made on the parts of the program's arrays that hold chip and disk.
#![tactic(auto)]

ghost use Rattle.std.specs.Prelude.{◌≡◌, true, [], ◌<◌, ◌≤◌, length, take, drop, replicate};
ghost use Rattle.lists.specs.Lists.{all};
ghost use Rattle.model.specs.Sizes.{flash_size, spare_size, disk_size};
ghost use Rattle.model.specs.Calls.{read_call, write_call, lent_buffer, call};
ghost use Rattle.model.specs.Driving.{is_digit, bytes_of, allowance, call_of, lend};
ghost use Rattle.geometry.specs.Geometry.{device};
ghost use Rattle.state.specs.View.{view_of};
ghost use Rattle.outcome.specs.Handed.{handed_back, handed};
ghost use Rattle.calls.specs.Arrays.{Arrays, most_read, Held, in_arrays, seen};
ghost use Rattle.calls.specs.Framed.{Framed};

use frame::{Data, Request};
use model::Sizes;
use outcome::Outcome;
use state::State;

// What the entry handed back, and how many bytes of the lent buffer are the call's own.
#[derive(Clone, Copy)]
pub struct Made {
    pub outcome: Outcome,
    pub read: usize,
}

// A call that reads nothing.
fn unread(outcome: Outcome) -> Made
    ensures { (result.outcome ≡ outcome) × (result.read ≡ 0) }
{
    Made { outcome, read: 0 }
}

// A read into a part as long as the bytes asked for. What stands there before counts with no answer, so nothing clears it.
fn read_call(
    s: State,
    allowance: usize,
    bucket: usize,
    offset: usize,
    count: usize,
    buffer: &mut [u8],
    flash: &mut [u8],
    spare: &mut [u8],
    disk: &mut [u8],
) -> Made
    requires { (bucket < 65536) × (count ≤ length buffer.old) }
    ensures outcome_after { seen (handed_back (device flash.new spare.new disk.new) (take result.read buffer.new) result.outcome) ≡ seen (handed s (call allowance (read_call bucket offset (replicate count 0)) (view_of s) (device flash.old spare.old disk.old))) }
    ensures read_value { result.read ≡ count }
{
    let back = bucket as u16;
    let part = &mut buffer[..count];
    let outcome = read::read(s, back, offset, part, allowance, flash, spare, disk);
    Made {
        outcome,
        read: count,
    }
}

// A write of the bytes from byte `at` of the line's frame on, read from its digits into a buffer as long as they are.
fn write_bytes(
    s: State,
    allowance: usize,
    bucket: usize,
    offset: usize,
    line: &[u8],
    at: usize,
    bytes: &mut [u8],
    flash: &mut [u8],
    spare: &mut [u8],
    disk: &mut [u8],
) -> Outcome
    requires bucket_bound { (bucket < 65536) × (all is_digit line.now ≡ true) }
    requires bytes_len { length bytes.old ≡ length (drop at (bytes_of line.now)) }
    ensures { handed_back (device flash.new spare.new disk.new) [] result ≡ handed s (call allowance (write_call bucket offset (drop at (bytes_of line.now))) (view_of s) (device flash.old spare.old disk.old)) }
{
    frame::write_data(line, at, bytes);
    let back = bucket as u16;
    write::write(s, back, offset, bytes, allowance, flash, spare, disk)
}

fn write_call(
    s: State,
    allowance: usize,
    bucket: usize,
    offset: usize,
    line: &[u8],
    placed: Data,
    buffer: &mut [u8],
    flash: &mut [u8],
    spare: &mut [u8],
    disk: &mut [u8],
) -> Outcome
    requires bucket_bound { (bucket < 65536) × (all is_digit line.now ≡ true) × (placed.length ≤ length buffer.old) }
    requires length_value { placed.length ≡ length (drop placed.at (bytes_of line.now)) }
    ensures { handed_back (device flash.new spare.new disk.new) [] result ≡ handed s (call allowance (write_call bucket offset (drop placed.at (bytes_of line.now))) (view_of s) (device flash.old spare.old disk.old)) }
{
    let bytes = &mut buffer[..placed.length];
    write_bytes(
        s, allowance, bucket, offset, line, placed.at, bytes, flash, spare, disk,
    )
}

// The call of a line that is none of the paper's F0; recover at the sizes z, those of the last Done format.
pub fn make(
    s: State,
    z: Sizes,
    request: Request,
    line: &[u8],
    buffer: &mut [u8],
    flash: &mut [u8],
    spare: &mut [u8],
    disk: &mut [u8],
) -> Made
    requires framed { Framed request line.now }
    requires most_read_in_bounds { most_read ≤ length buffer.old }
    ensures outcome_after { seen (handed_back (device flash.new spare.new disk.new) (take result.read buffer.new) result.outcome) ≡ seen (handed s (call (allowance (bytes_of line.now)) (call_of z (bytes_of line.now)) (view_of s) (device flash.old spare.old disk.old))) }
    ensures read_value { result.read ≡ length (lent_buffer (call_of z (bytes_of line.now))) }
{
    match request {
        Request::Format { allowance, sizes } => {
            unread(format::format(s, sizes, allowance, flash, spare, disk))
        }
        Request::Read {
            allowance,
            bucket,
            offset,
            length,
        } => {
            read_call(
                s, allowance, bucket, offset, length, buffer, flash, spare, disk,
            )
        }
        Request::Write {
            allowance,
            bucket,
            offset,
            data,
        } => {
            unread(write_call(
                s, allowance, bucket, offset, line, data, buffer, flash, spare, disk,
            ))
        }
        Request::Erase(allowance) => {
            unread(erasestep::erase_step(s, allowance, flash, spare, disk))
        }
        Request::Drain(allowance) => unread(drain::drain(s, allowance, flash, spare, disk)),
        Request::Recover(allowance) => {
            unread(recover::recover(s, z, allowance, flash, spare, disk))
        }
    }
}

// How many bytes hold chip data, spare areas and disk.
#[derive(Clone, Copy)]
pub struct Lengths {
    pub flash: usize,
    pub spare: usize,
    pub disk: usize,
}

pub fn lengths_of(z: Sizes) -> Lengths
    requires { Held z }
    ensures { (result.flash ≡ flash_size z) × (result.spare ≡ spare_size z) × (result.disk ≡ disk_size z) }
{
    let bucket = z.p * z.s;
    let flash = z.c * bucket;
    let spare = z.c * z.p * 16;
    let disk = z.b * bucket;
    Lengths { flash, spare, disk }
}

// "Data, spare and disk are each lent from the start of an array."
pub fn make_in_arrays(
    s: State,
    z: Sizes,
    request: Request,
    line: &[u8],
    buffer: &mut [u8],
    flash: &mut [u8],
    spare: &mut [u8],
    disk: &mut [u8],
) -> Made
    requires framed { Framed request line.now }
    requires most_read_in_bounds { most_read ≤ length buffer.old }
    requires arrays { Arrays flash.old spare.old disk.old × Held z }
    ensures outcome_after { seen (handed_back (device flash.new spare.new disk.new) (take result.read buffer.new) result.outcome) ≡ seen (in_arrays z (device flash.old spare.old disk.old) (handed s (call (allowance (bytes_of line.now)) (call_of z (bytes_of line.now)) (view_of s) (lend z (device flash.old spare.old disk.old))))) }
    ensures read_value { result.read ≡ length (lent_buffer (call_of z (bytes_of line.now))) }
{
    let lent = lengths_of(z);
    let flash_end = lent.flash;
    let spare_end = lent.spare;
    let disk_end = lent.disk;
    make(
        s,
        z,
        request,
        line,
        buffer,
        &mut flash[..flash_end],
        &mut spare[..spare_end],
        &mut disk[..disk_end],
    )
}
