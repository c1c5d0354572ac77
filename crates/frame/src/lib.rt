// What a line of the driving program asks for. It is one frame of bytes, walked from field to field.
#![tactic(auto)]

ghost use Rattle.std.specs.Prelude.{◌≡◌, ◌<◌, ◌⊎◌, true, length, drop, MatchOption};
ghost use Rattle.lists.specs.Lists.{all};
ghost use Rattle.model.specs.Driving.{is_digit, bytes_of, operation, frame_fits, line_fits};
ghost use Rattle.frame.specs.Request.{number_of, length_fits, format_from, read_from, write_from, frame_request, request_of};

use line::Line;
use model::Sizes;

// The digits of the longest line.
const LONGEST: usize = 512;

// The operations.
#[derive(Clone, Copy)]
pub enum Operation {
    Format,
    Read,
    Write,
    EraseStep,
    Drain,
    Recover,
}

impl Operation {
    // The operation of a frame's first byte, if that is one.
    pub fn of(byte: usize) -> Option<Operation>
        ensures { MatchOption result ((byte ≡ 0) ⊎ (6 < byte)) (λ o. byte ≡ number_of o) }
    {
        match byte {
            1 => Some(Operation::Format),
            2 => Some(Operation::Read),
            3 => Some(Operation::Write),
            4 => Some(Operation::EraseStep),
            5 => Some(Operation::Drain),
            6 => Some(Operation::Recover),
            _ => None,
        }
    }

    // Whether its frame may have so many bytes: 3 of operation and allowance, and those of its fields.
    fn fits(self, bytes: usize) -> bool
        ensures { result ≡ length_fits self bytes }
    {
        match self {
            Operation::Format => bytes == 12,
            Operation::Read => bytes == 9,
            Operation::Write => 7 <= bytes,
            Operation::EraseStep | Operation::Drain | Operation::Recover => bytes == 3,
        }
    }
}

// The data of a write: the byte of the frame where they begin, and how many they are.
#[derive(Clone, Copy)]
pub struct Data {
    pub at: usize,
    pub length: usize,
}

// What a line asks for, with its allowance of stores.
#[derive(Clone, Copy)]
pub enum Request {
    Format {
        allowance: usize,
        sizes: Sizes,
    },
    Read {
        allowance: usize,
        bucket: usize,
        offset: usize,
        length: usize,
    },
    Write {
        allowance: usize,
        bucket: usize,
        offset: usize,
        data: Data,
    },
    Erase(usize),
    Drain(usize),
    Recover(usize),
}

// "S (2) P (1) C (2) B (2) R (1) W (1)"
fn format_request<'a>(allowance: Line<'a>) -> Request
    requires { allowance.at ≡ 3 }
    ensures { result ≡ format_from allowance.entry.field (bytes_of allowance.entry.text.now) }
{
    let s = allowance.next(2);
    let p = s.next(1);
    let c = p.next(2);
    let b = c.next(2);
    let r = b.next(1);
    let w = r.next(1);
    Request::Format {
        allowance: allowance.field,
        sizes: Sizes {
            s: s.field,
            p: p.field,
            c: c.field,
            b: b.field,
            r: r.field,
            w: w.field,
        },
    }
}

// "bucket (2) offset (2) length (2)"
fn read_request<'a>(allowance: Line<'a>) -> Request
    requires { allowance.at ≡ 3 }
    ensures { result ≡ read_from allowance.entry.field (bytes_of allowance.entry.text.now) }
{
    let bucket = allowance.next(2);
    let offset = bucket.next(2);
    let length = offset.next(2);
    Request::Read {
        allowance: allowance.field,
        bucket: bucket.field,
        offset: offset.field,
        length: length.field,
    }
}

// "bucket, offset, data": the data are what is left.
fn write_request<'a>(allowance: Line<'a>) -> Request
    requires { allowance.at ≡ 3 }
    ensures { result ≡ write_from allowance.entry.field (bytes_of allowance.entry.text.now) }
{
    let bucket = allowance.next(2);
    let offset = bucket.next(2);
    let length = offset.left();
    Request::Write {
        allowance: allowance.field,
        bucket: bucket.field,
        offset: offset.field,
        data: Data {
            at: offset.at,
            length,
        },
    }
}

// The request of a frame that fits: "operation byte, allowance (2), fields". Of any other frame it is a request too, as the definition has it.
pub fn frame_request(text: &[u8]) -> Request
    ensures { result ≡ frame_request (bytes_of text.now) }
{
    let operation = Line::start(text).next(1);
    let allowance = operation.next(2);
    match Operation::of(operation.field) {
        Some(Operation::Format) => format_request(allowance),
        Some(Operation::Read) => read_request(allowance),
        Some(Operation::Write) => write_request(allowance),
        Some(Operation::EraseStep) => Request::Erase(allowance.field),
        Some(Operation::Drain) => Request::Drain(allowance.field),
        Some(Operation::Recover) => Request::Recover(allowance.field),
        None => Request::Recover(allowance.field),
    }
}

// The byte a frame begins with.
fn frame_operation(text: &[u8]) -> usize
    ensures { result ≡ operation (bytes_of text.now) }
{
    let operation = Line::start(text).next(1);
    operation.field
}

// A known operation with fields of the right length.
pub fn frame_fits(line: &[u8]) -> bool
    ensures { result ≡ frame_fits (bytes_of line.now) }
{
    match Operation::of(frame_operation(line)) {
        Some(operation) => operation.fits(line.len() / 2),
        None => false,
    }
}

// Whether the line is none of the paper's F0. A line that is too long is not looked at.
pub fn line_fits(line: &[u8]) -> bool
    ensures { result ≡ line_fits line.now }
{
    if LONGEST < line.len() {
        return false;
    }
    digits::all_digits(line) & (line.len() % 2 == 0) & frame_fits(line)
}

// What the line asks for, unless it is one of F0.
pub fn request_of(line: &[u8]) -> Option<Request>
    ensures { result ≡ request_of line.now }
{
    if line_fits(line) {
        Some(frame_request(line))
    } else {
        None
    }
}

// The data of a write, from the byte of the frame where they begin.
pub fn write_data(line: &[u8], at: usize, out: &mut [u8])
    requires line_value { all is_digit line.now ≡ true }
    requires out_len { length out.old ≡ length (drop at (bytes_of line.now)) }
    ensures { out.new ≡ drop at (bytes_of line.now) }
{
    digits::decode(line, at, out);
}
