// Standard input and standard output: what was read, and how much was written. A call that may yet do better is made again.
#![tactic(auto)]

mod reason;

ghost use Rattle.std.specs.Prelude.{◌≡◌, true, ◌<◌, ◌≤◌, length, IfOk, IfErr};

use std::io::{Error, ErrorKind, Read, Stderr, Stdin, Stdout, Write};
use std::{io, thread};

// The program's streams.
#[derive(Drop)]
pub struct Streams {
    input: Stdin,
    output: Stdout,
    errors: Stderr,
}

// How many characters were written before the output failed, and why it did.
#[derive(Drop)]
pub struct Unwritten {
    pub written: usize,
    pub error: Error,
}

pub fn open(rt: &HostRuntime) -> Streams {
    Streams {
        input: rt.stdin(),
        output: rt.stdout(),
        errors: rt.stderr(),
    }
}

// Whether the call that failed may do better: it was interrupted, or the other side was not ready and has had a turn.
fn passing(error: &Error) -> bool {
    let kind = error.kind();
    if kind == ErrorKind::WouldBlock {
        thread::yield_now();
    }
    (kind == ErrorKind::Interrupted) | (kind == ErrorKind::WouldBlock)
}

// Whether a call with this answer is made again.
fn again(answer: &io::Result<usize>, tries: u64) -> bool
    ensures { result ≡ true → 0 < tries }
{
    match answer {
        Ok(_) => false,
        Err(error) => passing(error) & (tries > 0),
    }
}

// How many bytes were read: none at the end of the input.
// A proved loop has to end, and nothing says that the other side will be ready: the loop counts its tries down. A `for` would need an answer behind its end.
pub fn read_piece(streams: &mut Streams, piece: &mut [u8]) -> io::Result<usize>
    ensures { IfOk result (λ count. count ≤ length piece.new) }
{
    let mut got = streams.input.read(piece);
    let mut tries = u64::MAX;
    while again(&got, tries) {
        got = streams.input.read(piece);
        tries -= 1;
    }
    got
}

// One write, of some of the text.
fn write_some(streams: &mut Streams, text: &[u8]) -> io::Result<usize>
    ensures { IfOk result (λ put. put ≤ length text.now) }
{
    let mut put = streams.output.write(text);
    let mut tries = u64::MAX;
    while again(&put, tries) {
        put = streams.output.write(text);
        tries -= 1;
    }
    put
}

// All of the text, unless the output fails; the system gives no reason where it takes nothing.
pub fn write_out(streams: &mut Streams, text: &[u8]) -> Result<(), Unwritten>
    ensures { IfErr result (λ unwritten. unwritten.written < length text.now) }
{
    let mut written = 0;
    // no `for`: each step is as long as what was written
    while written < text.len() {
        match write_some(streams, &text[written..]) {
            Ok(0) => {
                let error = Error::new(ErrorKind::WriteZero, "");
                return Err(Unwritten { written, error });
            }
            Ok(put) => written += put,
            Err(error) => return Err(Unwritten { written, error }),
        }
    }
    Ok(())
}

// Says on standard error, of which nothing more can be said where that fails too.
pub fn say(streams: &Streams, words: &[u8]) {
    let mut errors = streams.errors;
    let _ = errors.write_all(words);
}

// Says what failed, and why.
pub fn fail(streams: &Streams, what: &[u8], error: &Error) {
    say(streams, what);
    say(streams, b": ");
    let reason = reason::reason_of(error);
    say(streams, reason.words());
    say(streams, b"\n");
}
