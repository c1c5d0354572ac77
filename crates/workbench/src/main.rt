// The workbench: every entry of the engine driven by lines of hexadecimal digits, with state, chip and disk shown, or put there.
#![tactic(auto)]

mod asks;
mod bench;
mod fields;
mod lend;
mod mail;
mod place;
mod puts;
mod shows;

ghost use Rattle.std.specs.Prelude.{◌≡◌, ◌≤◌, length, IfOk};
ghost use Rattle.calls.specs.Arrays.{Arrays};
ghost use Rattle.drive.specs.Recorder.{Ready};
ghost use Rattle.workbench.specs.Bench.{text_room};
ghost use Rattle.workbench.specs.Walk.{line_room, Sound};

use crate::bench::Bench;
use std::io::Error;
use streams::Streams;

// The bytes that are held of a line: any longer one is F0, whatever follows.
const LINE_ROOM: usize = 8193;

// The longest text of a line: answer, stores, the length (4) of an image's text and its 131,072 bytes, two digits each, and a line feed.
const TEXT_ROOM: usize = 262159;

// How far the program has come, and the bytes held of a line that is not whole yet.
#[derive(Clone, Copy)]
struct Walk {
    bench: Bench,
    held: usize,
}

// The stream that failed, and why.
#[derive(Drop)]
enum Failure {
    Input(Error),
    Output(Error),
}

// A whole line is answered before more is read: someone may wait for the answer.
fn answer(
    streams: &mut Streams,
    b: Bench,
    line: &[u8],
    flash: &mut [u8],
    spare: &mut [u8],
    disk: &mut [u8],
    out: &mut [u8],
) -> Result<Walk, Failure>
    requires ready { Ready b.recorder.formatted b.recorder.sizes }
    requires arrays { Arrays flash.old spare.old disk.old × (text_room ≤ length out.old) }
    ensures { IfOk result (λ walk. Ready walk.bench.recorder.formatted walk.bench.recorder.sizes × (walk.held ≡ 0)) }
{
    let answered = bench::on_line(b, line, flash, spare, disk, out);
    let length = answered.length;
    match streams::write_out(streams, &out[..length]) {
        Ok(()) => {
            let bench = answered.bench;
            Ok(Walk { bench, held: 0 })
        }
        Err(unwritten) => Err(Failure::Output(unwritten.error)),
    }
}

// More bytes of a line, perhaps the last.
fn take_bytes(
    streams: &mut Streams,
    w: Walk,
    bytes: &[u8],
    last: bool,
    line: &mut [u8],
    flash: &mut [u8],
    spare: &mut [u8],
    disk: &mut [u8],
    out: &mut [u8],
) -> Result<Walk, Failure>
    requires { Sound w line.old flash.old spare.old disk.old out.old }
    ensures { IfOk result (λ walk. Sound walk line.new flash.new spare.new disk.new out.new) }
{
    let held = lines::gather(line, w.held, bytes);
    if last {
        return answer(streams, w.bench, &line[..held], flash, spare, disk, out);
    }
    let bench = w.bench;
    Ok(Walk { bench, held })
}

// Line by line, to the end of the piece or to a text that could not be written.
fn walk_piece(
    streams: &mut Streams,
    w: Walk,
    piece: &[u8],
    line: &mut [u8],
    flash: &mut [u8],
    spare: &mut [u8],
    disk: &mut [u8],
    out: &mut [u8],
) -> Result<Walk, Failure>
    requires { Sound w line.old flash.old spare.old disk.old out.old }
    ensures { IfOk result (λ walk. Sound walk line.new flash.new spare.new disk.new out.new) }
{
    let mut walk = w;
    let mut from = 0;
    // no `for`: each step is as long as the line
    while from < piece.len() {
        let end = lines::line_end(piece, from);
        let last = end < piece.len();
        walk = take_bytes(
            streams,
            walk,
            &piece[from..end],
            last,
            line,
            flash,
            spare,
            disk,
            out,
        )?;
        from = end + 1;
    }
    Ok(walk)
}

// To the end of the input, where a line may be held. Nothing says that it ends, so the loop counts its turns.
fn walk_pieces(
    streams: &mut Streams,
    w: Walk,
    piece: &mut [u8],
    line: &mut [u8],
    flash: &mut [u8],
    spare: &mut [u8],
    disk: &mut [u8],
    out: &mut [u8],
) -> Result<Walk, Failure>
    requires { Sound w line.old flash.old spare.old disk.old out.old }
    ensures { IfOk result (λ walk. Sound walk line.new flash.new spare.new disk.new out.new) }
{
    let mut walk = w;
    for _ in 0..u64::MAX {
        let count = match streams::read_piece(streams, piece) {
            Ok(count) => count,
            Err(error) => return Err(Failure::Input(error)),
        };
        if count == 0 {
            return Ok(walk);
        }
        walk = walk_piece(
            streams,
            walk,
            &piece[..count],
            line,
            flash,
            spare,
            disk,
            out,
        )?;
    }
    Err(Failure::Input(Error::other("")))
}

// The whole input; the last line may lack its line feed.
fn walk_input(
    streams: &mut Streams,
    piece: &mut [u8],
    line: &mut [u8],
    flash: &mut [u8],
    spare: &mut [u8],
    disk: &mut [u8],
    out: &mut [u8],
) -> Result<(), Failure>
    requires { Arrays flash.old spare.old disk.old × (length line.old ≡ line_room) × (length out.old ≡ text_room) }
{
    let bench = Bench::start();
    let start = Walk { bench, held: 0 };
    let walk = walk_pieces(streams, start, piece, line, flash, spare, disk, out)?;
    let held = walk.held;
    if held > 0 {
        answer(streams, walk.bench, &line[..held], flash, spare, disk, out)?;
    }
    Ok(())
}

// Where the program stopped early standard error says why.
fn report(streams: &Streams, failure: &Failure) {
    match failure {
        Failure::Input(error) => streams::fail(streams, b"workbench: standard input", error),
        Failure::Output(error) => streams::fail(streams, b"workbench: standard output", error),
    }
}

fn main(rt: HostRuntime) {
    let mut streams = streams::open(&rt);
    let mut piece = [0u8; 65536];
    let mut line = [0u8; LINE_ROOM];
    let mut flash = [0u8; drive::FLASH];
    let mut spare = [0u8; drive::FLASH];
    let mut disk = [0u8; drive::DISK];
    let mut out = [0u8; TEXT_ROOM];
    let walked = walk_input(
        &mut streams,
        &mut piece,
        &mut line,
        &mut flash,
        &mut spare,
        &mut disk,
        &mut out,
    );
    if let Err(failure) = &walked {
        report(&streams, failure);
    }
}
