// The driving program: lines from standard input, and what is printed of each to standard output.
#![tactic(auto)]

ghost use Rattle.std.specs.Prelude.{◌≡◌, ◌<◌, ◌≤◌, length, take, replicate, nat_eq, if◌then◌else◌, IfOk, IfErr, MatchOption};
ghost use Rattle.model.specs.Driving.{output};
ghost use Rattle.calls.specs.Arrays.{most_read};
ghost use Rattle.drive.specs.Recorder.{longest_text};
ghost use Rattle.input.specs.Ahead.{line_room, ahead, closer, Sound};
ghost use Rattle.input.specs.Ways.{Begun, Walked, Closed};
ghost use Rattle.tugmerov.specs.Whole.{Reached, Ended, Whole};

use input::Walk;
use std::io::Error;
use streams::Streams;

// The bytes that are held of a line: any longer one is F0, whatever follows.
const LINE_ROOM: usize = 513;

// How far the program has come, and how many characters `write` took on the way: by their number the contracts say which they were. And why the output
// failed, where it did.
#[derive(Drop)]
struct Told {
    walk: Walk,
    written: usize,
    failure: Option<Error>,
}

// The stream that failed, and why.
#[derive(Drop)]
enum Failure {
    Input(Error),
    Output(Error),
}

// Where the program stopped, at the end of the input unless a stream failed.
#[derive(Drop)]
struct Came {
    walk: Walk,
    stop: Result<(), Failure>,
}

// The lines of a piece are answered before the next is read: someone may wait for the answers. Where the output fails the walk ends, with characters
// that are printed and not written.
fn walk_piece(
    streams: &mut Streams,
    w: Walk,
    piece: &[u8],
    line: &mut [u8],
    buffer: &mut [u8],
    flash: &mut [u8],
    spare: &mut [u8],
    disk: &mut [u8],
    out: &mut [u8],
) -> Told
    requires sound { Sound w line.old buffer.old flash.old spare.old disk.old out.old × (w.printed ≡ 0) }
    requires piece_len_bound { (length piece.now ≤ 65536) × (longest_text ≤ length out.old) × (length out.old ≤ 131072) }
    ensures sound_2 { Sound result.walk line.new buffer.new flash.new spare.new disk.new out.new }
    ensures begun { Begun (ahead w line.old flash.old spare.old disk.old out.old) piece.now result.written }
    ensures walked { result.walk.printed ≡ 0 → Walked (ahead w line.old flash.old spare.old disk.old out.old) piece.now result.written (ahead result.walk line.new flash.new spare.new disk.new out.new) }
    ensures failed { MatchOption result.failure (result.walk.printed ≡ 0) (λ _. 0 < result.walk.printed) }
{
    let mut walk = w;
    let mut written = 0;
    walk.passed = 0;
    // no `for`: each step is as long as what was walked
    while walk.passed < piece.len() {
        walk = input::advance(walk, piece, line, buffer, flash, spare, disk, out);
        let printed = walk.printed;
        if let Err(unwritten) = streams::write_out(streams, &out[..printed]) {
            let put = unwritten.written;
            walk.printed = printed - put;
            written += put;
            let failure = Some(unwritten.error);
            return Told {
                walk,
                written,
                failure,
            };
        }
        walk.printed = 0;
        written += printed;
    }
    Told {
        walk,
        written,
        failure: None,
    }
}

// How many bytes of the piece are there to be walked: those that were read or, at the end of the input, what closes it.
fn closed(count: usize, held: usize, piece: &mut [u8]) -> usize
    requires { (1 ≤ length piece.old) × (count ≤ length piece.old) }
    ensures { (take result piece.new ≡ (if nat_eq count 0 then closer held else take count piece.old)) × (result ≤ length piece.new) }
{
    if count == 0 {
        return input::closing(held, piece);
    }
    count
}

// What was read is walked, and at the end of the input the line that lacks its line feed.
fn turn(
    streams: &mut Streams,
    w: Walk,
    count: usize,
    piece: &mut [u8],
    line: &mut [u8],
    buffer: &mut [u8],
    flash: &mut [u8],
    spare: &mut [u8],
    disk: &mut [u8],
    out: &mut [u8],
) -> Told
    requires sound { Sound w line.old buffer.old flash.old spare.old disk.old out.old × (w.printed ≡ 0) }
    requires piece_len { (length piece.old ≡ 65536) × (count ≤ 65536) × (length out.old ≡ 131072) }
    ensures sound_2 { Sound result.walk line.new buffer.new flash.new spare.new disk.new out.new }
    ensures begun { Begun (ahead w line.old flash.old spare.old disk.old out.old) (if nat_eq count 0 then closer w.held else take count piece.old) result.written }
    ensures walked { 0 < count → result.walk.printed ≡ 0 → Walked (ahead w line.old flash.old spare.old disk.old out.old) (take count piece.old) result.written (ahead result.walk line.new flash.new spare.new disk.new out.new) }
    ensures closed { count ≡ 0 → result.walk.printed ≡ 0 → Closed (ahead w line.old flash.old spare.old disk.old out.old) result.written (ahead result.walk line.new flash.new spare.new disk.new out.new) }
    ensures failed { MatchOption result.failure (result.walk.printed ≡ 0) (λ _. 0 < result.walk.printed) }
{
    let n = closed(count, w.held, piece);
    walk_piece(
        streams,
        w,
        &piece[..n],
        line,
        buffer,
        flash,
        spare,
        disk,
        out,
    )
}

// Nothing says that the input ends, so this loop counts its turns.
fn walk_pieces(
    streams: &mut Streams,
    w: Walk,
    piece: &mut [u8],
    line: &mut [u8],
    buffer: &mut [u8],
    flash: &mut [u8],
    spare: &mut [u8],
    disk: &mut [u8],
    out: &mut [u8],
) -> Came
    requires sound { Sound w line.old buffer.old flash.old spare.old disk.old out.old × (w.printed ≡ 0) }
    requires piece_len { (length piece.old ≡ 65536) × (length out.old ≡ 131072) }
    ensures reached { IfErr result.stop (λ _. result.walk.printed ≡ 0 → Reached (ahead w line.old flash.old spare.old disk.old out.old) (ahead result.walk line.new flash.new spare.new disk.new out.new)) }
    ensures ended { IfOk result.stop (λ _. Ended (ahead w line.old flash.old spare.old disk.old out.old) (ahead result.walk line.new flash.new spare.new disk.new out.new)) }
{
    let mut walk = w;
    for _ in 0..u64::MAX {
        let count = match streams::read_piece(streams, piece) {
            Ok(count) => count,
            Err(error) => {
                return Came {
                    walk,
                    stop: Err(Failure::Input(error)),
                };
            }
        };
        let told = turn(
            streams, walk, count, piece, line, buffer, flash, spare, disk, out,
        );
        walk = told.walk;
        if let Some(error) = told.failure {
            return Came {
                walk,
                stop: Err(Failure::Output(error)),
            };
        }
        if count == 0 {
            return Came { walk, stop: Ok(()) };
        }
    }
    Came {
        walk,
        stop: Err(Failure::Input(Error::other(""))),
    }
}

fn walk_input(
    streams: &mut Streams,
    piece: &mut [u8],
    line: &mut [u8],
    buffer: &mut [u8],
    flash: &mut [u8],
    spare: &mut [u8],
    disk: &mut [u8],
    out: &mut [u8],
) -> Came
    requires piece_len { (length piece.old ≡ 65536) × (length line.old ≡ line_room) × (most_read ≤ length buffer.old) × (length out.old ≡ 131072) }
    requires flash_value { (flash.old ≡ replicate 32768 0) × (spare.old ≡ replicate 32768 0) × (disk.old ≡ replicate 16384 0) }
    ensures reached { IfErr result.stop (λ _. result.walk.printed ≡ 0 → Reached output (ahead result.walk line.new flash.new spare.new disk.new out.new)) }
    ensures whole { IfOk result.stop (λ _. Whole (ahead result.walk line.new flash.new spare.new disk.new out.new)) }
{
    let start = input::start();
    walk_pieces(streams, start, piece, line, buffer, flash, spare, disk, out)
}

// Where the program stopped early standard error says why.
fn report(streams: &Streams, came: &Came) {
    match &came.stop {
        Ok(()) => {}
        Err(Failure::Input(error)) => streams::fail(streams, b"tugmerov: standard input", error),
        Err(Failure::Output(error)) => streams::fail(streams, b"tugmerov: standard output", error),
    }
}

fn main(rt: HostRuntime) {
    let mut streams = streams::open(&rt);
    let mut piece = [0u8; 65536];
    let mut line = [0u8; LINE_ROOM];
    let mut buffer = [0u8; 65536];
    let mut flash = [0u8; drive::FLASH];
    let mut spare = [0u8; drive::FLASH];
    let mut disk = [0u8; drive::DISK];
    let mut out = [0u8; 131072];
    let came = walk_input(
        &mut streams,
        &mut piece,
        &mut line,
        &mut buffer,
        &mut flash,
        &mut spare,
        &mut disk,
        &mut out,
    );
    report(&streams, &came);
}
