// The program's input, taken in pieces: bytes are gathered into lines, and each line is walked once it is whole.
#![tactic(auto)]

ghost use Rattle.std.specs.Prelude.{◌≡◌, List, ◌++◌, ℕ, ◌+◌, ◌<◌, ◌≤◌, length, take, drop, replicate};
ghost use Rattle.model.specs.Driving.{output};
ghost use Rattle.drive.specs.Recorder.{longest_text, Ready};
ghost use Rattle.input.specs.declared.Walk.{Walk};
ghost use Rattle.input.specs.Ahead.{ahead, closer, Sound};

use drive::Recorder;

// How far the program has come.
#[derive(Clone, Copy)]
pub struct Walk {
    pub recorder: Recorder,
    // the bytes held of a line that is not whole yet
    pub held: usize,
    // the bytes passed of the piece
    pub passed: usize,
    // the characters printed and not yet written
    pub printed: usize,
}

// Line by line, each walked once it is whole, up to the end of the piece or of the room for its text.
pub fn advance(
    w: Walk,
    piece: &[u8],
    line: &mut [u8],
    buffer: &mut [u8],
    flash: &mut [u8],
    spare: &mut [u8],
    disk: &mut [u8],
    out: &mut [u8],
) -> Walk
    requires sound { Sound w line.old buffer.old flash.old spare.old disk.old out.old }
    requires passed_in_bounds { (w.passed < length piece.now) × (w.printed + longest_text ≤ length out.old) }
    ensures by_index { (rest : List ℕ) → ahead result line.new flash.new spare.new disk.new out.new (drop result.passed piece.now ++ rest) ≡ ahead w line.old flash.old spare.old disk.old out.old (drop w.passed piece.now ++ rest) }
    ensures sound_2 { Sound result line.new buffer.new flash.new spare.new disk.new out.new × (w.passed < result.passed) × (result.passed ≤ length piece.now) }
{
    let mut walk = w;
    // no `for`: each step is as long as the line
    while walk.passed < piece.len() && drive::LONGEST_TEXT <= out.len() - walk.printed {
        let from = walk.passed;
        let end = lines::line_end(piece, from);
        let held = lines::gather(line, walk.held, &piece[from..end]);
        walk.held = held;
        walk.passed = end;
        if end < piece.len() {
            let at = walk.printed;
            let made = drive::on_line(
                walk.recorder,
                &line[..held],
                buffer,
                flash,
                spare,
                disk,
                &mut out[at..],
            );
            let recorder = made.recorder;
            let passed = end + 1;
            let printed = at + made.length;
            walk = Walk {
                recorder,
                held: 0,
                passed,
                printed,
            };
        }
    }
    walk
}

// What stands for the rest of the input at its end: the line feed that a held line lacks, so that every line is walked at one place.
pub fn closing(held: usize, piece: &mut [u8]) -> usize
    requires { 1 ≤ length piece.old }
    ensures { (take result piece.new ≡ closer held) × (result ≤ length piece.new) }
{
    if held == 0 {
        return 0;
    }
    piece[0] = 10;
    1
}

// Nothing read, nothing printed, no format yet.
pub fn start() -> Walk
    ensures by_index { (line out input : List ℕ) → ahead result line (replicate 32768 0) (replicate 32768 0) (replicate 16384 0) out input ≡ output input }
    ensures ready { Ready result.recorder.formatted result.recorder.sizes × (result.held ≡ 0) × (result.printed ≡ 0) }
{
    let recorder = Recorder::unformatted();
    Walk {
        recorder,
        held: 0,
        passed: 0,
        printed: 0,
    }
}
