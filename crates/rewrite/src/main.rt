// The rewriting program: the text of a chip image from standard input, written again to standard output.
#![tactic(auto)]

ghost use Rattle.std.specs.Prelude.{◌≡◌, true, [], ◌∷◌, ◌++◌, ◌-◌, ◌≤◌, length, take, IfOk};
ghost use Rattle.lists.specs.Lists.{all, splice, part};
ghost use Rattle.model.specs.Tests.{first_failed, number};
ghost use Rattle.model.specs.Sizes.{limits, flash_size, spare_size};
ghost use Rattle.model.specs.Driving.{is_digit, bytes_of, digits_of, sizes_at};
ghost use Rattle.model.specs.Mail.{text_fault, text_of, image_of};
ghost use Rattle.rewrite.specs.Rewrite.{sizes_line, first_tests, no_chip, rewritten_text, rewritten};

use model::{Refusal, Sizes};
use std::io;
use streams::Streams;

// The digits of the first line, and the line with its line feed.
const DIGITS: usize = 18;

const LINE: usize = 19;

// The data bytes of the largest chip that is taken, and the spare bytes of 16,384 pages.
const DATA: usize = 1048576;

const SPARE: usize = 262144;

// The first line, and a line for each page of the largest chips and one more: a longer input has a faulty line among these.
const ROOM: usize = 2738234;

// The characters of a refusal: an accepted text is longer, by its first line alone.
const REFUSAL: usize = 7;

// Eighteen digits, and a line feed or the end of the input.
fn is_sizes_line(input: &[u8]) -> bool
    ensures { result ≡ sizes_line input.now }
{
    if input.len() < DIGITS {
        return false;
    }
    if !digits::all_digits(&input[..DIGITS]) {
        return false;
    }
    if input.len() == DIGITS {
        return true;
    }
    input[DIGITS] == 10
}

// "S (2) P (1) C (2) B (2) R (1) W (1)"
fn sizes_of(line: &[u8]) -> Sizes
    ensures { result ≡ sizes_at (bytes_of line.now) 0 }
{
    let s = digits::number_at(line, 0);
    let p = digits::byte_at(line, 2);
    let c = digits::number_at(line, 3);
    let b = digits::number_at(line, 5);
    let r = digits::byte_at(line, 7);
    let w = digits::byte_at(line, 8);
    Sizes {
        s,
        p: p as usize,
        c,
        b,
        r: r as usize,
        w: w as usize,
    }
}

// The tests of the first line.
fn check_first(input: &[u8]) -> Result<(), Refusal>
    ensures { number result ≡ first_failed (first_tests input.now) }
{
    if !is_sizes_line(input) {
        return Err(Refusal::Line);
    }
    let z = sizes_of(&input[..DIGITS]);
    if !geometry::limits(z) {
        return Err(Refusal::Limits);
    }
    if DATA < z.c * (z.p * z.s) {
        return Err(Refusal::NoRoom);
    }
    Ok(())
}

// The first line again, in capitals.
fn put_sizes(text: &mut [u8])
    requires { (19 ≤ length text.old) × (all is_digit (take 18 text.old) ≡ true) }
    ensures { text.new ≡ splice text.old 0 (digits_of (bytes_of (take 18 text.old)) ++ (10 ∷ [])) }
{
    let mut sizes = [0u8; 9];
    digits::decode(&text[..DIGITS], 0, &mut sizes);
    text::put_bytes(text, 0, &sizes);
    text[DIGITS] = 10;
}

// A text without a fault, read onto the chip and written again behind the first line.
fn write_again(
    z: Sizes,
    text: &mut [u8],
    from: usize,
    end: usize,
    flash: &mut [u8],
    spare: &mut [u8],
) -> usize
    requires z_value { (limits z ≡ true) × (flash_size z ≤ 1048576) × (length flash.old ≡ flash_size z) × (length spare.old ≡ spare_size z) }
    requires text_len { (length text.old ≡ 2738234) × (from ≤ end) × (end ≤ length text.old) × (all is_digit (take 18 text.old) ≡ true) }
    requires from_value { text_fault z (part text.old from (end - from)) ≡ 0 }
    ensures { (result ≤ length text.new) × (take result text.new ≡ digits_of (bytes_of (take 18 text.old)) ++ (10 ∷ text_of z (image_of z no_chip (part text.old from (end - from))))) }
{
    receive::read_text(z, &text[from..end], flash, spare);
    put_sizes(text);
    let written = send::write_text(z, flash, spare, &mut text[LINE..]);
    LINE + written.length
}

// The text behind the first line: written again, or the number and the line of its first fault.
fn rewrite_text(
    z: Sizes,
    text: &mut [u8],
    from: usize,
    end: usize,
    flash: &mut [u8],
    spare: &mut [u8],
) -> usize
    requires z_value { (limits z ≡ true) × (flash_size z ≤ 1048576) × (length flash.old ≡ 1048576) × (length spare.old ≡ 262144) }
    requires text_len { (length text.old ≡ 2738234) × (from ≤ end) × (end ≤ length text.old) × (all is_digit (take 18 text.old) ≡ true) }
    ensures { (result ≤ length text.new) × (take result text.new ≡ rewritten_text z (bytes_of (take 18 text.old)) (part text.old from (end - from))) }
{
    if let Err(fault) = receive::first_fault(z, &text[from..end]) {
        return text::show(fault.refusal.number(), fault.before + 2, b"", text);
    }
    let data = z.c * (z.p * z.s);
    let tags = z.c * z.p * 16;
    write_again(z, text, from, end, &mut flash[..data], &mut spare[..tags])
}

// The input is the buffer's first `end` bytes; the output is laid over it, from the start. It answers how long that is.
fn rewrite(text: &mut [u8], end: usize, flash: &mut [u8], spare: &mut [u8]) -> usize
    requires { (length text.old ≡ 2738234) × (end ≤ length text.old) × (length flash.old ≡ 1048576) × (length spare.old ≡ 262144) }
    ensures { (result ≤ length text.new) × (take result text.new ≡ rewritten (take end text.old)) }
{
    if let Err(refusal) = check_first(&text[..end]) {
        return text::show(refusal.number(), 1, b"", text);
    }
    let z = sizes_of(&text[..DIGITS]);
    let from = end.min(LINE);
    rewrite_text(z, text, from, end, flash, spare)
}

// How many bytes were read until the input ended or the buffer was full: what stands beyond cannot change the output.
fn read_input(streams: &mut Streams, text: &mut [u8]) -> io::Result<usize>
    ensures { IfOk result (λ count. count ≤ length text.new) }
{
    let mut count = 0;
    // no `for`: each step is as long as what was read
    while count < text.len() {
        let more = streams::read_piece(streams, &mut text[count..])?;
        if more == 0 {
            return Ok(count);
        }
        count += more;
    }
    Ok(count)
}

// A refusal goes to standard error too: behind a pipe nobody sees the output.
fn put_output(streams: &mut Streams, text: &[u8]) {
    if let Err(unwritten) = streams::write_out(streams, text) {
        streams::fail(streams, b"rewrite: standard output", &unwritten.error);
    }
    if text.len() == REFUSAL {
        streams::say(streams, b"rewrite: refused: ");
        streams::say(streams, text);
    }
}

// Where the read failed nothing is written.
fn run(streams: &mut Streams, text: &mut [u8], flash: &mut [u8], spare: &mut [u8])
    requires { (length text.old ≡ 2738234) × (length flash.old ≡ 1048576) × (length spare.old ≡ 262144) }
{
    match read_input(streams, text) {
        Ok(end) => {
            let length = rewrite(text, end, flash, spare);
            put_output(streams, &text[..length]);
        }
        Err(error) => streams::fail(streams, b"rewrite: standard input", &error),
    }
}

// The arrays as slices of their lengths.
fn lend(
    streams: &mut Streams,
    text: &mut [u8; ROOM],
    flash: &mut [u8; DATA],
    spare: &mut [u8; SPARE],
) {
    run(streams, text, flash, spare);
}

fn main(rt: HostRuntime) {
    let mut streams = streams::open(&rt);
    let mut text = [0u8; ROOM];
    let mut flash = [0u8; DATA];
    let mut spare = [0u8; SPARE];
    lend(&mut streams, &mut text, &mut flash, &mut spare);
}
