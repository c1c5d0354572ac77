// Chip images by mail, read: a text's lines are looked at one after the other, and laid onto the chip once none is faulty.
#![tactic(auto)]

ghost use Rattle.std.specs.Prelude.{◌≡◌, true, List, [], ◌∷◌, map, ℕ, ◌*◌, ◌<◌, length, OnOk};
ghost use Rattle.lists.specs.Lists.{all};
ghost use Rattle.model.specs.Tests.{first_failed, number};
ghost use Rattle.model.specs.Sizes.{flash_size, spare_size};
ghost use Rattle.model.specs.Stores.{apply, apply_all};
ghost use Rattle.model.specs.Driving.{lines_of};
ghost use Rattle.model.specs.Mail.{line_reads, place_of, line_tests, text_fault, read_tests, line_store, read_text};
ghost use Rattle.model.proofs.Limits.{Limits};
ghost use Rattle.geometry.specs.Geometry.{device};
ghost use Rattle.receive.specs.Given.{Marks, sound_lines, fault_number, lines_before, text_read};

use model::{Answer, Refusal, Sizes};

// The most pages of a chip.
const PAGES: usize = 16384;

// The bytes of a frame before the page's data: bucket, page, spare bytes.
const HEAD: usize = 19;

// Why the first faulty line is turned down, and how many lines stand before it.
#[derive(Clone, Copy, PartialEq, Eq)]
pub struct Fault {
    pub refusal: Refusal,
    pub before: usize,
}

// Nothing that number 9 turns down.
fn line_reads(z: Sizes, line: &[u8]) -> bool
    requires { Limits z }
    ensures { result ≡ line_reads z line.now }
{
    if line.len() != (HEAD + z.s) * 2 {
        return false;
    }
    if !digits::all_digits(line) {
        return false;
    }
    let bucket = digits::number_at(line, 0);
    let page = digits::byte_at(line, 2);
    let mut tag = [0u8; 16];
    digits::decode(line, 3, &mut tag);
    let blank = spare::is_blank(&tag);
    (bucket < z.c) & ((page as usize) < z.p) & !blank
}

// The page that a line gives, counted over the whole chip.
fn place_of(z: Sizes, line: &[u8]) -> usize
    requires { Limits z × (line_reads z line.now ≡ true) }
    ensures { (result ≡ place_of z line.now) × (result < z.c * z.p) }
{
    let bucket = digits::number_at(line, 0);
    let page = digits::byte_at(line, 2);
    bucket * z.p + (page as usize)
}

// A line that passes has its page marked as given.
fn check_line(z: Sizes, line: &[u8], marks: &mut [bool]) -> Result<(), Refusal>
    requires { Limits z × (length marks.old ≡ 16384) }
    ensures by_index { (given : List ℕ) → Marks marks.old given → (number result ≡ first_failed (line_tests z given line.now)) × OnOk result (Marks marks.new (place_of z line.now ∷ given)) }
    ensures marks_len { length marks.new ≡ 16384 }
{
    if !line_reads(z, line) {
        return Err(Refusal::Line);
    }
    let page = place_of(z, line);
    if marks[page] {
        return Err(Refusal::Twice);
    }
    marks[page] = true;
    Ok(())
}

// How many lines the text has, if none is faulty. A mark for each page tells those that were given.
pub fn first_fault(z: Sizes, text: &[u8]) -> Result<usize, Fault>
    requires { Limits z }
    ensures { (fault_number result ≡ text_fault z text.now) × (lines_before result ≡ sound_lines z [] (lines_of text.now)) }
{
    let mut marks = [false; PAGES];
    let mut before = 0;
    let mut at = 0;
    // no `for`: each step is as long as the line
    while at < text.len() {
        let end = lines::line_end(text, at);
        if let Err(refusal) = check_line(z, &text[at..end], &mut marks) {
            return Err(Fault { refusal, before });
        }
        before += 1;
        at = end + 1;
    }
    Ok(before)
}

// The page's digits go straight into its parts of the chip.
fn lay_line(z: Sizes, line: &[u8], flash: &mut [u8], spare: &mut [u8])
    requires limits { Limits z × (line_reads z line.now ≡ true) }
    requires flash_len { (length flash.old ≡ flash_size z) × (length spare.old ≡ spare_size z) }
    ensures spare_after { device flash.new spare.new [] ≡ apply z (device flash.old spare.old []) (line_store z line.now) }
    ensures flash_len_2 { (length flash.new ≡ flash_size z) × (length spare.new ≡ spare_size z) }
{
    let page = place_of(z, line);
    let spare_at = page * 16;
    let spare_end = spare_at + 16;
    let data_at = page * z.s;
    let data_end = data_at + z.s;
    digits::decode(line, 3, &mut spare[spare_at..spare_end]);
    digits::decode(line, HEAD, &mut flash[data_at..data_end]);
}

// Line by line, once none is faulty.
fn lay_lines(z: Sizes, text: &[u8], flash: &mut [u8], spare: &mut [u8])
    requires limits { Limits z × (all (line_reads z) (lines_of text.now) ≡ true) }
    requires flash_len { (length flash.old ≡ flash_size z) × (length spare.old ≡ spare_size z) }
    ensures { device flash.new spare.new [] ≡ apply_all z (device flash.old spare.old []) (map (line_store z) (lines_of text.now)) }
{
    let mut at = 0;
    // no `for`: each step is as long as the line
    while at < text.len() {
        let end = lines::line_end(text, at);
        lay_line(z, &text[at..end], flash, spare);
        at = end + 1;
    }
}

fn check_text(z: Sizes, text: &[u8], flash: &[u8], spare: &[u8]) -> Result<(), Refusal>
    ensures { number result ≡ first_failed (read_tests z (device flash.now spare.now []) text.now) }
{
    geometry::check_chip(z, flash, spare)?;
    match first_fault(z, text) {
        Ok(lines) => Ok(()),
        Err(fault) => Err(fault.refusal),
    }
}

// The text is read twice: nothing is touched before its last line is known to be right.
pub fn read_text(z: Sizes, text: &[u8], flash: &mut [u8], spare: &mut [u8]) -> Answer
    ensures { text_read result (device flash.new spare.new []) ≡ read_text z (device flash.old spare.old []) text.now }
{
    if let Err(refusal) = check_text(z, text, flash, spare) {
        return Answer::Refused(refusal.number());
    }
    area::fill(flash, 255);
    area::fill(spare, 255);
    lay_lines(z, text, flash, spare);
    Answer::Done
}
