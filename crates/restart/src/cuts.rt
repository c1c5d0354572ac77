// Calls cut after no store, after one, and so on until they are whole, each on the mix anew; an erase that came next stopped halfway, or the page
// of a program that came next spoiled.
ghost use Rattle.std.specs.Prelude.{◌<◌, ◌≤◌, IfSome};

use crate::back::Back;
use crate::pages::PAGES;
use crate::row::Call;
use crate::run::Run;
use crate::spoil::Program;
use crate::{back, pages, run, spoil, tear};
use model::{Answer, Sizes};
use std::io;
use std::io::{Cursor, Stdout, Write};

// The characters of a line before its last word.
const LINE: usize = 17;

// A cut call, and what the restart behind it came to.
#[derive(Clone, Copy)]
struct Way {
    run: Run,
    back: Back,
}

// The store that came next: the first page that it blanked, and what it programmed.
#[derive(Clone, Copy)]
struct Next {
    blanked: Option<usize>,
    program: Option<Program>,
}

// Writes that append, evict their own bucket or a victim, by the chip; reads that hit and that evict; an erase step; a drain.
fn cut_calls() -> [Call; 7] {
    [
        Call::write(0, 0, 1, 0),
        Call::write(1, 0, 1, 0),
        Call::write(3, 0, 1, 0),
        Call::read(0, 0, 1, 0),
        Call::read(1, 0, 1, 0),
        Call::EraseStep,
        Call::Drain,
    ]
}

fn letter_of_call(call: Call) -> char {
    match call {
        Call::Format => 'F',
        Call::Read(_) => 'R',
        Call::Write(_) => 'W',
        Call::EraseStep => 'E',
        Call::Drain => 'D',
    }
}

pub fn letter_of_answer(answer: Answer) -> char {
    match answer {
        Answer::Done => 'D',
        Answer::Idle => 'I',
        Answer::Cut => 'C',
        Answer::Refused(_) => 'R',
    }
}

// The call, its allowance, its answer and stores; the stores of the recovery; the erases that stopped halfway, each set of pages counted; the
// pages that were spoiled, each way counted; whether each confirmed write is there in every case. Of a number two digits are printed. The line goes
// out in two writes: its pieces one by one would be as many messages, or fill an output that does not wait.
fn print(mut out: Stdout, call: Call, allowance: usize, way: Way) -> io::Result<()> {
    let call = letter_of_call(call);
    let answer = letter_of_answer(way.run.answer);
    let stores = way.run.stores % 100;
    let again = way.back.stores % 100;
    let torn = way.back.torn % 100;
    let spoiled = way.back.spoiled % 100;
    let mut line = Cursor::new([0u8; LINE]);
    write!(
        line,
        "{call}{allowance:02} {answer}{stores:02} {again:02} {torn:02} {spoiled:02} "
    )?;
    out.write_all(line.get_ref())?;
    out.write_all(if way.back.kept { b"ok\n" } else { b"LOST\n" })
}

// The mix, and the call with its allowance.
fn cut_run(
    z: Sizes,
    call: Call,
    allowance: usize,
    flash: &mut [u8],
    spare: &mut [u8],
    disk: &mut [u8],
) -> Run {
    let start = run::mixed(z, flash, spare, disk);
    run::make(start, z, call, allowance, 99, flash, spare, disk)
}

// What one store more changes.
fn next_store(
    z: Sizes,
    call: Call,
    allowance: usize,
    flash: &mut [u8],
    spare: &mut [u8],
    disk: &mut [u8],
) -> Next
    requires { allowance ≤ 32 }
    ensures blanked { IfSome result.blanked (λ page. page < PAGES) }
    ensures program { IfSome result.program (λ program. program.page < PAGES) }
{
    cut_run(z, call, allowance, flash, spare, disk);
    let before = pages::blanks(spare);
    cut_run(z, call, allowance + 1, flash, spare, disk);
    let after = pages::blanks(spare);
    let program = match pages::first_blank(before, after) {
        Some(page) => Some(Program {
            page,
            content: pages::page_at(z, page, flash, spare),
        }),
        None => None,
    };
    Next {
        blanked: pages::first_blank(after, before),
        program,
    }
}

// The cut, what it left of the next store, and the restart.
fn one_way(
    z: Sizes,
    call: Call,
    allowance: usize,
    next: Next,
    way: usize,
    flash: &mut [u8],
    spare: &mut [u8],
    disk: &mut [u8],
) -> Way
    requires blanked { IfSome next.blanked (λ page. page < PAGES) }
    requires program { IfSome next.program (λ program. program.page < PAGES) }
{
    let run = cut_run(z, call, allowance, flash, spare, disk);
    let torn = tear::tear(z, next.blanked, way, flash, spare);
    let spoiled = spoil::spoil(z, next.program, way, allowance % 16, flash, spare);
    let back = back::restart(run, z, way, flash, spare, disk);
    Way {
        run,
        back: back.and_damaged(torn, spoiled),
    }
}

// Each set of a bucket's pages is tried, and each way to spoil a page.
fn ways(z: Sizes, program: Option<Program>) -> usize
    ensures { result ≤ 16 }
{
    let sets = tear::sets(z);
    if program.is_some() {
        sets.max(spoil::WAYS)
    } else {
        sets
    }
}

fn all_ways(
    z: Sizes,
    call: Call,
    allowance: usize,
    next: Next,
    flash: &mut [u8],
    spare: &mut [u8],
    disk: &mut [u8],
) -> Way
    requires blanked { IfSome next.blanked (λ page. page < PAGES) }
    requires program { IfSome next.program (λ program. program.page < PAGES) }
{
    let mut all = one_way(z, call, allowance, next, 0, flash, spare, disk);
    for way in 1..ways(z, next.program) {
        let other = one_way(z, call, allowance, next, way, flash, spare, disk);
        all.back = all.back.and(other.back);
    }
    all
}

fn cut_at(
    z: Sizes,
    call: Call,
    allowance: usize,
    flash: &mut [u8],
    spare: &mut [u8],
    disk: &mut [u8],
) -> Way
    requires { allowance ≤ 32 }
{
    let next = next_store(z, call, allowance, flash, spare, disk);
    all_ways(z, call, allowance, next, flash, spare, disk)
}

fn cut_everywhere(
    out: Stdout,
    z: Sizes,
    call: Call,
    flash: &mut [u8],
    spare: &mut [u8],
    disk: &mut [u8],
) -> io::Result<()> {
    for allowance in 0..32 {
        let way = cut_at(z, call, allowance, flash, spare, disk);
        print(out, call, allowance, way)?;
        if !matches!(way.run.answer, Answer::Cut) {
            return Ok(());
        }
    }
    Ok(())
}

pub fn cut_all(
    out: Stdout,
    z: Sizes,
    flash: &mut [u8],
    spare: &mut [u8],
    disk: &mut [u8],
) -> io::Result<()> {
    for call in cut_calls() {
        cut_everywhere(out, z, call, flash, spare, disk)?;
    }
    Ok(())
}
