// Programs that a cut spoils: the chip reports spare state 0, and the page's other bytes are anything.
ghost use Rattle.std.specs.Prelude.{◌<◌, ◌≤◌, IfSome};

use crate::pages;
use crate::pages::{PAGES, Page};
use model::Sizes;

// A program that came next: of which page, and what it programmed there.
#[derive(Clone, Copy)]
pub struct Program {
    pub page: usize,
    pub content: Page,
}

// What a spoiled page reads as.
#[derive(Clone, Copy)]
enum Content {
    Zeros,
    Blank,
    LogEnd,
    LedgerEntry,
    TagAlone,
    DataAlone,
    Whole,
}

// What is tried of a page whose program came next: that it stays blank, and each content of a spoiled one.
pub const WAYS: usize = 8;

fn content_of(way: usize) -> Option<Content> {
    match way % WAYS {
        0 => None,
        1 => Some(Content::Zeros),
        2 => Some(Content::Blank),
        3 => Some(Content::LogEnd),
        4 => Some(Content::LedgerEntry),
        5 => Some(Content::TagAlone),
        6 => Some(Content::DataAlone),
        _ => Some(Content::Whole),
    }
}

// The last page of a log of one page, with the epoch and the back-end bucket of the program.
fn log_end(program: Page) -> Page {
    let tag = program.tag;
    Page {
        tag: [
            0, 0, 1, 0, tag[4], tag[5], tag[6], tag[7], tag[8], tag[9], 0, 0, 0, 0, 0, 3,
        ],
        data: [90u8; 16],
    }
}

// The ledger's entry for cache bucket c as it is.
fn ledger_entry(z: Sizes, c: usize, flash: &[u8], spare: &[u8]) -> Page
    requires { c ≤ 15 }
{
    let tag = pages::page_at(z, c * pages::in_bucket(z), flash, spare).tag;
    Page {
        tag: [
            0, 0, 1, 0, tag[4], tag[5], tag[6], tag[7], 0, c as u8, 0, 0, 0, 0, 0, 0,
        ],
        data: [255u8; 16],
    }
}

// What the page reads as but for its state; c is the cache bucket that it seems to name.
fn read_as(z: Sizes, content: Content, program: Page, c: usize, flash: &[u8], spare: &[u8]) -> Page
    requires { c ≤ 15 }
{
    match content {
        Content::Zeros => Page::filled(0),
        Content::Blank => Page::filled(255),
        Content::LogEnd => log_end(program),
        Content::LedgerEntry => ledger_entry(z, c, flash, spare),
        Content::TagAlone => Page {
            data: [0u8; 16],
            ..program
        },
        Content::DataAlone => Page {
            tag: [255u8; 16],
            ..program
        },
        Content::Whole => program,
    }
}

// The page of the program, if there is one, is spoiled in one of the ways, if the way does so. Returns how many were.
pub fn spoil(
    z: Sizes,
    program: Option<Program>,
    way: usize,
    c: usize,
    flash: &mut [u8],
    spare: &mut [u8],
) -> usize
    requires { IfSome program (λ at. at.page < PAGES) × (c ≤ 15) }
    ensures { result ≤ 1 }
{
    let (Some(program), Some(content)) = (program, content_of(way)) else {
        return 0;
    };
    let mut spoiled = read_as(z, content, program.content, c, flash, spare);
    spoiled.tag[0] = 0;
    pages::put(z, program.page, spoiled, flash, spare);
    1
}
