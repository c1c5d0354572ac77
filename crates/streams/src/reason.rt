// Why a call failed, in the words of the C library alone.
ghost use Rattle.std.specs.Prelude.{◌≤◌, length};

use std::fmt;
use std::fmt::Write;
use std::io::Error;

const ROOM: usize = 128;

// What an error prints behind the words: its number.
const NUMBER: &[u8; 11] = b" (os error ";

// An error as it is printed, as far as there is room.
#[derive(Drop)]
pub struct Reason {
    bytes: [u8; ROOM],
    length: usize,
}

impl fmt::Write for Reason {
    fn write_str(&mut self, s: &str) -> fmt::Result {
        for b in s.as_bytes() {
            if self.length < ROOM {
                self.bytes[self.length] = *b;
                self.length += 1;
            }
        }
        Ok(())
    }
}

impl Reason {
    pub fn words(&self) -> &[u8] {
        let held = self.length.min(ROOM);
        let text = &self.bytes[..held];
        let end = words_end(text);
        &text[..end]
    }
}

// Where the number begins, or the text ends.
fn words_end(text: &[u8]) -> usize
    ensures { result ≤ length text.now }
{
    for i in 0..text.len() {
        if text[i..].starts_with(NUMBER) {
            return i;
        }
    }
    text.len()
}

pub fn reason_of(error: &Error) -> Reason {
    let mut reason = Reason {
        bytes: [0; ROOM],
        length: 0,
    };
    let _ = write!(reason, "{error}");
    reason
}
