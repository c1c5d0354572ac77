// The plain data that the code and the definitions share.
#![tactic(auto)]

ghost use Rattle.std.specs.Prelude.{◌≡◌};
ghost use Rattle.model.specs.Tests.{number_of};

// The state of a page, its spare byte 0.
pub const READ_KIND: u8 = 1;

pub const WRITE_KIND: u8 = 2;

pub const DIRTY_KIND: u8 = 3;

pub const LEDGER_KIND: u8 = 4;

// The last next epoch at which a write is taken; behind it fewer than two are left.
pub const LAST_EPOCH: u64 = 4294967294;

// The next epoch once none is left.
pub const EPOCHS_END: u64 = 4294967296;

// The highest count of accepted writes: the next halves all priorities.
pub const LAST_COUNT: u8 = 15;

// Document 01's answer bytes beside the refusals' numbers; the last two are of lines that make no call.
pub const DONE: u8 = 0x00;

pub const IDLE: u8 = 0x10;

pub const CUT: u8 = 0x11;

pub const NO_FRAME: u8 = 0xF0;

pub const NO_ROOM: u8 = 0xF1;

// Document 01's S, P, C, B, R and W.
#[derive(Clone, Copy)]
pub struct Sizes {
    pub s: usize,
    pub p: usize,
    pub c: usize,
    pub b: usize,
    pub r: usize,
    pub w: usize,
}

// A record of the read or the write queue. The priority, the blank pages of its bucket and the mark, that its logs are all in the read bucket, are of
// the write queue alone.
#[derive(Clone, Copy)]
pub struct Entry {
    pub back: u16,
    pub cache: u8,
    pub priority: u8,
    pub blank: u8,
    pub marked: bool,
}

// Why a call, a text or a line is turned down: document 01's numbers 1 to 8, document 02's 9 and 10, and the two of lines that make no call.
#[derive(Clone, Copy, PartialEq, Eq)]
pub enum Refusal {
    // a size outside its limits
    Limits,
    // a lent length that is not its own
    Lengths,
    // a state that is not running
    NotRunning,
    // a chip that the page rules do not make
    Image,
    // queues that do not fit the chip
    State,
    // no such bucket or page
    Place,
    // a length of 0, or an end beyond the bucket's
    Range,
    // fewer than two epochs left
    Epochs,
    // a line that is no page
    Line,
    // a page given twice
    Twice,
    // a line that is no frame
    NoFrame,
    // sizes beyond a program's own buffers
    NoRoom,
}

impl Refusal {
    pub fn number(self) -> u8
        ensures { result ≡ number_of self }
    {
        match self {
            Refusal::Limits => 1,
            Refusal::Lengths => 2,
            Refusal::NotRunning => 3,
            Refusal::Image => 4,
            Refusal::State => 5,
            Refusal::Place => 6,
            Refusal::Range => 7,
            Refusal::Epochs => 8,
            Refusal::Line => 9,
            Refusal::Twice => 10,
            Refusal::NoFrame => NO_FRAME,
            Refusal::NoRoom => NO_ROOM,
        }
    }
}

#[derive(Clone, Copy)]
pub enum Answer {
    Done,
    Idle,
    Cut,
    Refused(u8),
}

// What a write would do: what it answers, the stores that it makes, the back-end bucket whose Write bucket it sends to GC, if one goes, and the next
// epoch that it leaves.
#[derive(Clone, Copy)]
pub struct Preview {
    pub answer: Answer,
    pub stores: usize,
    pub victim: Option<u16>,
    pub next: u64,
}
