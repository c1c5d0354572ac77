// What was compared, and what is printed of it.
use std::fmt;
use std::fmt::Write;

#[derive(Clone, Copy, Default)]
pub struct Tally {
    pub merges: usize,
    // of which with no, one, or several Write buckets
    pub none: usize,
    pub one: usize,
    pub several: usize,
    // logs on the Write buckets of the merges that were begun and have no end
    pub abandoned: usize,
    // erases that stopped halfway
    pub torn: usize,
    // pages that a cut spoiled
    pub spoiled: usize,
    pub bytes: usize,
    pub differing: usize,
}

impl Tally {
    pub fn and(self, other: Tally) -> Tally {
        Tally {
            merges: self.merges.wrapping_add(other.merges),
            none: self.none.wrapping_add(other.none),
            one: self.one.wrapping_add(other.one),
            several: self.several.wrapping_add(other.several),
            abandoned: self.abandoned.wrapping_add(other.abandoned),
            torn: self.torn.wrapping_add(other.torn),
            spoiled: self.spoiled.wrapping_add(other.spoiled),
            bytes: self.bytes.wrapping_add(other.bytes),
            differing: self.differing.wrapping_add(other.differing),
        }
    }
}

// A merge of so many Write buckets, whose bytes either merge has made.
pub fn compared(buckets: usize, one: &[u8], other: &[u8]) -> Tally {
    Tally {
        merges: 1,
        none: usize::from(buckets == 0),
        one: usize::from(buckets == 1),
        several: usize::from(1 < buckets),
        bytes: one.len(),
        differing: one.iter().zip(other).filter(|(x, y)| x != y).count(),
        ..Tally::default()
    }
}

impl fmt::Display for Tally {
    fn fmt<W: fmt::Write>(&self, f: &mut fmt::Formatter<W>) -> fmt::Result {
        let Tally {
            merges,
            none,
            one,
            several,
            abandoned,
            torn,
            spoiled,
            bytes,
            differing,
        } = *self;
        write!(
            f,
            ": merges {merges}, of no Write bucket {none}, one {one}, several {several}"
        )?;
        write!(
            f,
            "; abandoned logs {abandoned}; torn erases {torn}; spoiled pages {spoiled}"
        )?;
        write!(f, "; bytes {bytes}, differing {differing}")
    }
}
