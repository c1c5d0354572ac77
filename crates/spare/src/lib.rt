// The sixteen spare bytes of a page: written from fields, and read.
#![tactic(auto)]

ghost use Rattle.std.specs.Prelude.{◌≡◌, ◌&&◌, ◌+◌, ◌*◌, ◌≤◌, eqb, not, length};
ghost use Rattle.lists.specs.Lists.{all_below, same, part, ff};
ghost use Rattle.model.specs.Spare.{two, four, blank, programmed, kind, ordinal, pages, epoch, back, zeros, entry_tag};
ghost use Rattle.spare.specs.Fields.{tag, fields, seen, blank_from};

// What the erased bytes of a blank page read as.
pub const NO_KIND: u8 = 255;

// The spare state that the chip reports for a spoiled page.
pub const SPOILED_KIND: u8 = 0;

// What the spare bytes of a programmed page say. `last` is the log's length less one.
#[derive(Clone, Copy)]
pub struct Fields {
    pub kind: u8,
    pub ordinal: u8,
    pub pages: u8,
    pub epoch: u32,
    pub back: u16,
    pub offset: u16,
    pub last: u16,
}

// What a page is by its spare bytes.
#[derive(Clone, Copy)]
pub enum Seen {
    Blank,
    Spoiled,
    Programmed(Fields),
}

// The spare bytes with these fields, numbers high byte first.
pub fn encode(f: Fields) -> [u8; 16]
    ensures { result ≡ tag f }
{
    let [e0, e1, e2, e3] = f.epoch.to_be_bytes();
    let [b0, b1] = f.back.to_be_bytes();
    let [o0, o1] = f.offset.to_be_bytes();
    let [l0, l1] = f.last.to_be_bytes();
    [
        f.kind, f.ordinal, f.pages, 0, e0, e1, e2, e3, b0, b1, 0, 0, o0, o1, l0, l1,
    ]
}

// The two bytes from index i on, as a number.
fn two_at(bytes: &[u8], i: usize) -> u16
    requires { i + 2 ≤ length bytes.now }
    ensures { result ≡ two bytes.now i }
{
    u16::from_be_bytes([bytes[i], bytes[i + 1]])
}

// The four bytes from index i on, as a number.
fn four_at(bytes: &[u8], i: usize) -> u32
    requires { i + 4 ≤ length bytes.now }
    ensures { result ≡ four bytes.now i }
{
    u32::from_be_bytes([bytes[i], bytes[i + 1], bytes[i + 2], bytes[i + 3]])
}

// The fields that sixteen spare bytes say.
fn decode(bytes: &[u8]) -> Fields
    requires { length bytes.now ≡ 16 }
    ensures { result ≡ fields bytes.now }
{
    let epoch = four_at(bytes, 4);
    let back = two_at(bytes, 8);
    let offset = two_at(bytes, 12);
    let last = two_at(bytes, 14);
    Fields {
        kind: bytes[0],
        ordinal: bytes[1],
        pages: bytes[2],
        epoch,
        back,
        offset,
        last,
    }
}

// Whether two areas hold the same bytes.
// To the end, whatever differs: that makes wide compares, where `==` stops at each few bytes.
pub fn equal(a: &[u8], b: &[u8]) -> bool
    ensures { result ≡ same a.now b.now }
{
    if a.len() != b.len() {
        return false;
    }
    let mut alike = true;
    for i in 0..a.len() {
        alike = alike & (a[i] == b[i]);
    }
    alike
}

// Whether these are the spare bytes of an erased page.
pub fn is_blank(bytes: &[u8]) -> bool
    ensures { result ≡ blank bytes.now }
{
    let erased = b"\xff\xff\xff\xff\xff\xff\xff\xff\xff\xff\xff\xff\xff\xff\xff\xff";
    equal(bytes, erased)
}

// The same of eight pages or more, one behind the other, compared with the fixed string eight at a time: few wide compares.
// The last eight may be compared in part once more, so that no page is left to be compared by itself.
fn eights_erased(bytes: &[u8]) -> bool
    requires { 128 ≤ length bytes.now }
    ensures { result ≡ same bytes.now (ff (length bytes.now)) }
{
    let erased = [255u8; 128];
    let last = bytes.len() - 128;
    let mut alike = true;
    let mut i = 0;
    // no `for`: each step is eight pages. Chunks and `==` took 20,000 instructions more for a call's look at all spare bytes.
    while i < last {
        let end = i + 128;
        let eight = equal(&bytes[i..end], &erased);
        alike = alike & eight;
        i = end;
    }
    alike & equal(&bytes[last..], &erased)
}

// The same of any number of pages.
fn all_erased(bytes: &[u8]) -> bool
    ensures { result ≡ same bytes.now (ff (length bytes.now)) }
{
    let size = bytes.len();
    if 128 <= size {
        return eights_erased(bytes);
    }
    let erased = [255u8; 128];
    equal(bytes, &erased[..size])
}

// Whether n pages of the spare area are all blank, from this page on.
pub fn are_blank(spare: &[u8], page: usize, n: usize) -> bool
    requires { (page + n) * 16 ≤ length spare.now }
    ensures { result ≡ all_below n (blank_from spare.now page) }
{
    if n == 0 {
        return true;
    }
    let start = page * 16;
    let end = (page + n) * 16;
    all_erased(&spare[start..end])
}

// What sixteen spare bytes are: those of an erased page, those of a spoiled one, which say no more, or fields.
fn seen_in(bytes: &[u8]) -> Seen
    requires { length bytes.now ≡ 16 }
    ensures { result ≡ seen bytes.now }
{
    if is_blank(bytes) {
        Seen::Blank
    } else if bytes[0] == SPOILED_KIND {
        Seen::Spoiled
    } else {
        Seen::Programmed(decode(bytes))
    }
}

// The sixteen spare bytes of a page, counted over the whole chip.
fn tag_at(spare: &[u8], page: usize) -> &[u8]
    requires { page * 16 + 16 ≤ length spare.now }
    ensures size { length result.now ≡ 16 }
    ensures bytes { result.now ≡ part spare.now (page * 16) 16 }
{
    let start = page * 16;
    let end = start + 16;
    &spare[start..end]
}

// The fields that a page's bytes say, erased or not.
pub fn fields_at(spare: &[u8], page: usize) -> Fields
    requires { page * 16 + 16 ≤ length spare.now }
    ensures { result ≡ fields (part spare.now (page * 16) 16) }
{
    decode(tag_at(spare, page))
}

// What a page of the spare area is.
pub fn seen_at(spare: &[u8], page: usize) -> Seen
    requires { page * 16 + 16 ≤ length spare.now }
    ensures { result ≡ seen (part spare.now (page * 16) 16) }
{
    seen_in(tag_at(spare, page))
}

// Whether a page is blank.
pub fn blank_at(spare: &[u8], page: usize) -> bool
    requires { page * 16 + 16 ≤ length spare.now }
    ensures { result ≡ blank (part spare.now (page * 16) 16) }
{
    is_blank(tag_at(spare, page))
}

// Whether sixteen spare bytes are those of an entry of the erase ledger, for some bucket and some epoch: all other bytes are fixed.
fn entry_bytes(bytes: &[u8]) -> bool
    requires { length bytes.now ≡ 16 }
    ensures { result ≡ same bytes.now (entry_tag (epoch bytes.now) (back bytes.now)) }
{
    let entry = Fields {
        kind: model::LEDGER_KIND,
        ordinal: 0,
        pages: 1,
        epoch: four_at(bytes, 4),
        back: two_at(bytes, 8),
        offset: 0,
        last: 0,
    };
    equal(bytes, &encode(entry))
}

// Whether a page is such an entry.
pub fn entry_at(spare: &[u8], page: usize) -> bool
    requires { page * 16 + 16 ≤ length spare.now }
    ensures { result ≡ (same (part spare.now (page * 16) 16) (entry_tag (epoch (part spare.now (page * 16) 16)) (back (part spare.now (page * 16) 16)))) }
{
    entry_bytes(tag_at(spare, page))
}

// Whether the zero bytes of sixteen spare bytes are zero.
fn zero_bytes(bytes: &[u8]) -> bool
    requires { length bytes.now ≡ 16 }
    ensures { result ≡ zeros bytes.now }
{
    (bytes[3] == 0) & (bytes[10] == 0) & (bytes[11] == 0)
}

// Whether the zero bytes of a page are zero.
pub fn zeroed(spare: &[u8], page: usize) -> bool
    requires { page * 16 + 16 ≤ length spare.now }
    ensures { result ≡ zeros (part spare.now (page * 16) 16) }
{
    zero_bytes(tag_at(spare, page))
}

// The back-end bucket of a page; the erased bytes of a blank one read as 65,535, which is below no B.
pub fn back_at(spare: &[u8], page: usize) -> u16
    requires { page * 16 + 16 ≤ length spare.now }
    ensures { result ≡ back (part spare.now (page * 16) 16) }
{
    two_at(tag_at(spare, page), 8)
}

// The kind of a page, or `NO_KIND`.
pub fn kind_at(spare: &[u8], page: usize) -> u8
    requires { page * 16 + 16 ≤ length spare.now }
    ensures { result ≡ kind (part spare.now (page * 16) 16) }
{
    tag_at(spare, page)[0]
}

// Whether the kind is that of a programmed page, in a bucket where a page is blank if it has no kind.
pub fn programmed_kind(kind: u8) -> bool
    ensures { result ≡ (not (eqb kind 255) && not (eqb kind 0)) }
{
    (kind != NO_KIND) & (kind != SPOILED_KIND)
}

// Whether the page is the last of its log. A spoiled one is of no log, and the erased bytes of a blank one say that it is not the last.
pub fn ends_at(spare: &[u8], page: usize) -> bool
    requires { page * 16 + 16 ≤ length spare.now }
    ensures { result ≡ (programmed (part spare.now (page * 16) 16) && eqb (ordinal (part spare.now (page * 16) 16) + 1) (pages (part spare.now (page * 16) 16))) }
{
    let tag = tag_at(spare, page);
    (tag[0] != SPOILED_KIND) & (u16::from(tag[1]) + 1 == u16::from(tag[2]))
}

// The epoch of a page; the erased bytes of a blank one read as 4,294,967,295.
pub fn epoch_at(spare: &[u8], page: usize) -> u32
    requires { page * 16 + 16 ≤ length spare.now }
    ensures { result ≡ epoch (part spare.now (page * 16) 16) }
{
    four_at(tag_at(spare, page), 4)
}
