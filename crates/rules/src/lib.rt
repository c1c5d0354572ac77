// Number 4 of a running call: whether the image of a chip is well formed, made by the page rules.
// The first page of a bucket is tested on its fields: a contract holds of all spare bytes that say these fields.
// A later page is compared with the page before it, which fits: bytes that are the same say fields that fit too.
// Most pages go on with a log, and are taken in runs: two numbers of eight bytes tell it.
// A bucket with a spoiled page does not pass so: it is gone through page by page, by the rules as they are written.
#![tactic(auto)]

ghost use Rattle.std.specs.Prelude.{◌≡◌, true, ◌&&◌, ◌||◌, List, ℕ, ◌+◌, ◌-◌, ◌*◌, ◌%◌, ◌≤◌, ◌<◌, length, eqb};
ghost use Rattle.lists.specs.Lists.{all_below, times, distinct, part};
ghost use Rattle.model.specs.Sizes.{body, pages_for};
ghost use Rattle.model.specs.Spare.{blank, write_kind, kind, zeros};
ghost use Rattle.model.specs.Stores.{tag_of};
ghost use Rattle.model.specs.Image.{continues, shares, fields_fit, begins_log, continues_log, bucket_fits, head_tag, used, epoch_of, body_fits};
ghost use Rattle.model.specs.Ledger.{well_formed};
ghost use Rattle.model.proofs.Limits.{Limits};
ghost use Rattle.spare.specs.Fields.{fields};
ghost use Rattle.image.specs.Chip.{Chip, HeadAt, spare_only};
ghost use Rattle.rules.specs.Pages.{log_fits, kind_fits, same_bucket, low_first, goes_on, log_goes, fits_at, Fitting, is_behind, ruled, stands, fits_from, NoKinds, Span};
ghost use Rattle.rules.specs.Slots.{Tells};
ghost use Rattle.rules.specs.Epochs.{some_if, PageEpoch, Differ};

use model::Sizes;
use spare::{Fields, Seen};

// Whether a log takes so many pages: they hold its bytes, and one page less would not. No division is made: it takes long.
fn takes(z: Sizes, last: u16, pages: u8) -> bool
    requires { Limits z }
    ensures { result ≡ eqb pages (pages_for z (last + 1)) }
{
    let extent = last as usize + 1;
    let room = pages as usize * z.s;
    (extent <= room) & (room < extent + z.s)
}

// Whether the log of a page has the pages that it takes, and lies within the bucket.
fn log_fits(z: Sizes, f: Fields) -> bool
    requires { Limits z }
    ensures { (tag : List ℕ) → fields tag ≡ f → result ≡ log_fits z tag }
{
    if !takes(z, f.last, f.pages) {
        return false;
    }
    f.offset as usize + (f.last as usize + 1) <= z.p * z.s
}

// Whether the kind is one of the three, and suits the log: only in a Write bucket may a log be less than the bucket.
fn kind_fits(z: Sizes, f: Fields) -> bool
    requires { Limits z }
    ensures { (tag : List ℕ) → fields tag ≡ f → result ≡ kind_fits z tag }
{
    if f.kind == model::WRITE_KIND {
        return true;
    }
    let spans = (f.offset == 0) & (f.last as usize + 1 == z.p * z.s);
    (model::READ_KIND <= f.kind) & (f.kind <= model::DIRTY_KIND) & spans
}

// Whether a page starts a log that fits.
fn starts(z: Sizes, f: Fields) -> bool
    requires { Limits z }
    ensures { (tag : List ℕ) → fields tag ≡ f → result ≡ (log_fits z tag && kind_fits z tag) }
{
    if !log_fits(z, f) {
        return false;
    }
    kind_fits(z, f)
}

// The rules for one programmed page.
pub fn fields_fit(z: Sizes, f: Fields, zeroed: bool) -> bool
    requires { Limits z }
    ensures { (tag : List ℕ) → fields tag ≡ f → zeros tag ≡ zeroed → result ≡ fields_fit z tag }
{
    let within = (1 <= f.epoch) & ((f.back as usize) < z.b);
    if !(within & zeroed) {
        return false;
    }
    starts(z, f)
}

// The rules for the first page of a bucket.
fn first_fits_at(z: Sizes, c: usize, spare: &[u8]) -> bool
    requires chip { Chip z spare.now }
    requires c_lt_c { c < z.c }
    ensures { result ≡ fits_at z (spare_only spare.now) c 0 }
{
    let page = c * z.p;
    let f = spare::fields_at(spare, page);
    let zeroed = spare::zeroed(spare, page);
    fields_fit(z, f, zeroed) & (f.ordinal == 0)
}

// Whether a page has the kind, epoch, back-end bucket and zero bytes of the page before it. They fit there, and need no other test.
fn same_bucket(before: &[u8], page: &[u8]) -> bool
    requires before_len { length before.now ≡ 16 }
    requires page_len { length page.now ≡ 16 }
    ensures { result ≡ same_bucket before.now page.now }
{
    let bucket = spare::equal(&before[4..12], &page[4..12]);
    bucket & (page[0] == before[0]) & (page[3] == 0)
}

fn is_next(before: u8, ordinal: u8) -> bool
    ensures { result ≡ eqb ordinal (before + 1) }
{
    ordinal as usize == before as usize + 1
}

// Whether a page continues the log of the page before it, and that log has so many pages.
fn goes_on(before: &[u8], page: &[u8]) -> bool
    requires before_len { length before.now ≡ 16 }
    requires page_len { length page.now ≡ 16 }
    ensures { result ≡ goes_on before.now page.now }
{
    let next = is_next(before[1], page[1]);
    let log = (page[2] == before[2]) & (page[1] < page[2]);
    next & log & spare::equal(&before[12..16], &page[12..16])
}

// Whether a page starts a log in a Write bucket.
fn starts_write(z: Sizes, page: &[u8]) -> bool
    requires limits { Limits z }
    requires page_len { length page.now ≡ 16 }
    ensures { result ≡ (log_fits z page.now && eqb (kind page.now) write_kind) }
{
    let f = spare::fields_at(page, 0);
    log_fits(z, f) & (f.kind == model::WRITE_KIND)
}

// The rules for a page of the bucket of the page before it: it starts a log, or continues one.
fn log_goes(z: Sizes, before: &[u8], page: &[u8]) -> bool
    requires limits { Limits z }
    requires before_len { length before.now ≡ 16 }
    requires page_len { length page.now ≡ 16 }
    ensures { result ≡ log_goes z before.now page.now }
{
    if page[1] == 0 {
        return starts_write(z, page);
    }
    goes_on(before, page)
}

// The rules for a page behind one that fits.
fn later_fits(z: Sizes, before: &[u8], page: &[u8]) -> bool
    requires limits { Limits z }
    requires before_len { length before.now ≡ 16 }
    requires page_len { length page.now ≡ 16 }
    ensures { result ≡ (same_bucket before.now page.now && log_goes z before.now page.now) }
{
    if !same_bucket(before, page) {
        return false;
    }
    log_goes(z, before, page)
}

fn later_fits_at(z: Sizes, c: usize, k: usize, spare: &[u8]) -> bool
    requires chip { Chip z spare.now }
    requires c_lt_c { c < z.c }
    requires le_k { (1 ≤ k) × (k < z.p) }
    ensures { result ≡ fits_at z (spare_only spare.now) c k }
{
    let start = (c * z.p + k) * 16;
    let before = start - 16;
    let end = start + 16;
    later_fits(z, &spare[before..start], &spare[start..end])
}

// Four bytes as a number, low byte first.
fn four_low(a: u8, b: u8, c: u8, d: u8) -> u64
    ensures value { result ≡ ((d * 256 + c) * 256 + b) * 256 + a }
    ensures upper_bound { result < 4294967296 }
{
    (a as u64) + (b as u64) * 256 + (c as u64) * 65536 + (d as u64) * 16777216
}

// Eight bytes as a number, low byte first: one load.
fn half_at(bytes: &[u8], i: usize) -> u64
    requires { i + 8 ≤ length bytes.now }
    ensures { result ≡ low_first bytes.now i 8 }
{
    let low = four_low(bytes[i], bytes[i + 1], bytes[i + 2], bytes[i + 3]);
    let high = four_low(bytes[i + 4], bytes[i + 5], bytes[i + 6], bytes[i + 7]);
    low + high * 4294967296
}

// Whether the sixteen bytes from index i on are these two halves.
fn are_halves(bytes: &[u8], i: usize, first: u64, second: u64) -> bool
    requires { i + 16 ≤ length bytes.now }
    ensures { result ≡ (eqb (low_first bytes.now i 8) first && eqb (low_first bytes.now (i + 8) 8) second) }
{
    let here = half_at(bytes, i);
    let behind = half_at(bytes, i + 8);
    (here == first) & (behind == second)
}

// The end of the log of a page, or of its bucket: k is the page behind it, and that log has so many pages.
fn log_end(z: Sizes, k: usize, ordinal: u8, pages: u8) -> usize
    requires limits { Limits z }
    requires k_le_p { (k ≤ z.p) × (ordinal < pages) }
    ensures { (k ≤ result) × (result ≤ z.p) × (ordinal + (result - k) < pages) }
{
    let end = k + (pages - ordinal) as usize - 1;
    if end < z.p { end } else { z.p }
}

// Where the pages end that go on with the log of the page before k: their bytes are its own, but for the ordinal.
fn run_end(z: Sizes, c: usize, k: usize, spare: &[u8]) -> usize
    requires chip { Chip z spare.now }
    requires c_lt_c { c < z.c }
    requires le_k { (1 ≤ k) × Fitting z (spare_only spare.now) c k }
    ensures { (k ≤ result) × Fitting z (spare_only spare.now) c result }
{
    let start = (c * z.p + k) * 16;
    let end = log_end(z, k, spare[start - 15], spare[start - 14]);
    let second = half_at(spare, start - 8);
    let mut first = half_at(spare, start - 16);
    for e in k..end {
        first += 256;
        if !are_halves(spare, (c * z.p + e) * 16, first, second) {
            return e;
        }
    }
    end
}

// How many pages fit, from the first on, which does.
fn fitting_from(z: Sizes, c: usize, spare: &[u8]) -> usize
    requires chip { Chip z spare.now }
    requires c_lt_c { c < z.c }
    requires fitting { Fitting z (spare_only spare.now) c 1 }
    ensures { Fitting z (spare_only spare.now) c result }
{
    // no `for`: each step is as long as a run
    let mut k = run_end(z, c, 1, spare);
    while k < z.p {
        if !later_fits_at(z, c, k, spare) {
            return k;
        }
        k = run_end(z, c, k + 1, spare);
    }
    k
}

// How many pages from the first on are programmed and fit.
fn fitting(z: Sizes, c: usize, spare: &[u8]) -> usize
    requires chip { Chip z spare.now }
    requires c_lt_c { c < z.c }
    ensures { Fitting z (spare_only spare.now) c result }
{
    if !first_fits_at(z, c, spare) {
        return 0;
    }
    fitting_from(z, c, spare)
}

// Whether a page shares kind, epoch and back-end bucket with the page that speaks for its bucket.
pub fn shares(head: Fields, f: Fields) -> bool
    ensures { (first tag : List ℕ) → fields first ≡ head → fields tag ≡ f → result ≡ shares first tag }
{
    (f.kind == head.kind) & (f.epoch == head.epoch) & (f.back == head.back)
}

// Whether a page continues the log of the page before it.
fn continues(before: Fields, f: Fields) -> bool
    ensures { (last tag : List ℕ) → fields last ≡ before → fields tag ≡ f → result ≡ continues last tag }
{
    let next = is_next(before.ordinal, f.ordinal);
    let log = (f.pages == before.pages) & (f.offset == before.offset) & (f.last == before.last);
    next & log & (f.ordinal < f.pages)
}

// The same of page k, which says these fields. A page that is spoiled has ended the log before it.
fn continues_log(z: Sizes, c: usize, k: usize, f: Fields, spare: &[u8]) -> bool
    requires chip { Chip z spare.now }
    requires c_lt_c { (c < z.c) × (k < z.p) }
    requires k_value { fields (tag_of z (spare_only spare.now) c k) ≡ f }
    ensures { result ≡ continues_log z (spare_only spare.now) c k }
{
    if k == 0 {
        return false;
    }
    let page = image::page_seen(z, c, k - 1, spare);
    match page {
        Seen::Blank => false,
        Seen::Spoiled => false,
        Seen::Programmed(before) => continues(before, f),
    }
}

// Whether page k begins a log or continues one. In a Read or Dirty bucket only the first programmed page may begin one.
fn in_order(z: Sizes, c: usize, k: usize, head: usize, f: Fields, spare: &[u8]) -> bool
    requires chip { Chip z spare.now }
    requires c_lt_c { (c < z.c) × (k < z.p) }
    requires k_value { fields (tag_of z (spare_only spare.now) c k) ≡ f }
    requires head_at { HeadAt z (spare_only spare.now) c head }
    ensures { result ≡ (begins_log z (spare_only spare.now) c k || continues_log z (spare_only spare.now) c k) }
{
    let begins = (f.ordinal == 0) & ((f.kind == model::WRITE_KIND) | (k <= head));
    begins | continues_log(z, c, k, f, spare)
}

// The rules for page k, which is programmed with these fields.
fn rules_hold(z: Sizes, c: usize, k: usize, head: usize, f: Fields, spare: &[u8]) -> bool
    requires chip { Chip z spare.now }
    requires c_lt_c { (c < z.c) × (k < z.p) }
    requires k_value { fields (tag_of z (spare_only spare.now) c k) ≡ f }
    requires head_at { HeadAt z (spare_only spare.now) c head }
    ensures { result ≡ ruled z (spare_only spare.now) c k }
{
    let zeroed = spare::zeroed(spare, c * z.p + k);
    let first = spare::fields_at(spare, c * z.p + head);
    let fits = fields_fit(z, f, zeroed) & shares(first, f);
    fits & in_order(z, c, k, head, f, spare)
}

// Whether page k is not behind a blank one.
fn is_behind(z: Sizes, c: usize, k: usize, spare: &[u8]) -> bool
    requires chip { Chip z spare.now }
    requires c_lt_c { (c < z.c) × (k < z.p) }
    ensures { result ≡ is_behind z (spare_only spare.now) c k }
{
    if k == 0 {
        return true;
    }
    !image::page_blank(z, c, k - 1, spare)
}

// The rules for page k, by what it is. A spoiled one counts as used, and that is all.
fn page_fits(z: Sizes, c: usize, k: usize, head: usize, spare: &[u8]) -> bool
    requires chip { Chip z spare.now }
    requires c_lt_c { (c < z.c) × (k < z.p) }
    requires head_at { HeadAt z (spare_only spare.now) c head }
    ensures { result ≡ stands z (spare_only spare.now) c k }
{
    let page = image::page_seen(z, c, k, spare);
    match page {
        Seen::Blank => true,
        Seen::Spoiled => is_behind(z, c, k, spare),
        Seen::Programmed(f) => { is_behind(z, c, k, spare) & rules_hold(z, c, k, head, f, spare) }
    }
}

// The rules for every page of a bucket, one after the other.
fn pages_fit(z: Sizes, c: usize, spare: &[u8]) -> bool
    requires chip { Chip z spare.now }
    requires c_lt_c { c < z.c }
    ensures { result ≡ bucket_fits z (spare_only spare.now) c }
{
    let head = image::head(z, c, spare);
    (0..z.p).all(|k| page_fits(z, c, k, head, spare))
}

// Most buckets are pages that fit, each behind the one before it, and then blank ones.
fn plainly_fits(z: Sizes, c: usize, spare: &[u8]) -> bool
    requires chip { Chip z spare.now }
    requires c_lt_c { c < z.c }
    ensures { result ≡ true → bucket_fits z (spare_only spare.now) c ≡ true }
{
    let n = fitting(z, c, spare);
    spare::are_blank(spare, c * z.p + n, z.p - n)
}

// Of any other bucket each page is looked at by itself.
pub fn bucket_fits(z: Sizes, c: usize, spare: &[u8]) -> bool
    requires chip { Chip z spare.now }
    requires c_lt_c { c < z.c }
    ensures { result ≡ bucket_fits z (spare_only spare.now) c }
{
    if plainly_fits(z, c, spare) {
        return true;
    }
    pages_fit(z, c, spare)
}

// The first bucket from c on whose first page has a kind.
fn next_kind(z: Sizes, c: usize, spare: &[u8]) -> usize
    requires chip { Chip z spare.now }
    requires c_bound { c < body z }
    ensures { NoKinds z (spare_only spare.now) c result }
{
    let end = geometry::body(z);
    for e in c..end {
        if spare::kind_at(spare, e * z.p) != spare::NO_KIND {
            return e;
        }
    }
    end
}

// Where the span of buckets that starts with c ends: c alone if it has a kind, else those up to the next that has one.
fn span_end(z: Sizes, c: usize, spare: &[u8]) -> usize
    requires chip { Chip z spare.now }
    requires c_bound { c < body z }
    ensures { Span z (spare_only spare.now) c result }
{
    let e = next_kind(z, c, spare);
    if e == c { c + 1 } else { e }
}

// Several buckets with no kind are tested at once: all their pages must be blank. One by itself is tested as in `bucket_fits`, which is not
// called: the quick test then has two callers and stays a function by itself, not slowed by the code of the other.
fn span_fits(z: Sizes, c: usize, e: usize, spare: &[u8]) -> bool
    requires chip { Chip z spare.now }
    requires span { Span z (spare_only spare.now) c e }
    ensures { result ≡ all_below (e - c) (fits_from z (spare_only spare.now) c) }
{
    if e == c + 1 {
        if plainly_fits(z, c, spare) {
            return true;
        }
        return pages_fit(z, c, spare);
    }
    spare::are_blank(spare, c * z.p, (e - c) * z.p)
}

fn buckets_fit(z: Sizes, spare: &[u8]) -> bool
    requires { Chip z spare.now }
    ensures { result ≡ all_below (body z) (bucket_fits z (spare_only spare.now)) }
{
    let end = geometry::body(z);
    // no `for`: each step is as long as a span
    let mut bucket = 0;
    while bucket < end {
        let e = span_end(z, bucket, spare);
        if !span_fits(z, bucket, e, spare) {
            return false;
        }
        bucket = e;
    }
    true
}

// How often x stands there. All are compared, with no way out: such a loop takes several at a time.
fn count_of(x: u32, items: &[u32]) -> u32
    requires { length items.now ≤ 256 }
    ensures { result ≡ times x items.now }
{
    let mut n = 0u32;
    for y in items {
        if x == *y {
            n += 1;
        }
    }
    n
}

fn slot_of(x: u32) -> usize
    ensures { result ≡ x % 1024 }
{
    x as usize % 1024
}

// The slot of each number comes to name its place, or that of a later number with the same slot.
fn fill_slots(items: &[u32], slots: &mut [u8; 1024])
    requires { length items.now ≤ 256 }
{
    for (i, x) in items.iter().enumerate() {
        slots[slot_of(*x)] = i as u8;
    }
}

// Numbers that their slots name differ from each other, whatever the slots hold; any other is compared with all.
fn stands_alone(items: &[u32], i: usize, slots: &[u8; 1024]) -> bool
    requires len_bound { length items.now ≤ 256 }
    requires i_in_bounds { i < length items.now }
    ensures { Tells items.now slots.now i result }
{
    let x = items[i];
    let slot = slot_of(x);
    if slots[slot] == i as u8 {
        return true;
    }
    count_of(x, items) == 1
}

pub fn all_differ(items: &[u32]) -> bool
    requires { length items.now ≤ 256 }
    ensures { result ≡ distinct items.now }
{
    let mut slots = [0u8; 1024];
    fill_slots(items, &mut slots);
    for i in 0..items.len() {
        if !stands_alone(items, i, &slots) {
            return false;
        }
    }
    true
}

// The epoch that a page says. Where no kind means a blank page, its kind tells whether it is programmed.
pub fn page_epoch(page: usize, spare: &[u8]) -> Option<u32>
    requires { page * 16 + 16 ≤ length spare.now }
    ensures { PageEpoch (part spare.now (page * 16) 16) result }
{
    let kind = spare::kind_at(spare, page);
    if (kind == spare::NO_KIND) | (kind == spare::SPOILED_KIND) {
        return None;
    }
    Some(spare::epoch_at(spare, page))
}

// The epoch of a bucket that is used. Its head is its first page unless that is spoiled: to ask each bucket for its head takes longer.
pub fn head_epoch(z: Sizes, c: usize, spare: &[u8]) -> Option<u32>
    requires chip { Chip z spare.now }
    requires c_lt_c { c < z.c }
    requires no_kind { blank (head_tag z (spare_only spare.now) c) ≡ eqb (kind (head_tag z (spare_only spare.now) c)) 255 }
    ensures { result ≡ some_if (used z (spare_only spare.now) c) (epoch_of z (spare_only spare.now) c) }
{
    let first = c * z.p;
    if spare::kind_at(spare, first) != spare::SPOILED_KIND {
        return page_epoch(first, spare);
    }
    page_epoch(first + image::head(z, c, spare), spare)
}

// No two buckets share an epoch: those that have one are gathered, and compared.
pub fn epochs_differ<F: Fn(usize) -> Option<u32>>(end: usize, epoch: F) -> bool
    requires few { end ≤ 256 }
    requires callable { (c : ℕ) → c < end → F.pre epoch c }
    ensures { Differ (F.post epoch) end result }
{
    let mut epochs = [0u32; 256];
    let mut n = 0;
    for c in 0..end {
        if let Some(own) = epoch(c) {
            epochs[n] = own;
            n += 1;
        }
    }
    all_differ(&epochs[..n])
}

// The buckets outside the ledger.
pub fn body_fits(z: Sizes, spare: &[u8]) -> bool
    requires { Chip z spare.now }
    ensures { result ≡ body_fits z (spare_only spare.now) }
{
    if !buckets_fit(z, spare) {
        return false;
    }
    epochs_differ(geometry::body(z), |c| head_epoch(z, c, spare))
}

pub fn well_formed(z: Sizes, spare: &[u8]) -> bool
    requires { Chip z spare.now }
    ensures { result ≡ well_formed z (spare_only spare.now) }
{
    let body = body_fits(z, spare);
    body & ledger::ledger_fits(z, spare)
}
