// What a cache bucket is, read from its spare bytes.
// A fact of a bucket depends on the spare area alone: contracts state it of `spare_only`, a device with nothing else, and the laws of
// `proofs/SameSpare` carry it over to every device with the same spare area.
#![tactic(auto)]

ghost use Rattle.std.specs.Prelude.{◌≡◌, true, ◌-◌, ◌≤◌, ◌<◌, leb, eqb};
ghost use Rattle.model.specs.Stores.{tag_of};
ghost use Rattle.model.specs.Spare.{kind};
ghost use Rattle.model.specs.Image.{head_tag, bucket_fits, used, epoch_of, back_of, is_write, is_copy, is_dirty, complete, page_blank, page_programmed, ends_log, blanks};
ghost use Rattle.spare.specs.Fields.{seen};
ghost use Rattle.image.specs.Chip.{Chip, HeadAt, spare_only};

use model::Sizes;
use spare::Seen;

// What page k of the bucket c is.
pub fn page_seen(z: Sizes, c: usize, k: usize, spare: &[u8]) -> Seen
    requires chip { Chip z spare.now }
    requires c_lt_c { c < z.c }
    requires k_lt_p { k < z.p }
    ensures { result ≡ seen (tag_of z (spare_only spare.now) c k) }
{
    spare::seen_at(spare, c * z.p + k)
}

// The page that speaks for the bucket, by one page after the other.
fn head_behind(z: Sizes, c: usize, spare: &[u8]) -> usize
    requires chip { Chip z spare.now }
    requires c_lt_c { c < z.c }
    ensures { HeadAt z (spare_only spare.now) c result }
{
    let last = z.p - 1;
    for k in 0..last {
        if spare::kind_at(spare, c * z.p + k) != spare::SPOILED_KIND {
            return k;
        }
    }
    last
}

// The page that speaks for the bucket: the first that is not spoiled, or the last. Most often it is the first of all, and no loop is gone into.
pub fn head(z: Sizes, c: usize, spare: &[u8]) -> usize
    requires chip { Chip z spare.now }
    requires c_lt_c { c < z.c }
    ensures { HeadAt z (spare_only spare.now) c result }
{
    if spare::kind_at(spare, c * z.p) != spare::SPOILED_KIND {
        return 0;
    }
    head_behind(z, c, spare)
}

fn head_kind(z: Sizes, c: usize, spare: &[u8]) -> u8
    requires chip { Chip z spare.now }
    requires c_lt_c { c < z.c }
    ensures { result ≡ kind (head_tag z (spare_only spare.now) c) }
{
    let page = head(z, c, spare);
    spare::kind_at(spare, c * z.p + page)
}

// Whether page k is programmed. The kind tells, but for bytes that begin with FF: those of a blank page are all FF.
pub fn page_programmed(z: Sizes, c: usize, k: usize, spare: &[u8]) -> bool
    requires chip { Chip z spare.now }
    requires c_lt_c { c < z.c }
    requires k_lt_p { k < z.p }
    ensures { result ≡ page_programmed z (spare_only spare.now) c k }
{
    let page = c * z.p + k;
    let kind = spare::kind_at(spare, page);
    if kind == spare::NO_KIND {
        return !spare::blank_at(spare, page);
    }
    kind != spare::SPOILED_KIND
}

// In a bucket that fits a page is blank if it has no kind. Most often the first page tells, and the head is not looked for: that is quicker.
pub fn used(z: Sizes, c: usize, spare: &[u8]) -> bool
    requires chip { Chip z spare.now }
    requires c_lt_c { c < z.c }
    requires c_value { bucket_fits z (spare_only spare.now) c ≡ true }
    ensures { result ≡ used z (spare_only spare.now) c }
{
    let first = spare::kind_at(spare, c * z.p);
    if first != spare::SPOILED_KIND {
        return first != spare::NO_KIND;
    }
    spare::programmed_kind(head_kind(z, c, spare))
}

pub fn epoch_of(z: Sizes, c: usize, spare: &[u8]) -> u32
    requires chip { Chip z spare.now }
    requires c_lt_c { c < z.c }
    ensures { result ≡ epoch_of z (spare_only spare.now) c }
{
    let page = head(z, c, spare);
    if page_programmed(z, c, page, spare) {
        spare::epoch_at(spare, c * z.p + page)
    } else {
        0
    }
}

// The epoch of a bucket that is used.
pub fn used_epoch(z: Sizes, c: usize, spare: &[u8]) -> u32
    requires chip { Chip z spare.now }
    requires c_lt_c { c < z.c }
    requires c_value { used z (spare_only spare.now) c ≡ true }
    ensures { result ≡ epoch_of z (spare_only spare.now) c }
{
    let page = head(z, c, spare);
    spare::epoch_at(spare, c * z.p + page)
}

pub fn back_of(z: Sizes, c: usize, spare: &[u8]) -> u16
    requires chip { Chip z spare.now }
    requires c_lt_c { c < z.c }
    ensures { result ≡ back_of z (spare_only spare.now) c }
{
    let page = head(z, c, spare);
    spare::back_at(spare, c * z.p + page)
}

pub fn is_write(z: Sizes, c: usize, spare: &[u8]) -> bool
    requires chip { Chip z spare.now }
    requires c_lt_c { c < z.c }
    ensures { result ≡ is_write z (spare_only spare.now) c }
{
    head_kind(z, c, spare) == model::WRITE_KIND
}

pub fn is_copy(z: Sizes, c: usize, spare: &[u8]) -> bool
    requires chip { Chip z spare.now }
    requires c_lt_c { c < z.c }
    requires c_value { bucket_fits z (spare_only spare.now) c ≡ true }
    ensures { result ≡ is_copy z (spare_only spare.now) c }
{
    let kind = head_kind(z, c, spare);
    spare::programmed_kind(kind) & (kind != model::WRITE_KIND)
}

pub fn is_dirty(z: Sizes, c: usize, spare: &[u8]) -> bool
    requires chip { Chip z spare.now }
    requires c_lt_c { c < z.c }
    ensures { result ≡ is_dirty z (spare_only spare.now) c }
{
    head_kind(z, c, spare) == model::DIRTY_KIND
}

pub fn page_blank(z: Sizes, c: usize, k: usize, spare: &[u8]) -> bool
    requires chip { Chip z spare.now }
    requires c_lt_c { c < z.c }
    requires k_lt_p { k < z.p }
    ensures { result ≡ page_blank z (spare_only spare.now) c k }
{
    spare::blank_at(spare, c * z.p + k)
}

// A bucket that fits has blank pages alone if its first is blank, and that one is if it has no kind.
pub fn is_free(z: Sizes, c: usize, spare: &[u8]) -> bool
    requires chip { Chip z spare.now }
    requires c_lt_c { c < z.c }
    requires c_value { bucket_fits z (spare_only spare.now) c ≡ true }
    ensures { result ≡ page_blank z (spare_only spare.now) c 0 }
{
    spare::kind_at(spare, c * z.p) == spare::NO_KIND
}

// Whether page k is the last of a log that has all its pages.
pub fn ends_log(z: Sizes, c: usize, k: usize, spare: &[u8]) -> bool
    requires chip { Chip z spare.now }
    requires c_lt_c { c < z.c }
    requires k_lt_p { k < z.p }
    ensures { result ≡ ends_log z (spare_only spare.now) c k }
{
    spare::ends_at(spare, c * z.p + k)
}

// A Read or Dirty bucket with all its pages programmed. It is one log, so they are so where its last page ends that log. Its first page
// is its head then.
pub fn complete(z: Sizes, c: usize, spare: &[u8]) -> bool
    requires chip { Chip z spare.now }
    requires c_lt_c { c < z.c }
    requires c_value { bucket_fits z (spare_only spare.now) c ≡ true }
    ensures { result ≡ complete z (spare_only spare.now) c }
{
    let kind = spare::kind_at(spare, c * z.p);
    spare::programmed_kind(kind) & (kind != model::WRITE_KIND) & ends_log(z, c, z.p - 1, spare)
}

// How many pages of a bucket that fits are not blank: those before the first that has no kind.
pub fn pages_used(z: Sizes, c: usize, spare: &[u8]) -> usize
    requires chip { Chip z spare.now }
    requires c_lt_c { c < z.c }
    requires c_value { bucket_fits z (spare_only spare.now) c ≡ true }
    ensures { result ≡ z.p - blanks z (spare_only spare.now) c }
{
    for k in 0..z.p {
        if spare::kind_at(spare, c * z.p + k) == spare::NO_KIND {
            return k;
        }
    }
    z.p
}

// Whether the first k pages of a bucket that fits are not blank: the last of them has a kind.
fn used_to(z: Sizes, c: usize, k: usize, spare: &[u8]) -> bool
    requires chip { Chip z spare.now }
    requires c_lt_c { (c < z.c) × (k ≤ z.p) }
    requires c_value { bucket_fits z (spare_only spare.now) c ≡ true }
    ensures { result ≡ leb k (z.p - blanks z (spare_only spare.now) c) }
{
    if k == 0 {
        return true;
    }
    spare::kind_at(spare, c * z.p + (k - 1)) != spare::NO_KIND
}

// Whether a bucket that fits has so many blank pages. They are its last, so two pages tell: the one before them and the first of them.
pub fn has_blanks(z: Sizes, c: usize, n: usize, spare: &[u8]) -> bool
    requires chip { Chip z spare.now }
    requires c_lt_c { c < z.c }
    requires c_value { bucket_fits z (spare_only spare.now) c ≡ true }
    ensures { result ≡ eqb n (blanks z (spare_only spare.now) c) }
{
    if z.p < n {
        return false;
    }
    let first = z.p - n;
    let before = used_to(z, c, first, spare);
    if n == 0 {
        return before;
    }
    before & !used_to(z, c, first + 1, spare)
}

// How many of the bucket's pages are blank.
pub fn blanks(z: Sizes, c: usize, spare: &[u8]) -> usize
    requires chip { Chip z spare.now }
    requires c_lt_c { c < z.c }
    ensures { result ≡ blanks z (spare_only spare.now) c }
{
    let mut count = 0;
    for k in 0..z.p {
        if page_blank(z, c, k, spare) {
            count += 1;
        }
    }
    count
}
