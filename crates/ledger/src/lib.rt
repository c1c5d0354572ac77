// The erase ledger: whether its pages are well formed, and the buckets that its entries name.
// Its two buckets are the chip's last. Their pages lie in a row, and are counted from the first of the lower one on.
#![tactic(auto)]

ghost use Rattle.std.specs.Prelude.{◌≡◌, true, false, ◌||◌, [], ◌∷◌, ℕ, ◌+◌, ◌*◌, ◌≤◌, ◌<◌, length, eqb};
ghost use Rattle.lists.specs.Lists.{every, all_below, max_below, part};
ghost use Rattle.model.specs.Sizes.{body};
ghost use Rattle.model.specs.Spare.{spoiled};
ghost use Rattle.model.specs.Image.{packed};
ghost use Rattle.model.specs.Ledger.{is_entry, entry_fits, entries_fit, holds_epoch, names, named, one_in_use};
ghost use Rattle.model.specs.State.{entry_epoch};
ghost use Rattle.image.specs.Chip.{Chip, spare_only};
ghost use Rattle.ledger.specs.Halves.{blank_there, Entered, half_fits};
ghost use Rattle.ledger.specs.Marks.{NamedBy, Marks};

use model::Sizes;

// Whether a page is an entry for a bucket outside the ledger.
fn is_entry(z: Sizes, page: usize, spare: &[u8]) -> bool
    requires { page * 16 + 16 ≤ length spare.now }
    ensures { result ≡ is_entry z (part spare.now (page * 16) 16) }
{
    let entry = spare::entry_at(spare, page);
    let bucket = spare::back_at(spare, page) as usize;
    entry & (bucket < geometry::body(z))
}

// Whether a page is such an entry, or spoiled, as one that was cut.
fn is_taken(z: Sizes, page: usize, spare: &[u8]) -> bool
    requires { page * 16 + 16 ≤ length spare.now }
    ensures { result ≡ (is_entry z (part spare.now (page * 16) 16) || spoiled (part spare.now (page * 16) 16)) }
{
    if is_entry(z, page, spare) {
        return true;
    }
    spare::kind_at(spare, page) == spare::SPOILED_KIND
}

// How many pages of a ledger bucket are entries or spoiled, from the first on.
fn entered(z: Sizes, l: usize, spare: &[u8]) -> usize
    requires chip { Chip z spare.now }
    requires l_lt_c { l < z.c }
    ensures { Entered z (spare_only spare.now) l result }
{
    let start = l * z.p;
    for k in 0..z.p {
        if !is_taken(z, start + k, spare) {
            return k;
        }
    }
    z.p
}

// The pages behind those of a ledger bucket are tested at once: all must be blank.
fn half_fits(z: Sizes, l: usize, spare: &[u8]) -> bool
    requires chip { Chip z spare.now }
    requires l_lt_c { l < z.c }
    ensures { result ≡ half_fits z (spare_only spare.now) l }
{
    let n = entered(z, l, spare);
    spare::are_blank(spare, l * z.p + n, z.p - n)
}

// What number 4 of a running call asks of the ledger.
pub fn ledger_fits(z: Sizes, spare: &[u8]) -> bool
    requires { Chip z spare.now }
    ensures { result ≡ every (entries_fit z (spare_only spare.now) ∷ packed z (spare_only spare.now) (body z) ∷ packed z (spare_only spare.now) (body z + 1) ∷ []) }
{
    let lower = geometry::body(z);
    let first = half_fits(z, lower, spare);
    first & half_fits(z, lower + 1, spare)
}

fn entry_fits(z: Sizes, i: usize, spare: &[u8]) -> bool
    requires chip { Chip z spare.now }
    requires i_bound { i < 2 * z.p }
    ensures { result ≡ entry_fits z (spare_only spare.now) i }
{
    let page = geometry::body(z) * z.p + i;
    if spare::blank_at(spare, page) {
        return true;
    }
    is_taken(z, page, spare)
}

// What number 4 of recovery asks of the ledger: blank pages may stand between the others.
pub fn entries_fit(z: Sizes, spare: &[u8]) -> bool
    requires { Chip z spare.now }
    ensures { result ≡ entries_fit z (spare_only spare.now) }
{
    (0..2 * z.p).all(|i| entry_fits(z, i, spare))
}

// Whether all pages of the ledger are blank.
pub fn is_blank(z: Sizes, spare: &[u8]) -> bool
    requires { Chip z spare.now }
    ensures { result ≡ all_below (2 * z.p) (blank_there z (spare_only spare.now)) }
{
    spare::are_blank(spare, geometry::body(z) * z.p, 2 * z.p)
}

pub fn one_in_use(z: Sizes, spare: &[u8]) -> bool
    requires { Chip z spare.now }
    ensures { result ≡ one_in_use z (spare_only spare.now) }
{
    let lower = geometry::body(z);
    let first = image::page_blank(z, lower, 0, spare);
    first | image::page_blank(z, lower + 1, 0, spare)
}

// The epoch of an entry, or 0. A page that fits is an entry if it has its kind.
fn entry_epoch(z: Sizes, i: usize, spare: &[u8]) -> u32
    requires chip { Chip z spare.now }
    requires i_bound { i < 2 * z.p }
    requires i_value { entry_fits z (spare_only spare.now) i ≡ true }
    ensures { result ≡ entry_epoch z (spare_only spare.now) i }
{
    let page = geometry::body(z) * z.p + i;
    if spare::kind_at(spare, page) != model::LEDGER_KIND {
        return 0;
    }
    spare::epoch_at(spare, page)
}

// The largest epoch of an entry, or 0.
pub fn top_entry(z: Sizes, spare: &[u8]) -> u64
    requires chip { Chip z spare.now }
    requires spare_value { entries_fit z (spare_only spare.now) ≡ true }
    ensures { result ≡ max_below (2 * z.p) (entry_epoch z (spare_only spare.now)) }
{
    let mut top: u64 = 0;
    for i in 0..2 * z.p {
        top = top.max(entry_epoch(z, i, spare) as u64);
    }
    top
}

// Whether a page holds no other epoch; a blank or spoiled page holds none.
fn page_holds(z: Sizes, x: usize, k: usize, epoch: u32, spare: &[u8]) -> bool
    requires chip { Chip z spare.now }
    requires x_lt_c { x < z.c }
    requires k_lt_p { k < z.p }
    ensures { result ≡ holds_epoch z (spare_only spare.now) x epoch k }
{
    let page = x * z.p + k;
    if spare::epoch_at(spare, page) == epoch {
        return true;
    }
    let spoiled = spare::kind_at(spare, page) == spare::SPOILED_KIND;
    spoiled | spare::blank_at(spare, page)
}

// The same of all pages of a bucket.
fn bucket_holds(z: Sizes, x: usize, epoch: u32, spare: &[u8]) -> bool
    requires chip { Chip z spare.now }
    requires x_lt_c { x < z.c }
    ensures { result ≡ all_below z.p (holds_epoch z (spare_only spare.now) x epoch) }
{
    (0..z.p).all(|k| page_holds(z, x, k, epoch, spare))
}

// The bucket outside the ledger that a page of the ledger names.
fn named_by(z: Sizes, i: usize, spare: &[u8]) -> Option<usize>
    requires chip { Chip z spare.now }
    requires i_bound { i < 2 * z.p }
    ensures { NamedBy z (spare_only spare.now) i result }
{
    let end = geometry::body(z);
    let page = end * z.p + i;
    if spare::kind_at(spare, page) != model::LEDGER_KIND {
        return None;
    }
    let x = spare::back_at(spare, page) as usize;
    if end <= x {
        return None;
    }
    let epoch = spare::epoch_at(spare, page);
    if bucket_holds(z, x, epoch, spare) {
        Some(x)
    } else {
        None
    }
}

pub fn named(z: Sizes, spare: &[u8]) -> [bool; 256]
    requires { Chip z spare.now }
    ensures { Marks z (spare_only spare.now) result }
{
    let mut marks = [false; 256];
    for i in 0..2 * z.p {
        if let Some(x) = named_by(z, i, spare) {
            marks[x] = true;
        }
    }
    marks
}
