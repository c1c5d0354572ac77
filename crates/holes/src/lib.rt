// Number 4 of recovery: a named bucket may have holes, and its ordinals are not looked at. All other buckets are made by the page rules.
#![tactic(auto)]

ghost use Rattle.std.specs.Prelude.{◌≡◌, true, map, ◌<◌};
ghost use Rattle.lists.specs.Lists.{all_below, keep, below, distinct};
ghost use Rattle.model.specs.Sizes.{body};
ghost use Rattle.model.specs.Ledger.{named, loose_fits, found_fits, occupied, first_epoch, recoverable};
ghost use Rattle.image.specs.Chip.{Chip, spare_only};
ghost use Rattle.ledger.specs.Marks.{Marks};
ghost use Rattle.rules.specs.Epochs.{some_if};
ghost use Rattle.holes.specs.Found.{Speaks};

use model::Sizes;

// The first programmed page of a bucket, or its last page.
fn first_page(z: Sizes, c: usize, spare: &[u8]) -> usize
    requires chip { Chip z spare.now }
    requires c_lt_c { c < z.c }
    ensures { Speaks z (spare_only spare.now) c result }
{
    let last = z.p - 1;
    for k in 0..last {
        if image::page_programmed(z, c, k, spare) {
            return k;
        }
    }
    last
}

// The rules for a page of a named bucket: a programmed one says what the first of them does.
fn loose_page(z: Sizes, c: usize, first: usize, k: usize, spare: &[u8]) -> bool
    requires chip { Chip z spare.now }
    requires c_lt_c { c < z.c }
    requires speaks { Speaks z (spare_only spare.now) c first }
    requires k_lt_p { k < z.p }
    ensures { result ≡ loose_fits z (spare_only spare.now) c k }
{
    if !image::page_programmed(z, c, k, spare) {
        return true;
    }
    let page = c * z.p + k;
    let f = spare::fields_at(spare, page);
    let head = spare::fields_at(spare, c * z.p + first);
    let zeroed = spare::zeroed(spare, page);
    rules::fields_fit(z, f, zeroed) & rules::shares(head, f)
}

fn loose_fits(z: Sizes, c: usize, spare: &[u8]) -> bool
    requires chip { Chip z spare.now }
    requires c_lt_c { c < z.c }
    ensures { result ≡ all_below z.p (loose_fits z (spare_only spare.now) c) }
{
    let first = first_page(z, c, spare);
    (0..z.p).all(|k| loose_page(z, c, first, k, spare))
}

fn found_fits(z: Sizes, c: usize, marked: bool, spare: &[u8]) -> bool
    requires chip { Chip z spare.now }
    requires c_lt_c { c < z.c }
    requires marked_value { marked ≡ named z (spare_only spare.now) c }
    ensures { result ≡ found_fits z (spare_only spare.now) c }
{
    if marked {
        loose_fits(z, c, spare)
    } else {
        rules::bucket_fits(z, c, spare)
    }
}

fn all_found(z: Sizes, marks: &[bool; 256], spare: &[u8]) -> bool
    requires chip { Chip z spare.now }
    requires marks { Marks z (spare_only spare.now) marks.now }
    ensures { result ≡ all_below (body z) (found_fits z (spare_only spare.now)) }
{
    (0..geometry::body(z)).all(|c| found_fits(z, c, marks[c], spare))
}

// The page that speaks for a bucket. Of one that is not named it is the head: blank pages come only at the end there.
fn head_page(z: Sizes, c: usize, marked: bool, spare: &[u8]) -> usize
    requires chip { Chip z spare.now }
    requires c_lt_c { c < z.c }
    requires marked_value { marked ≡ named z (spare_only spare.now) c }
    requires c_value { found_fits z (spare_only spare.now) c ≡ true }
    ensures { Speaks z (spare_only spare.now) c result }
{
    if marked {
        first_page(z, c, spare)
    } else {
        image::head(z, c, spare)
    }
}

// The epoch of a bucket with a programmed page. A page that fits is blank if it has no kind.
fn found_epoch(z: Sizes, c: usize, marked: bool, spare: &[u8]) -> Option<u32>
    requires chip { Chip z spare.now }
    requires c_lt_c { c < z.c }
    requires marked_value { marked ≡ named z (spare_only spare.now) c }
    requires c_value { found_fits z (spare_only spare.now) c ≡ true }
    ensures { result ≡ some_if (occupied z (spare_only spare.now) c) (first_epoch z (spare_only spare.now) c) }
{
    let k = head_page(z, c, marked, spare);
    rules::page_epoch(c * z.p + k, spare)
}

// No two buckets share an epoch.
fn found_differ(z: Sizes, marks: &[bool; 256], spare: &[u8]) -> bool
    requires chip { Chip z spare.now }
    requires marks { Marks z (spare_only spare.now) marks.now }
    requires spare_value { all_below (body z) (found_fits z (spare_only spare.now)) ≡ true }
    ensures { result ≡ distinct (map (first_epoch z (spare_only spare.now)) (keep (occupied z (spare_only spare.now)) (below (body z)))) }
{
    rules::epochs_differ(geometry::body(z), |c| found_epoch(z, c, marks[c], spare))
}

// With a blank ledger no bucket is named: then the rules are those of a running call.
pub fn recoverable(z: Sizes, spare: &[u8]) -> bool
    requires { Chip z spare.now }
    ensures { result ≡ recoverable z (spare_only spare.now) }
{
    if ledger::is_blank(z, spare) {
        return rules::body_fits(z, spare);
    }
    if !ledger::entries_fit(z, spare) {
        return false;
    }
    let marks = ledger::named(z, spare);
    if !all_found(z, &marks, spare) {
        return false;
    }
    found_differ(z, &marks, spare)
}
