// The cache buckets by what recovery makes of them.
// The used buckets stand in one order, by epoch. A column beside it holds the back-end bucket of each bucket that is such, and NOWHERE for
// the others; each list of recovery is a selection of the order.
#![tactic(auto)]

ghost use Rattle.std.specs.Prelude.{◌≡◌, true, map, ◌≤◌, ◌<◌, length, if◌then◌else◌};
ghost use Rattle.lists.specs.Lists.{times};
ghost use Rattle.model.specs.Sizes.{body};
ghost use Rattle.model.specs.Image.{is_write, is_copy, body_fits};
ghost use Rattle.model.specs.Recover.{buckets, is_chosen, is_dropped_write, is_dropped_copy, is_old_copy, is_spent};
ghost use Rattle.fifo.specs.View.{list_of};
ghost use Rattle.image.specs.Chip.{Chip, spare_only};
ghost use Rattle.classes.specs.Columns.{nowhere, in_order, is_kind, named, column, occurring, last_of_each, is_named, all_but};

use fifo::Fifo;
use model::Sizes;

// No back-end bucket: no B is above it. A number and no Option, since `nowhere`, `named` and `column` of specs/Columns are of numbers: whole columns
// of u16 are compared at once.
pub const NOWHERE: u16 = 65535;

// What a bucket may be, by itself.
#[derive(Clone, Copy)]
pub enum Kind {
    Used,
    // all its pages are blank
    Free,
    // a page of it is spoiled, and none programmed
    Spent,
    Write,
    // a Read or Dirty bucket
    Copy,
    // such a bucket with all its pages
    Complete,
}

fn is_spent(z: Sizes, c: usize, spare: &[u8]) -> bool
    requires chip { Chip z spare.now }
    requires spare_value { body_fits z (spare_only spare.now) ≡ true }
    requires c_bound { c < body z }
    ensures { result ≡ is_spent z (spare_only spare.now) c }
{
    if image::is_free(z, c, spare) {
        return false;
    }
    !image::used(z, c, spare)
}

fn is_a(z: Sizes, kind: Kind, c: usize, spare: &[u8]) -> bool
    requires chip { Chip z spare.now }
    requires spare_value { body_fits z (spare_only spare.now) ≡ true }
    requires c_bound { c < body z }
    ensures { result ≡ is_kind z (spare_only spare.now) kind c }
{
    match kind {
        Kind::Used => image::used(z, c, spare),
        Kind::Free => image::is_free(z, c, spare),
        Kind::Spent => is_spent(z, c, spare),
        Kind::Write => image::is_write(z, c, spare),
        Kind::Copy => image::is_copy(z, c, spare),
        Kind::Complete => image::complete(z, c, spare),
    }
}

// The buckets of a kind, rising.
pub fn buckets(z: Sizes, kind: Kind, spare: &[u8]) -> Fifo
    requires chip { Chip z spare.now }
    requires spare_value { body_fits z (spare_only spare.now) ≡ true }
    ensures { list_of result ≡ buckets z (spare_only spare.now) (is_kind z (spare_only spare.now) kind) }
{
    let mut items = [0u8; 256];
    let mut n = 0;
    for c in 0..geometry::body(z) {
        if is_a(z, kind, c, spare) {
            items[n] = c as u8;
            n += 1;
        }
    }
    Fifo { items, len: n }
}

// The used buckets by epoch.
pub fn in_order(z: Sizes, spare: &[u8]) -> Fifo
    requires chip { Chip z spare.now }
    requires spare_value { body_fits z (spare_only spare.now) ≡ true }
    ensures { list_of result ≡ in_order z (spare_only spare.now) }
{
    let used = buckets(z, Kind::Used, spare);
    order::by_epoch(z, used, spare)
}

fn named(z: Sizes, kind: Kind, c: usize, spare: &[u8]) -> u16
    requires chip { Chip z spare.now }
    requires spare_value { body_fits z (spare_only spare.now) ≡ true }
    requires c_bound { c < body z }
    ensures { result ≡ named z (spare_only spare.now) (is_kind z (spare_only spare.now) kind) c }
{
    if is_a(z, kind, c, spare) {
        image::back_of(z, c, spare)
    } else {
        NOWHERE
    }
}

// The column of a kind.
fn fill(z: Sizes, kind: Kind, order: &[u8], spare: &[u8], out: &mut [u16])
    requires chip { Chip z spare.now }
    requires spare_value { body_fits z (spare_only spare.now) ≡ true }
    requires order_value { order.now ≡ in_order z (spare_only spare.now) }
    requires out_len { length out.old ≡ length order.now }
    ensures { out.new ≡ column z (spare_only spare.now) (is_kind z (spare_only spare.now) kind) }
{
    for (i, c) in order.iter().enumerate() {
        out[i] = named(z, kind, *c as usize, spare);
    }
}

// Room for a column.
pub fn blank_column() -> [u16; 256]
    ensures { length result ≡ 256 }
{
    [NOWHERE; 256]
}

// How often a back-end bucket stands in a column. All are compared, with no way out at the first: such a loop becomes few instructions.
pub fn occurrences(b: u16, column: &[u16]) -> u16
    requires { length column.now ≤ 256 }
    ensures { result ≡ times b column.now }
{
    let mut count = 0u16;
    for x in column {
        if b == *x {
            count += 1;
        }
    }
    count
}

// b, if it stands in the column so many times.
fn occurring(n: u16, column: &[u16], b: u16) -> u16
    requires { length column.now ≤ 256 }
    ensures { result ≡ occurring n column.now b }
{
    if b == NOWHERE {
        return NOWHERE;
    }
    if occurrences(b, column) == n {
        b
    } else {
        NOWHERE
    }
}

// Those of one column that stand in the other so many times.
fn all_occurring(n: u16, other: &[u16], column: &[u16], out: &mut [u16])
    requires other_len_bound { length other.now ≤ 256 }
    requires out_len { length out.old ≡ length column.now }
    ensures { out.new ≡ map (occurring n other.now) column.now }
{
    for (i, b) in column.iter().enumerate() {
        out[i] = occurring(n, other, *b);
    }
}

// Of those that stand in the column several times the last one stays.
fn last_of_each(column: &mut [u16])
    requires { length column.old ≤ 256 }
    ensures { column.new ≡ last_of_each column.old }
{
    for i in 0..column.len() {
        column[i] = occurring(0, &column[i + 1..], column[i]);
    }
}

// The candidates become all of the column but the last n of them.
fn all_but(n: usize, column: &[u16], candidates: &mut [u16])
    requires { length candidates.old ≡ length column.now }
    ensures { candidates.new ≡ all_but n candidates.old column.now }
{
    let mut newer = 0;
    for i in (0..column.len()).rev() {
        let candidate = candidates[i] != NOWHERE;
        candidates[i] = if candidate & (newer < n) {
            NOWHERE
        } else {
            column[i]
        };
        if candidate {
            newer += 1;
        }
    }
}

// All Write buckets, and those of which the units are written: all but the newest that are alone in their back-end bucket.
pub fn write_columns(z: Sizes, order: &[u8], spare: &[u8], writes: &mut [u16], dropped: &mut [u16])
    requires chip { Chip z spare.now }
    requires spare_value { body_fits z (spare_only spare.now) ≡ true }
    requires order_value { order.now ≡ in_order z (spare_only spare.now) }
    requires writes_len { (length writes.old ≡ length order.now) × (length dropped.old ≡ length order.now) }
    ensures writes_after { writes.new ≡ column z (spare_only spare.now) (is_write z (spare_only spare.now)) }
    ensures dropped_after { dropped.new ≡ column z (spare_only spare.now) (is_dropped_write z (spare_only spare.now)) }
{
    fill(z, Kind::Write, order, spare, writes);
    all_occurring(1, writes, writes, dropped);
    all_but(z.w, writes, dropped);
}

// The copy of each back-end bucket, and the dropped ones: all but the newest of those whose back-end bucket no dropped Write bucket is of.
pub fn copy_columns(
    z: Sizes,
    order: &[u8],
    writes: &[u16],
    spare: &[u8],
    copies: &mut [u16],
    dropped: &mut [u16],
)
    requires chip { Chip z spare.now }
    requires spare_value { body_fits z (spare_only spare.now) ≡ true }
    requires order_value { order.now ≡ in_order z (spare_only spare.now) }
    requires writes_value { writes.now ≡ column z (spare_only spare.now) (is_dropped_write z (spare_only spare.now)) }
    requires copies_len { (length copies.old ≡ length order.now) × (length dropped.old ≡ length order.now) }
    ensures copies_after { copies.new ≡ column z (spare_only spare.now) (is_chosen z (spare_only spare.now)) }
    ensures dropped_after { dropped.new ≡ column z (spare_only spare.now) (is_dropped_copy z (spare_only spare.now)) }
{
    fill(z, Kind::Complete, order, spare, copies);
    last_of_each(copies);
    all_occurring(0, writes, copies, dropped);
    all_but(z.r, copies, dropped);
}

// The back-end bucket of a copy that is not the one of its back-end bucket.
fn old_back(z: Sizes, c: usize, copy: u16, spare: &[u8]) -> u16
    requires chip { Chip z spare.now }
    requires spare_value { body_fits z (spare_only spare.now) ≡ true }
    requires c_bound { c < body z }
    ensures { result ≡ (if is_named copy then nowhere else named z (spare_only spare.now) (is_copy z (spare_only spare.now)) c) }
{
    if copy != NOWHERE {
        return NOWHERE;
    }
    named(z, Kind::Copy, c, spare)
}

// Superseded and incomplete copies.
pub fn old_column(z: Sizes, order: &[u8], copies: &[u16], spare: &[u8], out: &mut [u16])
    requires chip { Chip z spare.now }
    requires spare_value { body_fits z (spare_only spare.now) ≡ true }
    requires order_value { order.now ≡ in_order z (spare_only spare.now) }
    requires copies_value { copies.now ≡ column z (spare_only spare.now) (is_chosen z (spare_only spare.now)) }
    requires out_len { length out.old ≡ length order.now }
    ensures { out.new ≡ column z (spare_only spare.now) (is_old_copy z (spare_only spare.now)) }
{
    for (i, c) in order.iter().enumerate() {
        out[i] = old_back(z, *c as usize, copies[i], spare);
    }
}
