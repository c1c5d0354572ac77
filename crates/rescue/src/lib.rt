// The units that recovery writes: all of each rescued back-end bucket, in rising order.
// The bytes are laid where they belong, in the disk's part for the units that the allowance lets be made: there is no work area.
#![tactic(auto)]

ghost use Rattle.std.specs.Prelude.{◌≡◌, true, List, [], ℕ, ◌*◌, ◌≤◌, ◌<◌, length, take, get_or, if◌then◌else◌};
ghost use Rattle.lists.specs.Lists.{all, head, member, part};
ghost use Rattle.model.specs.Sizes.{bucket_size, disk_size, body};
ghost use Rattle.model.specs.Stores.{disk_bytes};
ghost use Rattle.model.specs.Image.{is_dirty};
ghost use Rattle.model.specs.State.{is_below};
ghost use Rattle.model.specs.Recover.{merge_all, is_rescued, rescued, rescue_stores};
ghost use Rattle.geometry.specs.Geometry.{device, Lent};
ghost use Rattle.image.specs.Chip.{Chip, spare_only};
ghost use Rattle.overlay.specs.Window.{Turns, Readable, chip};
ghost use Rattle.meter.specs.Run.{running, run_all};
ghost use Rattle.meter.specs.Lent.{run_of, Stays};
ghost use Rattle.classes.specs.Columns.{column};
ghost use Rattle.rescue.specs.Sources.{Recoverable, RecoverableIn, Listed, rescues};
ghost use Rattle.rescue.specs.Beside.{beside, Passed, is_unwritten};

use meter::{Meter, Run};
use model::Sizes;

// The used buckets by epoch, and columns beside them: all Write buckets and the dropped ones; the copy of each back-end bucket and the dropped ones.
#[derive(Clone, Copy)]
pub struct Columns<'a> {
    pub order: &'a [u8],
    pub writes: &'a [u16],
    pub dropped_writes: &'a [u16],
    pub copies: &'a [u16],
    pub dropped_copies: &'a [u16],
}

// So many places of a column are compared with a number at once.
const PART: usize = 16;

// Passes over parts of the column that the number does not stand in, from one place on. A `while`, since the place is what is wanted: chunks would be
// counted, and the count multiplied again.
fn skip_parts(x: u16, column: &[u16], from: usize) -> usize
    requires { from ≤ length column.now }
    ensures { Passed x column.now from result }
{
    let mut at = from;
    while at + PART <= column.len() {
        let end = at + PART;
        if order::occurs(x, &column[at..end]) {
            return at;
        }
        at = end;
    }
    at
}

// The first index of the number, from one index on; or the end.
fn next_index(x: u16, column: &[u16], from: usize) -> usize
    requires { from ≤ length column.now }
    ensures { Passed x column.now from result × (result < length column.now → x ≡ get_or column.now result 0) }
{
    for at in skip_parts(x, column, from)..column.len() {
        if x == column[at] {
            return at;
        }
    }
    column.len()
}

// The Write buckets of b, in the order, as the first places of a lent list; how many they are. From one place of b to the next, which no `for` counts.
fn list_writes(b: u16, order: &[u8], writes: &[u16], list: &mut [u8]) -> usize
    requires writes_len { length writes.now ≡ length order.now }
    requires order_in_bounds { length order.now ≤ length list.old }
    ensures { (result ≤ length list.old) × (take result list.new ≡ beside b writes.now order.now) }
{
    let mut count = 0;
    let mut at = next_index(b, writes, 0);
    while at < writes.len() {
        list[count] = order[at];
        count += 1;
        at = next_index(b, writes, at + 1);
    }
    count
}

// The Write buckets whose logs lie over the bytes of b: without a dropped one there are none.
fn list_logs(b: u16, columns: Columns<'_>, list: &mut [u8]) -> usize
    requires writes_len { length columns.writes.now ≡ length columns.order.now }
    requires order_in_bounds { length columns.order.now ≤ length list.old }
    ensures { (result ≤ length list.old) × (take result list.new ≡ (if member b columns.entry.dropped_writes.now then beside b columns.entry.writes.now columns.entry.order.now else [])) }
{
    if order::occurs(b, columns.dropped_writes) {
        list_writes(b, columns.order, columns.writes, list)
    } else {
        0
    }
}

// The logs of the listed buckets lie over the copy of b, if b has one, else over the bytes that the window shows.
fn lay_logs(
    z: Sizes,
    b: u16,
    list: &[u8],
    columns: Columns<'_>,
    flash: &[u8],
    spare: &[u8],
    window: &mut [u8],
)
    requires readable { Readable z flash.now spare.now }
    requires copies_len { (length columns.copies.now ≡ length columns.order.now) × (all (is_below (body z)) columns.order.now ≡ true) × (all (is_below (body z)) list.now ≡ true) }
    requires window_len_bound { length window.old ≤ bucket_size z }
    ensures { (base : List ℕ) → length base ≡ bucket_size z → Turns 0 base (merge_all z (chip flash.now spare.now) list.now (if member b columns.entry.copies.now then part flash.now (head (beside b columns.entry.copies.now columns.entry.order.now) * bucket_size z) (bucket_size z) else base)) window.old window.new }
{
    let place = next_index(b, columns.copies, 0);
    if place < columns.copies.len() {
        let size = z.p * z.s;
        let at = columns.order[place] as usize * size;
        let end = at + size;
        overlay::lay_out(z, list, 0, flash, spare, &flash[at..end], window);
    } else {
        overlay::lay_over(z, list, 0, flash, spare, window);
    }
}

// The window shows the bytes of b on the disk, and then those that recovery writes there.
fn lay_rescued(
    z: Sizes,
    b: u16,
    columns: Columns<'_>,
    flash: &[u8],
    spare: &[u8],
    window: &mut [u8],
)
    requires readable { Readable z flash.now spare.now }
    requires listed { Listed z spare.now columns }
    requires b_lt_b { (b < z.b) × (is_rescued z (spare_only spare.now) b ≡ true) }
    requires window_len_bound { length window.old ≤ bucket_size z }
    ensures { (disk : List ℕ) → length disk ≡ disk_size z → Turns 0 (disk_bytes z (device flash.now spare.now disk) b) (rescued z (device flash.now spare.now disk) b) window.old window.new }
{
    let mut list = [0u8; 256];
    let count = list_logs(b, columns, &mut list);
    lay_logs(z, b, &list[..count], columns, flash, spare, window);
}

// The units of b, laid in their place on the disk: as many as the allowance lets be made.
fn rescue_one(
    meter: Meter,
    z: Sizes,
    b: usize,
    columns: Columns<'_>,
    flash: &[u8],
    spare: &[u8],
    disk: &mut [u8],
) -> Meter
    requires recoverable { Recoverable z flash.now spare.now disk.old }
    requires listed { Listed z spare.now columns }
    requires b_lt_b { (b < z.b) × (is_rescued z (spare_only spare.now) b ≡ true) }
    ensures result_after { running flash.now spare.now disk.new result ≡ run_all z (rescue_stores z (device flash.now spare.now disk.old) b) (running flash.now spare.now disk.old meter) }
    ensures disk_len { length disk.new ≡ disk_size z }
{
    let place = units::place(meter, z, b);
    lay_rescued(z, b as u16, columns, flash, spare, &mut disk[place]);
    meter::spent(meter, z.p)
}

// The back-end bucket of what a dropped bucket alone holds: of a Dirty copy, or of a Write bucket.
fn unwritten_back(z: Sizes, c: usize, dropped_write: u16, dropped_copy: u16, spare: &[u8]) -> u16
    requires chip { Chip z spare.now }
    requires c_lt_c { c < z.c }
    ensures { result ≡ (if is_dirty z (spare_only spare.now) c then dropped_copy else dropped_write) }
{
    if image::is_dirty(z, c, spare) {
        dropped_copy
    } else {
        dropped_write
    }
}

// The column of what is to be written.
fn unwritten_backs(z: Sizes, columns: Columns<'_>, spare: &[u8]) -> [u16; 256]
    requires chip { Chip z spare.now }
    requires listed { Listed z spare.now columns }
    ensures { take (length columns.entry.order.now) result ≡ column z (spare_only spare.now) (is_unwritten z (spare_only spare.now)) }
{
    let mut unwritten = [0u16; 256];
    for (i, c) in columns.order.iter().enumerate() {
        unwritten[i] = unwritten_back(
            z,
            *c as usize,
            columns.dropped_writes[i],
            columns.dropped_copies[i],
            spare,
        );
    }
    unwritten
}

// The units of every rescued back-end bucket: from each to the next one, which no `for` counts.
fn rescue_each(
    meter: Meter,
    z: Sizes,
    columns: Columns<'_>,
    unwritten: &[u16],
    flash: &[u8],
    spare: &[u8],
    disk: &mut [u8],
) -> Meter
    requires recoverable { Recoverable z flash.now spare.now disk.old }
    requires listed { Listed z spare.now columns }
    requires unwritten_value { unwritten.now ≡ column z (spare_only spare.now) (is_unwritten z (spare_only spare.now)) }
    ensures result_after { running flash.now spare.now disk.new result ≡ run_all z (rescues z (device flash.now spare.now disk.old)) (running flash.now spare.now disk.old meter) }
    ensures disk_len { length disk.new ≡ disk_size z }
{
    let end = z.b;
    let mut left = meter;
    let mut b = order::next_of(unwritten, 0, end);
    while b < end {
        left = rescue_one(left, z, b, columns, flash, spare, disk);
        b = order::next_of(unwritten, b + 1, end);
    }
    left
}

// Chip and disk are lent on; the disk alone is written.
fn write_units(
    meter: Meter,
    z: Sizes,
    columns: Columns<'_>,
    unwritten: &[u16],
    flash: &mut [u8],
    spare: &mut [u8],
    disk: &mut [u8],
) -> Meter
    requires recoverable { Recoverable z flash.old spare.old disk.old }
    requires listed { Listed z spare.old columns }
    requires unwritten_value { unwritten.now ≡ column z (spare_only spare.old) (is_unwritten z (spare_only spare.old)) }
    ensures after { running flash.new spare.new disk.new result ≡ run_all z (rescues z (device flash.old spare.old disk.old)) (running flash.old spare.old disk.old meter) }
    ensures lent_after { Lent z flash.new spare.new disk.new }
{
    rescue_each(meter, z, columns, unwritten, flash, spare, disk)
}

// The stores of a recovery, with what is to be written in a column of its own.
pub fn rescue(run: &mut Run<'_>, z: Sizes, columns: Columns<'_>)
    requires recoverable { RecoverableIn z run.old }
    requires listed { Listed z run.old.spare.now columns }
    ensures after { run_of run.new ≡ run_all z (rescues z (run_of run.old).device) (run_of run.old) }
    ensures stays { Stays z run.old run.new }
{
    let unwritten = unwritten_backs(z, columns, run.spare());
    let n = columns.order.len();
    let meter = run.meter;
    run.meter = write_units(
        meter,
        z,
        columns,
        &unwritten[..n],
        run.flash,
        run.spare,
        run.disk,
    );
}
