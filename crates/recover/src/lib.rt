// Recover: the ledger's erases; then the state from the chip's spare area alone, and the units of what the queues have no place for.
#![tactic(auto)]

ghost use Rattle.std.specs.Prelude.{◌≡◌, true, [], map, ◌++◌, ◌+◌, ◌≤◌, ◌<◌, length};
ghost use Rattle.lists.specs.Lists.{all};
ghost use Rattle.model.specs.Sizes.{body};
ghost use Rattle.model.specs.Image.{is_write, body_fits};
ghost use Rattle.model.specs.State.{is_below};
ghost use Rattle.model.specs.Recover.{is_dropped_write, rebuilt, recover};
ghost use Rattle.model.specs.Calls.{recover_call, carry_out, call};
ghost use Rattle.geometry.specs.Geometry.{device};
ghost use Rattle.fifo.specs.View.{list_of};
ghost use Rattle.queue.specs.View.{entries_of};
ghost use Rattle.state.specs.View.{places_of, view_of};
ghost use Rattle.meter.specs.Lent.{run_of, Stays};
ghost use Rattle.steps.specs.Turns.{reached};
ghost use Rattle.image.specs.Chip.{Chip, spare_only};
ghost use Rattle.classes.specs.Columns.{in_order, column};
ghost use Rattle.rescue.specs.Sources.{RecoverableIn, Listed};
ghost use Rattle.checks.proofs.Opens.{Found};
ghost use Rattle.outcome.specs.Handed.{handed_back, handed};
ghost use Rattle.recover.specs.Kept.{entry_of, picked, differing, retired};
ghost use Rattle.recover.specs.Stages.{rebuilding};

use classes::Kind;
use fifo::Fifo;
use meter::{Meter, Run};
use model::{Answer, Entry, Sizes};
use outcome::Outcome;
use queue::Queue;
use rescue::Columns;
use state::State;

// The bucket's entry in a queue. The write queue counts its blank pages.
fn entry_of(z: Sizes, c: u8, counted: bool, spare: &[u8]) -> Entry
    requires chip { Chip z spare.now }
    requires c_lt_c { c < z.c }
    ensures { result ≡ entry_of z (spare_only spare.now) counted c }
{
    let back = image::back_of(z, c as usize, spare);
    if counted {
        let blanks = image::blanks(z, c as usize, spare);
        queue::entry(back, c, blanks as u8)
    } else {
        queue::entry(back, c, 0)
    }
}

// A queue of the buckets that the column names and the dropped ones do not.
fn kept_queue(
    z: Sizes,
    order: &[u8],
    column: &[u16],
    dropped: &[u16],
    counted: bool,
    spare: &[u8],
) -> Queue
    requires chip { Chip z spare.now }
    requires order_value { all (is_below (body z)) order.now ≡ true }
    requires column_len { (length column.now ≡ length order.now) × (length dropped.now ≡ length order.now) }
    requires order_len_bound { length (differing column.now dropped.now order.now) ≤ 64 }
    ensures { entries_of result ≡ map (entry_of z (spare_only spare.now) counted) (differing column.now dropped.now order.now) }
{
    let mut items = Queue::empty().items;
    let mut n = 0;
    for (i, c) in order.iter().enumerate() {
        if column[i] != dropped[i] {
            items[n] = entry_of(z, *c, counted, spare);
            n += 1;
        }
    }
    Queue { items, len: n }
}

// The list, and behind it the buckets that the column names.
fn gather(order: &[u8], column: &[u16], list: Fifo) -> Fifo
    requires column_len { length column.now ≡ length order.now }
    requires order_len_bound { length (list_of list) + length (picked column.now order.now) ≤ 256 }
    ensures { list_of result ≡ list_of list ++ picked column.now order.now }
{
    let mut n = list.used();
    let mut items = list.items;
    for (i, c) in order.iter().enumerate() {
        if column[i] != classes::NOWHERE {
            items[n] = *c;
            n += 1;
        }
    }
    Fifo { items, len: n }
}

// Spent buckets by number; superseded and incomplete copies, dropped copies, dropped Write buckets, each by epoch.
fn retired(z: Sizes, columns: Columns<'_>, spare: &[u8]) -> Fifo
    requires chip { Chip z spare.now }
    requires spare_value { body_fits z (spare_only spare.now) ≡ true }
    requires listed { Listed z spare.now columns }
    ensures { list_of result ≡ retired z (spare_only spare.now) }
{
    let order = columns.order;
    let n = order.len();
    let mut old = classes::blank_column();
    classes::old_column(z, order, columns.copies, spare, &mut old[..n]);
    let spent = classes::buckets(z, Kind::Spent, spare);
    let first = gather(order, &old[..n], spent);
    let second = gather(order, columns.dropped_copies, first);
    gather(order, columns.dropped_writes, second)
}

// The state that a finished recovery leaves.
fn recovered(z: Sizes, next: u64, columns: Columns<'_>, spare: &[u8]) -> State
    requires chip { Chip z spare.now }
    requires spare_value { body_fits z (spare_only spare.now) ≡ true }
    requires listed { Listed z spare.now columns }
    ensures { places_of result ≡ (rebuilt z (spare_only spare.now) next).state }
{
    let order = columns.order;
    let reads = kept_queue(
        z,
        order,
        columns.copies,
        columns.dropped_copies,
        false,
        spare,
    );
    let writes = kept_queue(
        z,
        order,
        columns.writes,
        columns.dropped_writes,
        true,
        spare,
    );
    let gc = retired(z, columns, spare);
    let free = classes::buckets(z, Kind::Free, spare);
    State {
        sizes: z,
        running: true,
        reads,
        writes,
        gc,
        free,
        accepted: 0,
        next,
    }
}

// The state is that of the spare area before the units.
fn rebuild_by(run: &mut Run<'_>, z: Sizes, next: u64, columns: Columns<'_>) -> State
    requires recoverable { RecoverableIn z run.old }
    requires listed { Listed z run.old.spare.now columns }
    ensures after { reached run.new result ≡ rebuilding z next (run_of run.old) }
    ensures stays { Stays z run.old run.new }
{
    let new = recovered(z, next, columns, run.spare());
    rescue::rescue(run, z, columns);
    new
}

// Which copies are kept and which are dropped, beside the Write buckets.
fn rebuild_copies(
    run: &mut Run<'_>,
    z: Sizes,
    next: u64,
    order: &[u8],
    writes: &[u16],
    dropped_writes: &[u16],
) -> State
    requires recoverable { RecoverableIn z run.old }
    requires order_value { order.now ≡ in_order z (spare_only run.old.spare.now) }
    requires writes_value { (writes.now ≡ column z (spare_only run.old.spare.now) (is_write z (spare_only run.old.spare.now))) × (dropped_writes.now ≡ column z (spare_only run.old.spare.now) (is_dropped_write z (spare_only run.old.spare.now))) }
    ensures after { reached run.new result ≡ rebuilding z next (run_of run.old) }
    ensures stays { Stays z run.old run.new }
{
    let n = order.len();
    let mut copies = classes::blank_column();
    let mut dropped = classes::blank_column();
    classes::copy_columns(
        z,
        order,
        dropped_writes,
        run.spare(),
        &mut copies[..n],
        &mut dropped[..n],
    );
    let columns = Columns {
        order,
        writes,
        dropped_writes,
        copies: &copies[..n],
        dropped_copies: &dropped[..n],
    };
    rebuild_by(run, z, next, columns)
}

// Which Write buckets are kept and which are dropped.
fn rebuild_writes(run: &mut Run<'_>, z: Sizes, next: u64, order: &[u8]) -> State
    requires recoverable { RecoverableIn z run.old }
    requires order_value { order.now ≡ in_order z (spare_only run.old.spare.now) }
    ensures after { reached run.new result ≡ rebuilding z next (run_of run.old) }
    ensures stays { Stays z run.old run.new }
{
    let n = order.len();
    let mut writes = classes::blank_column();
    let mut dropped = classes::blank_column();
    classes::write_columns(z, order, run.spare(), &mut writes[..n], &mut dropped[..n]);
    rebuild_copies(run, z, next, order, &writes[..n], &dropped[..n])
}

// Recovery behind its erases. The used buckets are put in order once, for all lists and stores.
fn rebuild(run: &mut Run<'_>, z: Sizes, next: u64) -> State
    requires { RecoverableIn z run.old }
    ensures after { reached run.new result ≡ rebuilding z next (run_of run.old) }
    ensures stays { Stays z run.old run.new }
{
    let used = classes::in_order(z, run.spare());
    let n = used.used();
    let order = used.items;
    rebuild_writes(run, z, next, &order[..n])
}

// Epochs and names are those that recovery finds; a cut in its erases ends it.
fn recover_chip(
    s: State,
    z: Sizes,
    allowance: usize,
    flash: &mut [u8],
    spare: &mut [u8],
    disk: &mut [u8],
) -> Outcome
    requires { Found z (device flash.old spare.old disk.old) }
    ensures { handed_back (device flash.new spare.new disk.new) [] result ≡ handed s (carry_out allowance (recover_call z) (view_of s) (device flash.old spare.old disk.old) (recover z (device flash.old spare.old disk.old))) }
{
    let next = fits::top_epoch(z, spare) + 1;
    let marks = ledger::named(z, spare);
    let mut run = Run {
        flash,
        spare,
        disk,
        meter: Meter::whole(allowance),
    };
    sweep::sweep(&mut run, z, &marks);
    if run.meter.cut {
        return outcome::cut_short(run.meter, allowance, s);
    }
    let new = rebuild(&mut run, z, next);
    outcome::finish(run.meter, allowance, Answer::Done, s, new)
}

// The entry. The sizes are its own: the state's are not looked at.
pub fn recover(
    s: State,
    z: Sizes,
    allowance: usize,
    flash: &mut [u8],
    spare: &mut [u8],
    disk: &mut [u8],
) -> Outcome
    ensures { handed_back (device flash.new spare.new disk.new) [] result ≡ handed s (call allowance (recover_call z) (view_of s) (device flash.old spare.old disk.old)) }
{
    match checks::check_recover(z, flash, spare, disk) {
        Ok(()) => recover_chip(s, z, allowance, flash, spare, disk),
        Err(refusal) => outcome::refused(refusal.number(), s),
    }
}
