// The engine's operations, repeated on lent areas of any size. Each run gives the sum of the stores made.
// The old merge and the new one too, of one Write bucket over the disk's bytes.
#![tactic(auto)]

ghost use Rattle.std.specs.Prelude.{◌≡◌, ◌+◌, ◌≤◌, length};
ghost use Rattle.model.specs.Sizes.{bucket_size};
ghost use Rattle.overlay.specs.Window.{Readable};

use model::Sizes;
use outcome::Outcome;
use state::State;

// Never cuts: no operation makes as many stores.
const PLENTY: usize = 65535;

// The state reached, and the stores made on the way.
#[derive(Clone, Copy)]
struct Run {
    state: State,
    stores: usize,
}

fn and_then(run: Run, o: Outcome) -> Run {
    Run {
        state: o.state,
        stores: run.stores.wrapping_add(o.stores),
    }
}

// The largest P, C, R and W, with pages of s bytes and b back-end buckets.
fn sizes(s: usize, b: usize) -> Sizes {
    Sizes {
        s,
        p: 64,
        c: 256,
        b,
        r: 64,
        w: 64,
    }
}

fn formatted(z: Sizes, flash: &mut [u8], spare: &mut [u8], disk: &mut [u8]) -> Run {
    let o = format::format(State::unformatted(), z, PLENTY, flash, spare, disk);
    Run {
        state: o.state,
        stores: 0,
    }
}

// The i-th of the back-end buckets that take turns.
fn turn(i: usize, spread: u16) -> u16 {
    if spread == 0 {
        return 0;
    }
    (i % 65536) as u16 % spread
}

// n operations, which are told their number.
fn repeat<F: FnMut(Run, usize) -> Run>(from: Run, n: usize, mut operate: F) -> Run
    requires { F.IsAlwaysCallable operate }
{
    let mut run = from;
    for i in 0..n {
        run = operate(run, i);
    }
    run
}

fn writes(
    from: Run,
    n: usize,
    spread: u16,
    data: &[u8],
    flash: &mut [u8],
    spare: &mut [u8],
    disk: &mut [u8],
) -> Run {
    repeat(from, n, |run, i| {
        let back = turn(i, spread);
        let o = write::write(run.state, back, 0, data, PLENTY, flash, spare, disk);
        and_then(run, o)
    })
}

// Reads from the start of a bucket.
fn reads(
    from: Run,
    n: usize,
    spread: u16,
    buffer: &mut [u8],
    flash: &mut [u8],
    spare: &mut [u8],
    disk: &mut [u8],
) -> Run {
    repeat(from, n, |run, i| {
        let back = turn(i, spread);
        let o = read::read(run.state, back, 0, buffer, PLENTY, flash, spare, disk);
        and_then(run, o)
    })
}

// Each is a write to each of some back-end buckets, and a drain of them.
fn drains(
    from: Run,
    n: usize,
    spread: u16,
    data: &[u8],
    flash: &mut [u8],
    spare: &mut [u8],
    disk: &mut [u8],
) -> Run {
    repeat(from, n, |run, _| {
        let full = writes(run, usize::from(spread), spread, data, flash, spare, disk);
        let o = drain::drain(full.state, PLENTY, flash, spare, disk);
        and_then(full, o)
    })
}

fn recoveries(
    from: Run,
    n: usize,
    z: Sizes,
    flash: &mut [u8],
    spare: &mut [u8],
    disk: &mut [u8],
) -> Run {
    repeat(from, n, |run, _| {
        let o = recover::recover(run.state, z, PLENTY, flash, spare, disk);
        and_then(run, o)
    })
}

// Logs of back-end bucket 0, each so many bytes behind the one before. They go to cache bucket 0.
fn logs(
    from: Run,
    n: usize,
    apart: usize,
    data: &[u8],
    flash: &mut [u8],
    spare: &mut [u8],
    disk: &mut [u8],
) -> Run {
    repeat(from, n, |run, i| {
        let offset = i.wrapping_mul(apart);
        let o = write::write(run.state, 0, offset, data, PLENTY, flash, spare, disk);
        and_then(run, o)
    })
}

// A format, some operations before, then n of them. bench_c exports these functions to C.
pub fn bench_writes(
    n: usize,
    s: usize,
    b: usize,
    before: usize,
    spread: u16,
    data: &[u8],
    flash: &mut [u8],
    spare: &mut [u8],
    disk: &mut [u8],
) -> usize {
    let begun = formatted(sizes(s, b), flash, spare, disk);
    let first = writes(begun, before, spread, data, flash, spare, disk);
    let run = writes(first, n, spread, data, flash, spare, disk);
    run.stores
}

pub fn bench_reads(
    n: usize,
    s: usize,
    b: usize,
    before: usize,
    spread: u16,
    buffer: &mut [u8],
    flash: &mut [u8],
    spare: &mut [u8],
    disk: &mut [u8],
) -> usize {
    let begun = formatted(sizes(s, b), flash, spare, disk);
    let first = reads(begun, before, spread, buffer, flash, spare, disk);
    let run = reads(first, n, spread, buffer, flash, spare, disk);
    run.stores
}

pub fn bench_drains(
    n: usize,
    s: usize,
    b: usize,
    before: usize,
    spread: u16,
    data: &[u8],
    flash: &mut [u8],
    spare: &mut [u8],
    disk: &mut [u8],
) -> usize {
    let begun = formatted(sizes(s, b), flash, spare, disk);
    let first = drains(begun, before, spread, data, flash, spare, disk);
    let run = drains(first, n, spread, data, flash, spare, disk);
    run.stores
}

// Recoveries of the image that the writes before leave.
pub fn bench_recoveries(
    n: usize,
    s: usize,
    b: usize,
    before: usize,
    spread: u16,
    data: &[u8],
    flash: &mut [u8],
    spare: &mut [u8],
    disk: &mut [u8],
) -> usize {
    let z = sizes(s, b);
    let begun = formatted(z, flash, spare, disk);
    let image = writes(begun, before, spread, data, flash, spare, disk);
    let run = recoveries(image, n, z, flash, spare, disk);
    run.stores
}

// The old one lays the bytes under the logs out, and then the logs, one after the other; the new one copies each byte once.
#[derive(Clone, Copy)]
enum Merge {
    Old,
    New,
}

fn merge_old(z: Sizes, from: usize, flash: &[u8], spare: &[u8], under: &[u8], window: &mut [u8])
    requires readable { Readable z flash.now spare.now }
    requires under_len { length under.now ≡ bucket_size z }
    requires window_bound { from + length window.old ≤ bucket_size z }
{
    let end = from + window.len();
    window.copy_from_slice(&under[from..end]);
    merge::merge_range(z, 0, from, flash, spare, window);
}

fn merge_new(z: Sizes, from: usize, flash: &[u8], spare: &[u8], under: &[u8], window: &mut [u8])
    requires readable { Readable z flash.now spare.now }
    requires under_len { length under.now ≡ bucket_size z }
    requires window_bound { from + length window.old ≤ bucket_size z }
{
    overlay::lay_out(z, &[0], from, flash, spare, under, window);
}

fn merges(
    n: usize,
    merge: Merge,
    z: Sizes,
    from: usize,
    flash: &[u8],
    spare: &[u8],
    under: &[u8],
    window: &mut [u8],
)
    requires readable { Readable z flash.now spare.now }
    requires under_len { length under.now ≡ bucket_size z }
    requires window_bound { from + length window.old ≤ bucket_size z }
{
    for _ in 0..n {
        match merge {
            Merge::Old => merge_old(z, from, flash, spare, under, window),
            Merge::New => merge_new(z, from, flash, spare, under, window),
        }
    }
}

// Merges n times, if the chip passes numbers 1, 2 and 4 and the window lies within the bucket.
fn merge_chip(
    n: usize,
    merge: Merge,
    z: Sizes,
    from: usize,
    flash: &[u8],
    spare: &[u8],
    disk: &[u8],
    window: &mut [u8],
) {
    if checks::check_image(z, flash, spare, disk).is_err() {
        return;
    }
    let size = z.p * z.s;
    if size < from || size - from < window.len() {
        return;
    }
    merges(n, merge, z, from, flash, spare, &disk[..size], window);
}

// The window laid out n times over some logs of the data's length.
fn bench_merges(
    n: usize,
    merge: Merge,
    z: Sizes,
    count: usize,
    apart: usize,
    from: usize,
    data: &[u8],
    window: &mut [u8],
    flash: &mut [u8],
    spare: &mut [u8],
    disk: &mut [u8],
) -> usize {
    let begun = formatted(z, flash, spare, disk);
    let run = logs(begun, count, apart, data, flash, spare, disk);
    merge_chip(n, merge, z, from, flash, spare, disk, window);
    run.stores
}

// By the old merge. bench_c exports this name and the next: a C caller can pass no `Merge`.
pub fn bench_old_merges(
    n: usize,
    s: usize,
    count: usize,
    apart: usize,
    from: usize,
    data: &[u8],
    window: &mut [u8],
    flash: &mut [u8],
    spare: &mut [u8],
    disk: &mut [u8],
) -> usize {
    let z = sizes(s, 1);
    bench_merges(
        n,
        Merge::Old,
        z,
        count,
        apart,
        from,
        data,
        window,
        flash,
        spare,
        disk,
    )
}

// By the new one.
pub fn bench_new_merges(
    n: usize,
    s: usize,
    count: usize,
    apart: usize,
    from: usize,
    data: &[u8],
    window: &mut [u8],
    flash: &mut [u8],
    spare: &mut [u8],
    disk: &mut [u8],
) -> usize {
    let z = sizes(s, 1);
    bench_merges(
        n,
        Merge::New,
        z,
        count,
        apart,
        from,
        data,
        window,
        flash,
        spare,
        disk,
    )
}
