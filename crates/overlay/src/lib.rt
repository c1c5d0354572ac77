// The complete logs of cache buckets over the bytes that lie under them. Each byte is copied once: from the last log that covers it, or from
// under the logs. The whole is all bytes of a back-end bucket; a run is a part of it that one log covers last, or none.
#![tactic(auto)]

ghost use Rattle.std.specs.Prelude.{◌≡◌, true, ◌&&◌, ◌⊎◌, List, [], ◌∷◌, ℕ, ◌+◌, ◌-◌, ◌*◌, ◌≤◌, ◌<◌, max, length, MatchOption, take, get_or, leb, ltb, eqb, if◌then◌else◌};
ghost use Rattle.lists.specs.Lists.{all, splice, part};
ghost use Rattle.model.specs.Sizes.{bucket_size, body};
ghost use Rattle.model.specs.Image.{blanks};
ghost use Rattle.model.specs.State.{is_below};
ghost use Rattle.image.specs.Chip.{spare_only};
ghost use Rattle.model.specs.Recover.{merge_all};
ghost use Rattle.overlay.specs.Window.{Turns, Tagged, Readable, chip};
ghost use Rattle.overlay.specs.Runs.{Lays, LaysNone, EndsBy, Runs, Laid, lent_over, Moves, moved_over, Shows, beneath, Aside};

use model::Sizes;

// The bytes of the whole that a log covers, from `low` up to `high`, and where they lie in the flash.
#[derive(Clone, Copy)]
pub struct Extent {
    pub low: usize,
    pub high: usize,
    pub at: usize,
}

// The bytes of the whole from `start` on; if a log covers them, they lie in the flash from `at` on.
#[derive(Clone, Copy)]
pub struct Run {
    pub at: Option<usize>,
    pub start: usize,
}

// What the log covers that ends at page k, if a complete one does.
fn log_at(z: Sizes, c: usize, k: usize, spare: &[u8]) -> Option<Extent>
    requires tagged { Tagged z spare.now }
    requires c_bound { (c < body z) × (k < z.p) }
    ensures { MatchOption result (LaysNone z spare.now c k) (λ log. Lays z spare.now c k log) }
{
    if !image::ends_log(z, c, k, spare) {
        return None;
    }
    let f = spare::fields_at(spare, c * z.p + k);
    let low = f.offset as usize;
    let high = low + (f.last as usize + 1);
    let first = k + 1 - f.pages as usize;
    let at = c * (z.p * z.s) + first * z.s;
    Some(Extent { low, high, at })
}

// Whether it covers the byte before x.
fn covers(log: Extent, x: usize) -> bool
    ensures { result ≡ (ltb log.low x && leb x log.high) }
{
    (log.low < x) & (x <= log.high)
}

// A run up to x starts where a later log ends.
fn raised(x: usize, start: usize, log: Extent) -> usize
    ensures { result ≡ (if ltb log.high x then max start log.high else start) }
{
    if log.high < x {
        return start.max(log.high);
    }
    start
}

// The run up to x, of the logs in the first pages of one bucket, where the others lay nothing before x. They are looked at from the last on: the
// first that covers the byte before x is the last that does.
fn run_in(z: Sizes, c: usize, pages: usize, from: usize, x: usize, spare: &[u8]) -> Run
    requires tagged { Tagged z spare.now }
    requires c_bound { (c < body z) × (from < x) × (x ≤ bucket_size z) }
    requires ends_by { EndsBy z spare.now c x pages }
    ensures { Runs z spare.now (c ∷ []) from x result }
{
    let mut start = from;
    for k in (0..pages).rev() {
        if let Some(log) = log_at(z, c, k, spare) {
            if covers(log, x) {
                let first = start.max(log.low);
                let at = log.at + (first - log.low);
                return Run {
                    at: Some(at),
                    start: first,
                };
            }
            start = raised(x, start, log);
        }
    }
    Run { at: None, start }
}

// Whether the log lays a byte before x.
fn reaches(log: Extent, x: usize) -> bool
    ensures { result ≡ (ltb log.low x && ltb log.low log.high) }
{
    (log.low < x) & (log.low < log.high)
}

// The first pages of a bucket without the last of them that lay nothing before x. Logs of data that was written in rising order are left behind so,
// one after the other.
fn live_pages(z: Sizes, c: usize, pages: usize, x: usize, spare: &[u8]) -> usize
    requires tagged { Tagged z spare.now }
    requires c_bound { c < body z }
    requires ends_by { EndsBy z spare.now c x pages }
    ensures { EndsBy z spare.now c x result }
{
    for page in (0..pages).rev() {
        if let Some(log) = log_at(z, c, page, spare) {
            if reaches(log, x) {
                return page + 1;
            }
        }
    }
    0
}

// How many pages of the listed bucket j are not blank.
fn pages_used_at(z: Sizes, list: &[u8], j: usize, spare: &[u8]) -> usize
    requires tagged { Tagged z spare.now }
    requires list_value { (all (is_below (body z)) list.now ≡ true) × (j < length list.now) }
    ensures { result ≡ z.p - blanks z (spare_only spare.now) (get_or list.now j 0) }
{
    image::pages_used(z, list[j] as usize, spare)
}

// How many pages of the newest listed bucket are not blank; most lists have no other.
fn newest_pages(z: Sizes, list: &[u8], spare: &[u8]) -> usize
    requires tagged { Tagged z spare.now }
    requires list_value { all (is_below (body z)) list.now ≡ true }
    ensures { (x : ℕ) → 0 < length list.now → EndsBy z spare.now (get_or list.now (length list.now - 1) 0) x result }
{
    let n = list.len();
    if n == 0 {
        return 0;
    }
    pages_used_at(z, list, n - 1, spare)
}

// Those of them without the last that lay nothing before x.
fn newest_live(z: Sizes, list: &[u8], pages: usize, x: usize, spare: &[u8]) -> usize
    requires tagged { Tagged z spare.now }
    requires list_value { all (is_below (body z)) list.now ≡ true }
    requires ends_by { 0 < length list.now → EndsBy z spare.now (get_or list.now (length list.now - 1) 0) x pages }
    ensures { 0 < length list.now → EndsBy z spare.now (get_or list.now (length list.now - 1) 0) x result }
{
    let n = list.len();
    if n == 0 {
        return 0;
    }
    live_pages(z, list[n - 1] as usize, pages, x, spare)
}

// The pages to be looked at of the listed bucket j: those not blank, and of the newest as many of them as are left.
fn pages_at(z: Sizes, list: &[u8], j: usize, newest: usize, spare: &[u8]) -> usize
    requires tagged { Tagged z spare.now }
    requires list_value { (all (is_below (body z)) list.now ≡ true) × (j < length list.now) }
    ensures { result ≡ (if eqb j (length list.now - 1) then newest else z.p - blanks z (spare_only spare.now) (get_or list.now j 0)) }
{
    if j == list.len() - 1 {
        return newest;
    }
    pages_used_at(z, list, j, spare)
}

// The run up to x, of the logs of all listed buckets, the newest last.
fn run_at(z: Sizes, list: &[u8], newest: usize, from: usize, x: usize, spare: &[u8]) -> Run
    requires tagged { Tagged z spare.now }
    requires list_value { all (is_below (body z)) list.now ≡ true }
    requires ends_by { 0 < length list.now → EndsBy z spare.now (get_or list.now (length list.now - 1) 0) x newest }
    requires from_lt_x { (from < x) × (x ≤ bucket_size z) }
    ensures { Runs z spare.now list.now from x result }
{
    let mut start = from;
    for j in (0..list.len()).rev() {
        let pages = pages_at(z, list, j, newest, spare);
        let run = run_in(z, list[j] as usize, pages, start, x, spare);
        if run.at.is_some() {
            return run;
        }
        start = run.start;
    }
    Run { at: None, start }
}

// A run goes into the window, which shows the whole from an index on. With nothing lent to lie under the logs, the window shows it already.
fn lay_run(run: Run, x: usize, from: usize, flash: &[u8], under: &[u8], window: &mut [u8])
    requires { Laid run x from (length flash.now) (length under.now) (length window.old) }
    ensures { window.new ≡ lent_over run x from flash.now under.now window.old }
{
    let start = run.start;
    if let Some(at) = run.at {
        let end = at + (x - start);
        area::write_at(window, start - from, &flash[at..end]);
        return;
    }
    if !under.is_empty() {
        area::write_at(window, start - from, &under[start..x]);
    }
}

// Run by run, from the last on.
fn lay_runs(
    z: Sizes,
    list: &[u8],
    from: usize,
    flash: &[u8],
    spare: &[u8],
    under: &[u8],
    window: &mut [u8],
)
    requires readable { Readable z flash.now spare.now }
    requires list_value { all (is_below (body z)) list.now ≡ true }
    requires fact { (length under.now ≡ 0) ⊎ (length under.now ≡ bucket_size z) }
    requires window_bound { from + length window.old ≤ bucket_size z }
    ensures { (whole : List ℕ) → length whole ≡ bucket_size z → Shows whole under.now from window.old → window.new ≡ part (merge_all z (chip flash.now spare.now) list.now whole) from (length window.old) }
{
    let mut newest = newest_pages(z, list, spare);
    let mut x = from + window.len();
    // Each run ends where the one behind it starts: no range counts these steps.
    while from < x {
        newest = newest_live(z, list, newest, x, spare);
        let run = run_at(z, list, newest, from, x, spare);
        lay_run(run, x, from, flash, under, window);
        x = run.start;
    }
}

// The window comes to show, from an index on, the logs of the listed buckets over the bytes lent to lie under them.
pub fn lay_out(
    z: Sizes,
    list: &[u8],
    from: usize,
    flash: &[u8],
    spare: &[u8],
    under: &[u8],
    window: &mut [u8],
)
    requires readable { Readable z flash.now spare.now }
    requires list_value { all (is_below (body z)) list.now ≡ true }
    requires under_len { length under.now ≡ bucket_size z }
    requires window_bound { from + length window.old ≤ bucket_size z }
    ensures { window.new ≡ part (merge_all z (chip flash.now spare.now) list.now under.now) from (length window.old) }
{
    lay_runs(z, list, from, flash, spare, under, window);
}

// The window shows a base from an index on, and then the base with the logs of the listed buckets over it.
pub fn lay_over(z: Sizes, list: &[u8], from: usize, flash: &[u8], spare: &[u8], window: &mut [u8])
    requires readable { Readable z flash.now spare.now }
    requires list_value { all (is_below (body z)) list.now ≡ true }
    requires window_bound { from + length window.old ≤ bucket_size z }
    ensures { (base : List ℕ) → length base ≡ bucket_size z → Turns from base (merge_all z (chip flash.now spare.now) list.now base) window.old window.new }
{
    lay_runs(z, list, from, flash, spare, &flash[..0], window);
}

// A run goes into the flash itself, where the whole begins at the index `to`; what lies under the logs is lent, or begins at the index `base`.
fn move_run(run: Run, x: usize, base: usize, to: usize, under: &[u8], flash: &mut [u8])
    requires { Moves run x base to (length under.now) (length flash.old) }
    ensures { flash.new ≡ moved_over run x base to under.now flash.old }
{
    let start = run.start;
    if let Some(at) = run.at {
        area::move_within(flash, at, to + start, x - start);
        return;
    }
    if under.is_empty() {
        area::move_within(flash, base + start, to + start, x - start);
        return;
    }
    area::write_at(flash, to + start, &under[start..x]);
}

// The first n bytes of the whole come to stand in the cache bucket `target`: the logs of the listed buckets over the bytes lent to lie under
// them, or, if none are lent, over those of the cache bucket `base`.
pub fn lay_within(
    z: Sizes,
    list: &[u8],
    base: usize,
    under: &[u8],
    target: usize,
    n: usize,
    flash: &mut [u8],
    spare: &[u8],
)
    requires readable { Readable z flash.old spare.now }
    requires list_value { all (is_below (body z)) list.now ≡ true }
    requires target_lt_c { (target < z.c) × (base < z.c) × (n ≤ bucket_size z) }
    requires aside { Aside z list.now base under.now target }
    ensures { flash.new ≡ splice flash.old (target * bucket_size z) (take n (merge_all z (chip flash.old spare.now) list.now (beneath z flash.old base under.now))) }
{
    let size = z.p * z.s;
    let to = target * size;
    let under_at = base * size;
    let mut newest = newest_pages(z, list, spare);
    let mut x = n;
    // Each run ends where the one behind it starts: no range counts these steps.
    while 0 < x {
        newest = newest_live(z, list, newest, x, spare);
        let run = run_at(z, list, newest, 0, x, spare);
        move_run(run, x, under_at, to, under, flash);
        x = run.start;
    }
}
