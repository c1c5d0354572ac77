// The complete logs of a cache bucket, laid in order over a base, log by log: what `overlay` is compared with, by the program `remerge` and in
// the benchmark. No entry calls it.
// A window is a lent buffer that shows a part of the base; merged, it shows the same part of the result. Only the bytes in the window are
// copied.
#![tactic(auto)]

ghost use Rattle.std.specs.Prelude.{◌≡◌, List, ℕ, ◌+◌, ◌≤◌, ◌<◌, length};
ghost use Rattle.lists.specs.Lists.{splice};
ghost use Rattle.model.specs.Sizes.{bucket_size, flash_size, body};
ghost use Rattle.model.specs.Image.{merge_to, merge};
ghost use Rattle.model.proofs.Limits.{Limits};
ghost use Rattle.overlay.specs.Window.{Turns, Readable, chip, LogPlace, log_part};

use model::Sizes;
use spare::{Fields, Seen};

// Lays bytes, which belong into the whole from index `at` on, over the window, which shows the whole from index `from` on.
fn lay(from: usize, at: usize, bytes: &[u8], window: &mut [u8])
    requires window_bound { from + length window.old ≤ 65536 }
    requires bytes_bound { at + length bytes.now ≤ 65536 }
    ensures { (whole : List ℕ) → from + length window.old ≤ length whole → at + length bytes.now ≤ length whole → Turns from whole (splice whole at bytes.now) window.old window.new }
{
    let start = from.max(at);
    let end = (from + window.len()).min(at + bytes.len());
    if end <= start {
        return;
    }
    let first = start - at;
    let last = end - at;
    area::write_at(window, start - from, &bytes[first..last]);
}

// Lays the complete log with the fields f, which ends at page k.
fn lay_log(z: Sizes, c: usize, k: usize, f: Fields, from: usize, flash: &[u8], window: &mut [u8])
    requires limits { Limits z }
    requires flash_len { length flash.now ≡ flash_size z }
    requires c_lt_c { c < z.c }
    requires log_place { LogPlace z k f }
    requires window_bound { from + length window.old ≤ bucket_size z }
    ensures { (whole : List ℕ) → length whole ≡ bucket_size z → Turns from whole (splice whole f.offset (log_part z c k f flash.now)) window.old window.new }
{
    let bucket = z.p * z.s;
    let first = k + 1 - f.pages as usize;
    let start = c * bucket + first * z.s;
    let end = start + (f.last as usize + 1);
    lay(from, f.offset as usize, &flash[start..end], window);
}

// Lays the log that ends at page k, if a complete one does.
fn lay_page(
    z: Sizes,
    c: usize,
    k: usize,
    from: usize,
    flash: &[u8],
    spare: &[u8],
    window: &mut [u8],
)
    requires readable { Readable z flash.now spare.now }
    requires c_bound { c < body z }
    requires k_lt_p { k < z.p }
    requires window_bound { from + length window.old ≤ bucket_size z }
    ensures { (base : List ℕ) → length base ≡ bucket_size z → Turns from (merge_to z (chip flash.now spare.now) c base k) (merge_to z (chip flash.now spare.now) c base (k + 1)) window.old window.new }
{
    if !image::ends_log(z, c, k, spare) {
        return;
    }
    let page = image::page_seen(z, c, k, spare);
    match page {
        Seen::Blank => {}
        // It "belongs to no log".
        Seen::Spoiled => {}
        Seen::Programmed(f) => lay_log(z, c, k, f, from, flash, window),
    }
}

// The window shows a base from an index on, and then the base with the bucket's complete logs laid over it.
pub fn merge_range(z: Sizes, c: usize, from: usize, flash: &[u8], spare: &[u8], window: &mut [u8])
    requires readable { Readable z flash.now spare.now }
    requires c_bound { c < body z }
    requires window_bound { from + length window.old ≤ bucket_size z }
    ensures { (base : List ℕ) → length base ≡ bucket_size z → Turns from base (merge z (chip flash.now spare.now) c base) window.old window.new }
{
    let end = image::pages_used(z, c, spare);
    for k in 0..end {
        lay_page(z, c, k, from, flash, spare, window);
    }
}
