// The bytes of a back-end bucket: its Write bucket's complete logs over its read bucket, or over the disk if there is none.
// A window is a lent buffer that comes to show a part of them; no other byte is copied.
#![tactic(auto)]

ghost use Rattle.std.specs.Prelude.{◌≡◌, true, List, [], ◌∷◌, ℕ, ◌+◌, ◌*◌, ◌≤◌, ◌<◌, length, MatchOption};
ghost use Rattle.lists.specs.Lists.{all, part};
ghost use Rattle.model.specs.Sizes.{bucket_size, disk_size, body};
ghost use Rattle.model.specs.Stores.{disk_bytes, unit_stores};
ghost use Rattle.model.specs.State.{cache_of, caches_of, is_below};
ghost use Rattle.model.specs.Steps.{merged};
ghost use Rattle.model.specs.Recover.{merge_all};
ghost use Rattle.geometry.specs.Geometry.{device};
ghost use Rattle.overlay.specs.Window.{Turns, Readable, chip};
ghost use Rattle.meter.specs.Run.{running, run_all};
ghost use Rattle.queue.specs.View.{entries_of};
ghost use Rattle.state.specs.View.{places_of};
ghost use Rattle.gather.specs.Sources.{Sources};

use meter::Meter;
use model::Sizes;
use state::State;

// Shows, from index `from` on, the piece number `index` of an area of pieces of `size` bytes.
pub fn piece_range(area: &[u8], size: usize, index: usize, from: usize, window: &mut [u8])
    requires size_in_bounds { index * size + size ≤ length area.now }
    requires window_bound { from + length window.old ≤ size }
    ensures { window.new ≡ part (part area.now (index * size) size) from (length window.old) }
{
    let at = index * size + from;
    let end = at + window.len();
    area::copy_over(window, &area[at..end]);
}

// The Write bucket of b, if it has one.
pub fn logs_of(s: State, b: u16) -> Option<u8>
    ensures { MatchOption result (caches_of b (entries_of s.writes) ≡ []) (λ c. caches_of b (entries_of s.writes) ≡ c ∷ []) }
{
    match s.writes.find(b) {
        Some(own) => Some(own.cache),
        None => None,
    }
}

// The window shows, from an index on, the logs of the listed buckets over piece number `index` of an area of pieces of a bucket's size.
fn lay_piece(
    z: Sizes,
    list: &[u8],
    area: &[u8],
    index: usize,
    from: usize,
    flash: &[u8],
    spare: &[u8],
    window: &mut [u8],
)
    requires readable { Readable z flash.now spare.now }
    requires list_value { all (is_below (body z)) list.now ≡ true }
    requires z_in_bounds { index * bucket_size z + bucket_size z ≤ length area.now }
    requires window_bound { from + length window.old ≤ bucket_size z }
    ensures { window.new ≡ part (merge_all z (chip flash.now spare.now) list.now (part area.now (index * bucket_size z) (bucket_size z))) from (length window.old) }
{
    let size = z.p * z.s;
    let at = index * size;
    let end = at + size;
    overlay::lay_out(z, list, from, flash, spare, &area[at..end], window);
}

// The window shows the bytes of the back-end bucket b from an index on. The state is looked at before the window is written: looked at later, it would be copied whole.
pub fn merged_range(
    s: State,
    b: u16,
    from: usize,
    flash: &[u8],
    spare: &[u8],
    disk: &[u8],
    window: &mut [u8],
)
    requires sources { Sources (places_of s) b flash.now spare.now disk.now }
    requires window_bound { from + length window.old ≤ bucket_size s.sizes }
    ensures { window.new ≡ part (merged s.sizes (places_of s) (device flash.now spare.now disk.now) b) from (length window.old) }
{
    let z = s.sizes;
    let logs = logs_of(s, b);
    let list = logs.as_slice();
    match s.reads.find(b) {
        Some(copy) => {
            let c = copy.cache as usize;
            lay_piece(z, list, flash, c, from, flash, spare, window);
        }
        None => lay_piece(z, list, disk, b as usize, from, flash, spare, window),
    }
}

// The window shows the bytes of b on the disk, and then the merged ones.
fn lay_merged(s: State, b: u16, flash: &[u8], spare: &[u8], window: &mut [u8])
    requires readable { Readable s.sizes flash.now spare.now }
    requires reads_bound { (cache_of b (entries_of s.reads) < body s.sizes) × (cache_of b (entries_of s.writes) < body s.sizes) }
    requires window_len_bound { length window.old ≤ bucket_size s.sizes }
    ensures { (disk : List ℕ) → Sources (places_of s) b flash.now spare.now disk → Turns 0 (disk_bytes s.sizes (device flash.now spare.now disk) b) (merged s.sizes (places_of s) (device flash.now spare.now disk) b) window.old window.new }
{
    let z = s.sizes;
    let logs = logs_of(s, b);
    let list = logs.as_slice();
    match s.reads.find(b) {
        Some(copy) => {
            let c = copy.cache as usize;
            lay_piece(z, list, flash, c, 0, flash, spare, window);
        }
        None => overlay::lay_over(z, list, 0, flash, spare, window),
    }
}

// The units of b, laid in their place on the disk: as many as the allowance lets be made.
pub fn write_merged(
    meter: Meter,
    s: State,
    b: u16,
    flash: &[u8],
    spare: &[u8],
    disk: &mut [u8],
) -> Meter
    requires { Sources (places_of s) b flash.now spare.now disk.old }
    ensures result_after { running flash.now spare.now disk.new result ≡ run_all s.sizes (unit_stores s.sizes b (merged s.sizes (places_of s) (device flash.now spare.now disk.old) b)) (running flash.now spare.now disk.old meter) }
    ensures disk_len { length disk.new ≡ disk_size s.sizes }
{
    let z = s.sizes;
    let place = units::place(meter, z, b as usize);
    lay_merged(s, b, flash, spare, &mut disk[place]);
    meter::spent(meter, z.p)
}
