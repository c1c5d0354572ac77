// Which Write bucket gives way to a log.
#![tactic(auto)]

ghost use Rattle.std.specs.Prelude.{◌≡◌, true, ◌<◌};
ghost use Rattle.lists.specs.Lists.{all};
ghost use Rattle.model.specs.State.{caches, is_below};
ghost use Rattle.model.specs.Operations.{goes_first, least_of, victim, outgoing};
ghost use Rattle.image.specs.Chip.{Chip, spare_only};
ghost use Rattle.queue.specs.View.{entries_of};
ghost use Rattle.state.specs.View.{places_of};

use model::{Entry, Sizes};
use queue::Queue;
use state::State;

// b's own, which is too full; or, in a full queue, the victim's.
pub fn outgoing(s: State, b: u16, spare: &[u8]) -> Option<u16>
    requires chip { Chip s.sizes spare.now }
    requires writes_value { all (is_below s.sizes.c) (caches (entries_of s.writes)) ≡ true }
    ensures { result ≡ outgoing s.sizes (spare_only spare.now) b (places_of s) }
{
    let writes = s.writes;
    if writes.holds(b) {
        return Some(b);
    }
    let n = writes.used();
    if s.sizes.w <= n {
        let back = victim_of(writes, s.sizes, spare);
        return Some(back);
    }
    None
}

// The back-end bucket of the smallest priority, then the smallest epoch; 0 where there is none.
fn victim_of(candidates: Queue, z: Sizes, spare: &[u8]) -> u16
    requires chip { Chip z spare.now }
    requires candidates_value { all (is_below z.c) (caches (entries_of candidates)) ≡ true }
    ensures { result ≡ victim z (spare_only spare.now) (entries_of candidates) }
{
    let n = candidates.used();
    let items = candidates.items;
    match items[..n].split_first() {
        Some((first, rest)) => least_of(*first, rest, z, spare).back,
        None => 0,
    }
}

// The least of the first and the rest.
fn least_of(first: Entry, rest: &[Entry], z: Sizes, spare: &[u8]) -> Entry
    requires chip { Chip z spare.now }
    requires on_chip { (first.cache < z.c) × (all (is_below z.c) (caches rest.now) ≡ true) }
    ensures { result ≡ least_of z (spare_only spare.now) first rest.now }
{
    let mut least = first;
    for e in rest {
        if goes_first(*e, least, z, spare) {
            least = *e;
        }
    }
    least
}

fn goes_first(e: Entry, f: Entry, z: Sizes, spare: &[u8]) -> bool
    requires chip { Chip z spare.now }
    requires cache_lt_c { (e.cache < z.c) × (f.cache < z.c) }
    ensures { result ≡ goes_first z (spare_only spare.now) e f }
{
    let older = image::epoch_of(z, e.cache as usize, spare)
        < image::epoch_of(z, f.cache as usize, spare);
    (e.priority < f.priority) | ((e.priority == f.priority) & older)
}
