// Whether the state's queues hold each cache bucket once.
#![tactic(auto)]

ghost use Rattle.std.specs.Prelude.{◌≡◌, ℕ, ◌≤◌, ◌<◌, map, length, eqb, get_or};
ghost use Rattle.lists.specs.Lists.{all_below};
ghost use Rattle.model.specs.Sizes.{body};
ghost use Rattle.model.specs.State.{queued, each_once};
ghost use Rattle.state.specs.View.{places_of};
ghost use Rattle.once.specs.Tally.{Few, Tallied};

use state::State;

// So many buckets as there are, each of them once: then there is no other. Each queue's buckets are counted where they stand.
pub fn buckets_once(s: State) -> bool
    requires { body s.sizes ≤ 256 }
    ensures { result ≡ each_once (body s.sizes) (queued (places_of s)) }
{
    let end = geometry::body(s.sizes);
    let reads = s.reads.used();
    let writes = s.writes.used();
    let gc = s.gc.used();
    let free = s.free.used();
    if reads + writes + gc + free != end {
        return false;
    }
    let mut counts = [0u16; 256];
    tally(&s.reads.items[..reads], |e| e.cache, &mut counts);
    tally(&s.writes.items[..writes], |e| e.cache, &mut counts);
    tally(&s.gc.items[..gc], |c| c, &mut counts);
    tally(&s.free.items[..free], |c| c, &mut counts);
    all_once(&counts, end)
}

// Each item's cache bucket is counted once more.
fn tally<T: Copy, F: Fn(T) -> u8>(items: &[T], bucket: F, counts: &mut [u16; 256])
    requires counts_bound { Few counts.old }
    requires items_bound { length items.now ≤ 256 }
    requires callable { F.IsAlwaysCallable bucket }
    ensures { (g : T → ℕ) → ((x : T) (c : ℕ) → F.post bucket x c → c ≡ g x) → Tallied counts.old (map g items.now) counts.new }
{
    for item in items {
        counts[bucket(*item) as usize] += 1;
    }
}

// All counts below c are 1. All are compared, with no way out: such a loop takes several at a time.
fn all_once(counts: &[u16; 256], c: usize) -> bool
    requires { c ≤ 256 }
    ensures { result ≡ all_below c (λ (x : ℕ). eqb (get_or counts.now x 0) 1) }
{
    let mut once = true;
    for count in &counts[..c] {
        once &= *count == 1;
    }
    once
}
