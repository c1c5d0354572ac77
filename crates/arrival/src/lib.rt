// The log of a write: behind the pages of the back-end bucket's Write bucket, or in a new one; and the write accepted.
#![tactic(auto)]

ghost use Rattle.std.specs.Prelude.{◌≡◌, ◌≤◌, length};
ghost use Rattle.model.specs.Sizes.{pages_for};
ghost use Rattle.model.specs.Steps.{◌then◌, make_room};
ghost use Rattle.model.specs.Operations.{append_log, start_log};
ghost use Rattle.model.proofs.Limits.{Limits};
ghost use Rattle.meter.specs.Lent.{run_of, LentTo, Stays};
ghost use Rattle.state.specs.View.{places_of};
ghost use Rattle.steps.specs.Turns.{reached, after};
ghost use Rattle.arrival.specs.Arrives.{kept_fits, Appends, Starts};

use log_pages::Log;
use meter::Run;
use state::State;

// Whether b has a Write bucket with enough blank pages for a log of n bytes, by the count in its record.
pub fn fits(s: State, b: u16, n: usize) -> bool
    requires limits { Limits s.sizes }
    requires n_bound { n ≤ 65536 }
    ensures { result ≡ kept_fits b (pages_for s.sizes n) (places_of s) }
{
    match s.writes.find(b) {
        Some(own) => geometry::pages_for(s.sizes, n) <= own.blank as usize,
        None => false,
    }
}

// The log goes behind the pages of b's Write bucket.
pub fn append_log(run: &mut Run<'_>, s: State, b: u16, offset: u16, bytes: &[u8]) -> State
    requires lent { LentTo s.sizes run.old }
    requires appends { Appends (places_of s) b (length bytes.now) run.old.spare.now }
    ensures after { reached run.new result ≡ after s.sizes (append_log s.sizes b offset bytes.now) (places_of s) (run_of run.old) }
    ensures stays { Stays s.sizes run.old run.new }
{
    let z = s.sizes;
    let own = s.writes.find(b).unwrap();
    let bucket = own.cache as usize;
    let blank = own.blank as usize;
    let epoch = image::used_epoch(z, bucket, run.spare());
    let pages = geometry::pages_for(z, bytes.len());
    let first = z.p - blank;
    let rest = (blank - pages) as u8;
    let target = Log {
        bucket,
        first,
        kind: model::WRITE_KIND,
        epoch,
        back: b,
        offset,
    };
    log_pages::program_log(run, z, target, bytes);
    s.accept(b, rest)
}

// The log goes into a bucket just allocated, which becomes b's Write bucket.
pub fn start_log(run: &mut Run<'_>, s: State, b: u16, offset: u16, bytes: &[u8]) -> State
    requires lent { LentTo s.sizes run.old }
    requires starts { Starts (places_of s) (length bytes.now) }
    ensures after { reached run.new result ≡ after s.sizes (make_room s.sizes then start_log s.sizes b offset bytes.now) (places_of s) (run_of run.old) }
    ensures stays { Stays s.sizes run.old run.new }
{
    let z = s.sizes;
    let pages = geometry::pages_for(z, bytes.len());
    let rest = (z.p - pages) as u8;
    let room = copying::room_of(s);
    copying::fresh_log(run, z, room, model::WRITE_KIND, b, offset, bytes);
    let roomed = s.roomed();
    let arrived = roomed.take_write(b);
    arrived.accept(b, rest)
}
