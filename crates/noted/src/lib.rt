// An erase, and the ledger entry before it: made, or counted. Which page takes the entry and what it says are looked up before the first store.
#![tactic(auto)]

ghost use Rattle.std.specs.Prelude.{◌≡◌, ◌<◌, [], ◌∷◌};
ghost use Rattle.lists.specs.Lists.{ff};
ghost use Rattle.model.specs.Sizes.{body};
ghost use Rattle.model.specs.Spare.{entry_tag};
ghost use Rattle.model.specs.Stores.{program};
ghost use Rattle.model.specs.Ledger.{in_use, other_of};
ghost use Rattle.model.specs.Steps.{entry_stores, noted_erase};
ghost use Rattle.model.proofs.Limits.{Limits};
ghost use Rattle.model.proofs.ProgramsLedger.{entry_room};
ghost use Rattle.meter.specs.Run.{run_all};
ghost use Rattle.meter.specs.Lent.{run_of, LentTo, Stays};
ghost use Rattle.image.specs.Chip.{Chip, spare_only};
ghost use Rattle.noted.specs.Costs.{Costs};

use log_pages::Log;
use meter::Run;
use model::Sizes;

// The ledger bucket that entries go to: the one that is not blank, else the lower.
pub fn in_use(z: Sizes, spare: &[u8]) -> usize
    requires { Chip z spare.now }
    ensures { result ≡ in_use z (spare_only spare.now) }
{
    let lower = geometry::body(z);
    if image::page_blank(z, lower + 1, 0, spare) {
        lower
    } else {
        lower + 1
    }
}

// The blank pages of the ledger bucket in use: the next entries take them.
pub fn entry_room(z: Sizes, spare: &[u8]) -> usize
    requires { Chip z spare.now }
    ensures { result ≡ entry_room z (spare_only spare.now) }
{
    let used = in_use(z, spare);
    image::blanks(z, used, spare)
}

// The ledger bucket that a full one hands over to.
fn other_of(z: Sizes, used: usize) -> usize
    requires { Limits z }
    ensures { result ≡ other_of z used }
{
    let lower = geometry::body(z);
    if used == lower { lower + 1 } else { lower }
}

// An entry for the bucket, on page k of the ledger bucket l: a log of one byte FF.
fn program_entry(run: &mut Run<'_>, z: Sizes, l: usize, k: usize, epoch: u32, bucket: usize)
    requires lent { LentTo z run.old }
    requires limits { Limits z × (l < z.c) × (k < z.p) × (bucket < z.c) }
    ensures after { run_of run.new ≡ run_all z (program l k (ff z.s) (entry_tag epoch bucket) ∷ []) (run_of run.old) }
    ensures stays { Stays z run.old run.new }
{
    let byte = [255u8; 1];
    let entry = Log {
        bucket: l,
        first: k,
        kind: model::LEDGER_KIND,
        epoch,
        back: bucket as u16,
        offset: 0,
    };
    log_pages::program_log(run, z, entry, &byte);
}

// The entry; a full ledger bucket is erased once the other has it.
fn note(run: &mut Run<'_>, z: Sizes, bucket: usize)
    requires lent { LentTo z run.old }
    requires limits { Limits z × (bucket < z.c) }
    ensures after { run_of run.new ≡ run_all z (entry_stores z (run_of run.old).device bucket) (run_of run.old) }
    ensures stays { Stays z run.old run.new }
{
    let spare = run.spare();
    let used = in_use(z, spare);
    let room = image::blanks(z, used, spare);
    let epoch = image::epoch_of(z, bucket, spare);
    if room != 0 {
        let first = z.p - room;
        program_entry(run, z, used, first, epoch, bucket);
        return;
    }
    let other = other_of(z, used);
    program_entry(run, z, other, 0, epoch, bucket);
    run.erase(z, used);
}

pub fn erase_noted(run: &mut Run<'_>, z: Sizes, bucket: usize)
    requires lent { LentTo z run.old }
    requires limits { Limits z × (bucket < body z) }
    ensures after { run_of run.new ≡ run_all z (noted_erase z (run_of run.old).device bucket) (run_of run.old) }
    ensures stays { Stays z run.old run.new }
{
    note(run, z, bucket);
    run.erase(z, bucket);
}

// What an erase with its entry comes to: its stores, and the blank pages that the ledger bucket in use has then.
#[derive(Clone, Copy)]
pub struct Cost {
    pub stores: usize,
    pub room: usize,
}

// Both counted, where the ledger bucket in use has so many blank pages.
pub fn cost_of(z: Sizes, room: usize) -> Cost
    requires { Limits z }
    ensures { Costs z room result }
{
    if room == 0 {
        Cost {
            stores: 3,
            room: z.p - 1,
        }
    } else {
        Cost {
            stores: 2,
            room: room - 1,
        }
    }
}
