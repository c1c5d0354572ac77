// Recovery's erases: each named bucket once, rising, then the ledger's two, without entries.
#![tactic(auto)]

ghost use Rattle.std.specs.Prelude.{◌≡◌, map};
ghost use Rattle.lists.specs.Lists.{below, keep};
ghost use Rattle.model.specs.Sizes.{body};
ghost use Rattle.model.specs.Stores.{erase};
ghost use Rattle.model.specs.Ledger.{named};
ghost use Rattle.model.specs.Recover.{swept};
ghost use Rattle.model.proofs.Limits.{Limits};
ghost use Rattle.image.specs.Chip.{spare_only};
ghost use Rattle.ledger.specs.Marks.{Marks};
ghost use Rattle.meter.specs.Run.{run_all};
ghost use Rattle.meter.specs.Lent.{run_of, LentTo, Stays};

use meter::Run;
use model::Sizes;

// Erases the marked buckets in rising order.
fn erase_marked(run: &mut Run<'_>, z: Sizes, marks: &[bool; 256])
    requires limits { Limits z }
    requires lent { LentTo z run.old }
    requires marks { Marks z (spare_only run.old.spare.now) marks.now }
    ensures after { run_of run.new ≡ run_all z (map erase (keep (named z (spare_only run.old.spare.now)) (below (body z)))) (run_of run.old) }
    ensures stays { Stays z run.old run.new }
{
    let end = geometry::body(z);
    for bucket in 0..end {
        if marks[bucket] {
            run.erase(z, bucket);
        }
    }
}

// The marks are those of the buckets that the ledger names before the first erase.
pub fn sweep(run: &mut Run<'_>, z: Sizes, marks: &[bool; 256])
    requires limits { Limits z }
    requires lent { LentTo z run.old }
    requires marks { Marks z (spare_only run.old.spare.now) marks.now }
    ensures after { run_of run.new ≡ run_all z (map erase (swept z (run_of run.old).device)) (run_of run.old) }
    ensures stays { Stays z run.old run.new }
{
    erase_marked(run, z, marks);
    let lower = geometry::body(z);
    run.erase(z, lower);
    run.erase(z, lower + 1);
}
