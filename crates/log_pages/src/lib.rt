// A log, programmed page by page under the allowance.
// Code that lays the bytes of its pages itself, at one go, writes their spare bytes behind: the law of `proofs/Spliced`.
#![tactic(auto)]

ghost use Rattle.std.specs.Prelude.{◌≡◌, ◌+◌, ◌*◌, ◌≤◌, ◌<◌, length};
ghost use Rattle.model.specs.Sizes.{spare_size, page_index, pages_for};
ghost use Rattle.lists.specs.Lists.{splice, ff};
ghost use Rattle.spare.specs.Fields.{tag};
ghost use Rattle.meter.specs.Run.{step, run_all};
ghost use Rattle.meter.specs.Lent.{run_of, LentTo, Stays};
ghost use Rattle.log_pages.specs.Logs.{page_tag, tags, store_of, page_store, all_stores, Fits};

use device::Store;
use meter::Run;
use model::Sizes;
use spare::Fields;

// Where a log goes, from page `first` of a cache bucket on, and what its spare bytes say.
#[derive(Clone, Copy)]
pub struct Log {
    pub bucket: usize,
    pub first: usize,
    pub kind: u8,
    pub epoch: u32,
    pub back: u16,
    pub offset: u16,
}

// The spare bytes of page o of a log of n bytes.
fn page_tag(z: Sizes, log: Log, n: usize, o: usize) -> [u8; 16]
    requires { Fits z log n × (o < pages_for z n) }
    ensures { result ≡ page_tag z log n o }
{
    let pages = geometry::pages_for(z, n);
    spare::encode(Fields {
        kind: log.kind,
        ordinal: o as u8,
        pages: pages as u8,
        epoch: log.epoch,
        back: log.back,
        offset: log.offset,
        last: (n - 1) as u16,
    })
}

// Programs page o of a log of n bytes; the page is lent.
fn program_lent(run: &mut Run<'_>, z: Sizes, log: Log, n: usize, o: usize, page: &[u8])
    requires lent { LentTo z run.old }
    requires fits { Fits z log n × (o < pages_for z n) × (length page.now ≡ z.s) }
    ensures after { run_of run.new ≡ step z (store_of z log n o page.now) (run_of run.old) }
    ensures stays { Stays z run.old run.new }
{
    let tag = page_tag(z, log, n, o);
    let at = log.first + o;
    run.store(
        Store::Program {
            bucket: log.bucket,
            page: at,
        },
        z,
        page,
        &tag,
    );
}

// Page o of the log. A whole page needs no copy of its bytes; what there is of the last is laid over FF: a page has at most 1,024 bytes.
fn program_page(run: &mut Run<'_>, z: Sizes, log: Log, bytes: &[u8], o: usize)
    requires lent { LentTo z run.old }
    requires fits { Fits z log (length bytes.now) × (o < pages_for z (length bytes.now)) }
    ensures after { run_of run.new ≡ step z (page_store z log bytes.now o) (run_of run.old) }
    ensures stays { Stays z run.old run.new }
{
    let n = bytes.len();
    let rest = &bytes[o * z.s..];
    if z.s <= rest.len() {
        program_lent(run, z, log, n, o, &rest[..z.s]);
        return;
    }
    let mut page = [255u8; 1024];
    page[..rest.len()].copy_from_slice(rest);
    program_lent(run, z, log, n, o, &page[..z.s]);
}

// All pages of the log, in rising order.
pub fn program_log(run: &mut Run<'_>, z: Sizes, log: Log, bytes: &[u8])
    requires lent { LentTo z run.old }
    requires fits { Fits z log (length bytes.now) }
    ensures after { run_of run.new ≡ run_all z (all_stores z log bytes.now) (run_of run.old) }
    ensures stays { Stays z run.old run.new }
{
    let pages = geometry::pages_for(z, bytes.len());
    for o in 0..pages {
        program_page(run, z, log, bytes, o);
    }
}

// Writes the spare bytes of page o of a log of n bytes.
fn write_tag(z: Sizes, log: Log, n: usize, o: usize, spare: &mut [u8])
    requires { Fits z log n × (o < pages_for z n) × (length spare.old ≡ spare_size z) }
    ensures { spare.new ≡ splice spare.old (page_index z log.bucket (log.first + o) * 16) (page_tag z log n o) }
{
    let tag = page_tag(z, log, n, o);
    let at = (log.bucket * z.p + (log.first + o)) * 16;
    area::write_at(spare, at, &tag);
}

// Writes those of its first pages, so many.
pub fn write_tags(z: Sizes, log: Log, n: usize, count: usize, spare: &mut [u8])
    requires { Fits z log n × (count ≤ pages_for z n) × (length spare.old ≡ spare_size z) }
    ensures { spare.new ≡ splice spare.old (page_index z log.bucket log.first * 16) (tags z log n count) }
{
    for o in 0..count {
        write_tag(z, log, n, o, spare);
    }
}
