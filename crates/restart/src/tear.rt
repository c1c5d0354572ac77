// Erases that stop halfway: some pages of the bucket that a store would have erased are blank.
ghost use Rattle.std.specs.Prelude.{◌<◌, ◌≤◌, IfSome};

use crate::pages;
use crate::pages::{PAGES, Page};
use model::Sizes;

// How many sets of a bucket's pages are tried: all, as far as four pages go.
pub fn sets(z: Sizes) -> usize
    ensures { result ≤ 16 }
{
    1 << pages::in_bucket(z)
}

// Of the bucket that the page stands in, the pages are blank whose bits are set. Returns how many erases were torn.
pub fn tear(z: Sizes, page: Option<usize>, set: usize, flash: &mut [u8], spare: &mut [u8]) -> usize
    requires { IfSome page (λ at. at < PAGES) }
    ensures { result ≤ 1 }
{
    let Some(page) = page else {
        return 0;
    };
    let count = pages::in_bucket(z);
    let first = page - page % count;
    for k in 0..count {
        if (set >> k) % 2 == 1 {
            pages::put(z, first + k, Page::filled(255), flash, spare);
        }
    }
    1
}
