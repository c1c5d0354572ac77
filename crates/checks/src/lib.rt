// The tests of a call, in the table's order: the first that fails turns it down.
#![tactic(auto)]

ghost use Rattle.std.specs.Prelude.{◌≡◌, [], ◌∷◌, ◌++◌, leb, OnOk};
ghost use Rattle.model.specs.Image.{body_fits};
ghost use Rattle.model.specs.Ledger.{recoverable};
ghost use Rattle.model.specs.Operations.{last_epoch};
ghost use Rattle.model.specs.Tests.{first_failed, number};
ghost use Rattle.model.specs.Calls.{lent_tests, running_tests, range_fits, place_tests};
ghost use Rattle.model.proofs.Limits.{Limits};
ghost use Rattle.geometry.specs.Geometry.{device};
ghost use Rattle.state.specs.View.{places_of, view_of};

use model::{Refusal, Sizes};
use state::State;

// Numbers 1 and 2, and of number 4 what it asks of the buckets outside the ledger: all that a merge relies on.
pub fn check_image(z: Sizes, flash: &[u8], spare: &[u8], disk: &[u8]) -> Result<(), Refusal>
    ensures { number result ≡ first_failed (lent_tests z (device flash.now spare.now disk.now) ++ ((4, body_fits z (device flash.now spare.now disk.now)) ∷ [])) }
{
    geometry::check_lent(z, flash, spare, disk)?;
    if !rules::body_fits(z, spare) {
        return Err(Refusal::Image);
    }
    Ok(())
}

// Numbers 1, 2 and 4, of recover. The one test in which it differs from the check above is no shorter as a closure.
pub fn check_recover(z: Sizes, flash: &[u8], spare: &[u8], disk: &[u8]) -> Result<(), Refusal>
    ensures { number result ≡ first_failed (lent_tests z (device flash.now spare.now disk.now) ++ ((4, recoverable z (device flash.now spare.now disk.now)) ∷ [])) }
{
    geometry::check_lent(z, flash, spare, disk)?;
    if !holes::recoverable(z, spare) {
        return Err(Refusal::Image);
    }
    Ok(())
}

// Numbers 1 to 5, of erase step and drain.
pub fn check_running(s: State, flash: &[u8], spare: &[u8], disk: &[u8]) -> Result<(), Refusal>
    ensures value { number result ≡ first_failed (running_tests (view_of s) (device flash.now spare.now disk.now)) }
    ensures s_value { OnOk result (view_of s ≡ places_of s) }
{
    // to hand on `s.sizes` itself would keep a copy of the whole state
    let z = s.sizes;
    geometry::check_lent(z, flash, spare, disk)?;
    if !s.running {
        return Err(Refusal::NotRunning);
    }
    if !rules::well_formed(z, spare) {
        return Err(Refusal::Image);
    }
    if !fits::state_fits(s, spare) {
        return Err(Refusal::State);
    }
    Ok(())
}

// Number 7. The sum of offset and length is never made: it may not fit.
fn range_fits(z: Sizes, offset: usize, length: usize) -> bool
    requires { Limits z }
    ensures { result ≡ range_fits z offset length }
{
    let bucket = z.p * z.s;
    if bucket < offset {
        return false;
    }
    (1 <= length) & (length <= bucket - offset)
}

// Numbers 1 to 7, of a read of so many bytes.
pub fn check_read(
    s: State,
    b: u16,
    offset: usize,
    length: usize,
    flash: &[u8],
    spare: &[u8],
    disk: &[u8],
) -> Result<(), Refusal>
    ensures value { number result ≡ first_failed (running_tests (view_of s) (device flash.now spare.now disk.now) ++ place_tests s.sizes b offset length) }
    ensures s_value { OnOk result (view_of s ≡ places_of s) }
{
    check_running(s, flash, spare, disk)?;
    if s.sizes.b <= b as usize {
        return Err(Refusal::Place);
    }
    if !range_fits(s.sizes, offset, length) {
        return Err(Refusal::Range);
    }
    Ok(())
}

// Numbers 1 to 8, of a write.
pub fn check_write(
    s: State,
    b: u16,
    offset: usize,
    length: usize,
    flash: &[u8],
    spare: &[u8],
    disk: &[u8],
) -> Result<(), Refusal>
    ensures value { number result ≡ first_failed (running_tests (view_of s) (device flash.now spare.now disk.now) ++ (place_tests s.sizes b offset length ++ ((8, leb s.next last_epoch) ∷ []))) }
    ensures s_value { OnOk result (view_of s ≡ places_of s) }
{
    check_read(s, b, offset, length, flash, spare, disk)?;
    if model::LAST_EPOCH < s.next {
        return Err(Refusal::Epochs);
    }
    Ok(())
}
