// The page look: a page's own bytes in the lent flash.
#![tactic(auto)]

ghost use Rattle.std.specs.Prelude.{◌≡◌};
ghost use Rattle.model.specs.Tests.{first_failed, number};
ghost use Rattle.model.specs.Calls.{look_tests, look_answer, look_bytes, answer_byte};

use model::{Refusal, Sizes};

fn check_look(z: Sizes, flash: &[u8], bucket: usize, page: usize) -> Result<(), Refusal>
    ensures { number result ≡ first_failed (look_tests z flash.now bucket page) }
{
    if !geometry::limits(z) {
        return Err(Refusal::Limits);
    }
    if flash.len() != z.c * (z.p * z.s) {
        return Err(Refusal::Lengths);
    }
    if (bucket < z.c) & (page < z.p) {
        Ok(())
    } else {
        Err(Refusal::Place)
    }
}

// The page's S bytes, or none; the answer beside them is 0 or the number of the refusal, as document 01 has it (`look_answer`, `look_bytes`).
pub fn look<'a>(z: Sizes, flash: &'a [u8], bucket: usize, page: usize, answer: &mut u8) -> &'a [u8]
    ensures answer_after { answer.new ≡ answer_byte (look_answer z flash.now bucket page) }
    ensures result_value { result.now ≡ look_bytes z flash.now bucket page }
{
    match check_look(z, flash, bucket, page) {
        Ok(()) => {
            *answer = model::DONE;
            let at = (bucket * z.p + page) * z.s;
            let end = at + z.s;
            &flash[at..end]
        }
        Err(refusal) => {
            *answer = refusal.number();
            &flash[..0]
        }
    }
}
