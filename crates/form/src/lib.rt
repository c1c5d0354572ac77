// The form of a state: its bytes, in which a program may keep it, and back.
#![tactic(auto)]

mod reading;
mod writing;

ghost use Rattle.std.specs.Prelude.{◌≡◌, ◌&&◌, ◌≤◌, Some, None, IfSome, length, leb, if◌then◌else◌};
ghost use Rattle.lists.specs.Lists.{splice};
ghost use Rattle.model.specs.State.{unformatted};
ghost use Rattle.state.specs.View.{view_of, state_of};
ghost use Rattle.form.specs.Form.{form_of, has_form, is_form, state_in};

use state::State;

// The bytes of the longest form: `NeverLonger` in specs/Claims.
pub const LONGEST: usize = 1113;

// The head's bytes, and where the running mark, the write count and the next epoch stand in it, behind the sizes.
const HEAD: usize = 19;

const RUNNING: usize = 9;

const COUNT: usize = 10;

const EPOCH: usize = 11;

// The bytes of an entry of the read queue, and of the write queue.
const READ_ROW: usize = 3;

const WRITE_ROW: usize = 6;

// The state's form at the start of `out`, and its length; None where it has none, or none that has room there.
pub fn state_bytes(s: State, out: &mut [u8]) -> Option<usize>
    ensures value { result ≡ (if has_form (view_of s) && leb (length (form_of (view_of s))) (length out.old) then Some (length (form_of (view_of s))) else None) }
    ensures out_after { out.new ≡ (if has_form (view_of s) && leb (length (form_of (view_of s))) (length out.old) then splice out.old 0 (form_of (view_of s)) else out.old) }
    ensures upper_bound { IfSome result (λ size. size ≤ length out.new) }
{
    if !writing::has_form(s) {
        return None;
    }
    let size = writing::form_size(s);
    if out.len() < size {
        return None;
    }
    writing::put_state(s, out);
    Some(size)
}

// Whether the bytes are the form of a state.
pub fn is_form(bytes: &[u8]) -> bool
    ensures { result ≡ is_form bytes.now }
{
    if bytes.len() < HEAD {
        return false;
    }
    let running = reading::number_at(bytes, RUNNING, 1);
    let writes = reading::behind(bytes, HEAD, 1, READ_ROW, 64);
    let gc = reading::behind(bytes, writes, 1, WRITE_ROW, 64);
    let free = reading::behind(bytes, gc, 2, 1, 256);
    let end = reading::behind(bytes, free, 2, 1, 256);
    if end != bytes.len() {
        return false;
    }
    (running <= 1) & reading::marks_fit(bytes, writes)
}

// The state whose form the bytes are; one that was never formatted where they are none.
pub fn state_of(bytes: &[u8]) -> State
    ensures { result ≡ (if is_form bytes.now then state_of (state_in bytes.now) else state_of unformatted) }
{
    if !is_form(bytes) {
        return State::unformatted();
    }
    reading::state_in(bytes)
}
