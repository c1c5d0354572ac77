// What the driving program prints of a line: hexadecimal digits and a line feed.
#![tactic(auto)]

ghost use Rattle.std.specs.Prelude.{◌≡◌, [], ◌∷◌, ◌++◌, ◌+◌, ◌*◌, ◌<◌, ◌≤◌, length, drop};
ghost use Rattle.lists.specs.Lists.{splice};
ghost use Rattle.model.specs.Driving.{digit, digits_of, shown};

fn capital(v: u8) -> u8
    requires { v < 16 }
    ensures { result ≡ digit v }
{
    if v < 10 { b'0' + v } else { b'A' + (v - 10) }
}

fn put_byte(out: &mut [u8], at: usize, byte: u8)
    requires { at + 2 ≤ length out.old }
    ensures { out.new ≡ splice out.old at (digits_of (byte ∷ [])) }
{
    out[at] = capital(byte / 16);
    out[at + 1] = capital(byte % 16);
}

pub fn put_bytes(out: &mut [u8], at: usize, bytes: &[u8])
    requires { at + length bytes.now * 2 ≤ length out.old }
    ensures { out.new ≡ splice out.old at (digits_of bytes.now) }
{
    for (i, byte) in bytes.iter().enumerate() {
        put_byte(out, at + i * 2, *byte);
    }
}

// Prints at the start of `out`, leaves the rest of it, and says how many characters were printed.
pub fn show(answer: u8, stores: usize, bytes: &[u8], out: &mut [u8]) -> usize
    requires stores_bound { stores < 65536 }
    requires bytes_in_bounds { 7 + length bytes.now * 2 ≤ length out.old }
    ensures { (result ≡ length (shown answer stores bytes.now)) × (out.new ≡ shown answer stores bytes.now ++ drop result out.old) }
{
    let [high, low] = (stores as u16).to_be_bytes();
    let head = [answer, high, low];
    put_bytes(out, 0, &head);
    put_bytes(out, 6, bytes);
    let end = 6 + bytes.len() * 2;
    out[end] = b'\n';
    end + 1
}
