// Bytes written as hexadecimal digits, two to a byte, and read from them.
#![tactic(auto)]

ghost use Rattle.std.specs.Prelude.{◌≡◌, true, ◌+◌, ◌*◌, ◌≤◌, ◌<◌, length, get_or, drop};
ghost use Rattle.lists.specs.Lists.{all, part};
ghost use Rattle.model.specs.Spare.{two};
ghost use Rattle.model.specs.Driving.{digit_value, is_digit, bytes_of};

// The value of a digit, in either letter case; 16 for any other character, as in the book's `digit_value`, by which `bytes_of` has a byte for such
// characters too: no Option.
fn digit_value(c: u8) -> u8
    ensures { result ≡ digit_value c }
{
    match c {
        b'0'..=b'9' => c - b'0',
        b'A'..=b'F' => c - b'A' + 10,
        b'a'..=b'f' => c - b'a' + 10,
        _ => 16,
    }
}

// All are tested, with no way out at the first that is none: such a loop takes many at a time.
pub fn all_digits(line: &[u8]) -> bool
    ensures { result ≡ all is_digit line.now }
{
    let mut digits = true;
    for c in line {
        digits = digits & c.is_ascii_hexdigit();
    }
    digits
}

// Above 255 where a character is no digit.
fn byte_of(high: u8, low: u8) -> u16
    ensures { result ≡ digit_value high * 16 + digit_value low }
{
    let h = digit_value(high);
    let l = digit_value(low);
    (h as u16) * 16 + (l as u16)
}

// Byte `at` of the bytes that the line's digits say; 0 behind the last.
pub fn byte_at(line: &[u8], at: usize) -> u16
    ensures { result ≡ get_or (bytes_of line.now) at 0 }
{
    if at < line.len() / 2 {
        byte_of(line[at * 2], line[at * 2 + 1])
    } else {
        0
    }
}

// The two-byte number from byte `at` on.
pub fn number_at(line: &[u8], at: usize) -> usize
    ensures { result ≡ two (bytes_of line.now) at }
{
    if at < line.len() / 2 {
        let high = byte_at(line, at);
        let low = byte_at(line, at + 1);
        (high as usize) * 256 + (low as usize)
    } else {
        0
    }
}

// The value of a digit. A letter of either case stands 9 above its low half: no choice is made, which mixed digits would often turn.
fn value_of(c: u8) -> u8
    requires { is_digit c ≡ true }
    ensures { (result ≡ digit_value c) × (result < 16) }
{
    c % 16 + c / 64 * 9
}

// Byte `at` of those that a line of digits says.
fn byte_said(line: &[u8], at: usize) -> u8
    requires line_value { all is_digit line.now ≡ true }
    requires at_in_bounds { at < length (bytes_of line.now) }
    ensures { result ≡ get_or (bytes_of line.now) at 0 }
{
    let high = value_of(line[at * 2]);
    let low = value_of(line[at * 2 + 1]);
    high * 16 + low
}

// The bytes from byte `from` on, as many as `out` has room for.
pub fn decode(line: &[u8], from: usize, out: &mut [u8])
    requires line_value { all is_digit line.now ≡ true }
    requires out_in_bounds { length out.old ≤ length (drop from (bytes_of line.now)) }
    ensures { out.new ≡ part (bytes_of line.now) from (length out.old) }
{
    for (i, byte) in out.iter_mut().enumerate() {
        *byte = byte_said(line, from + i);
    }
}
