// A walk along a line's frame of bytes, from field to field.
#![tactic(auto)]

ghost use Rattle.std.specs.Prelude.{◌≡◌, ◌+◌, ◌<◌, ◌^◌, length, drop};
ghost use Rattle.model.specs.Driving.{bytes_of};
ghost use Rattle.line.specs.Field.{field_at, at_start, behind};

// The line, the byte of its frame where the walk stands, and the field that ends there.
#[derive(Clone, Copy)]
pub struct Line<'a> {
    pub text: &'a [u8],
    pub at: usize,
    pub field: usize,
}

impl<'a> Line<'a> {
    pub fn start(text: &'a [u8]) -> Line<'a>
        ensures { result ≡ at_start text.entry }
    {
        Line {
            text,
            at: 0,
            field: 0,
        }
    }

    // The walk goes on behind the next field, of so many bytes. Laid into its callers: a line has four or more.
    #[inline(always)]
    pub fn next(self, width: usize) -> Line<'a>
        requires { self.at + width < 2 ^ 64 }
        ensures { result ≡ behind self.entry width }
    {
        let field = field_at(self.text, self.at, width);
        Line {
            text: self.text,
            at: self.at + width,
            field,
        }
    }

    // How many bytes are left.
    pub fn left(self) -> usize
        ensures { result ≡ length (drop self.entry.at (bytes_of self.entry.text.now)) }
    {
        (self.text.len() / 2).saturating_sub(self.at)
    }
}

// The field at a byte of the frame, one byte or two wide.
fn field_at(text: &[u8], at: usize, width: usize) -> usize
    ensures { result ≡ field_at (bytes_of text.now) at width }
{
    if width == 1 {
        usize::from(digits::byte_at(text, at))
    } else {
        digits::number_at(text, at)
    }
}
