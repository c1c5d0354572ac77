// The lines of a text that comes in pieces: where they end, and their bytes gathered.
#![tactic(auto)]

ghost use Rattle.std.specs.Prelude.{◌≡◌, ◌++◌, ◌<◌, ◌≤◌, length, take, get_or};
ghost use Rattle.lines.specs.Lines.{OneLine};

// Where the line ends: at the next line feed, or with the piece.
pub fn line_end(piece: &[u8], from: usize) -> usize
    requires { from ≤ length piece.now }
    ensures lower_bound { (from ≤ result) × (result ≤ length piece.now) × (result < length piece.now → get_or piece.now result 0 ≡ 10) }
    ensures one_line { OneLine piece.now from result }
{
    for end in from..piece.len() {
        if piece[end] == b'\n' {
            return end;
        }
    }
    piece.len()
}

// More bytes of a line behind those that are held of it, as many as there is room for: how many are then held.
pub fn gather(line: &mut [u8], held: usize, bytes: &[u8]) -> usize
    requires { held ≤ length line.old }
    ensures { (result ≤ length line.old) × (take result line.new ≡ take (length line.old) (take held line.old ++ bytes.now)) }
{
    let taken = bytes.len().min(line.len() - held);
    area::write_at(line, held, &bytes[..taken]);
    held + taken
}
