// A fixed sequence of numbers in no order to speak of.
ghost use Rattle.std.specs.Prelude.{◌<◌, ◌≤◌};

pub fn next(seed: u32) -> u32 {
    seed.wrapping_mul(1103515245).wrapping_add(12345)
}

// A number below n.
pub fn below(seed: u32, n: usize) -> usize
    requires { 1 ≤ n }
    ensures { result < n }
{
    (seed / 65536) as usize % n
}

pub fn fill(seed: u32, bytes: &mut [u8]) {
    let mut s = seed;
    for byte in bytes.iter_mut() {
        s = next(s);
        *byte = (s / 65536 % 256) as u8;
    }
}

// As many bytes as the longest bucket has.
pub fn bytes(seed: u32) -> [u8; 4096] {
    let mut area = [0u8; 4096];
    fill(seed, &mut area);
    area
}
