// The plain disk: what the Done writes laid down, 64 bytes to each back-end bucket.

// The plain disk after a Done write at an offset of back-end bucket b.
pub fn laid(mut plain: [u8; 256], b: u8, offset: u8, bytes: &[u8]) -> [u8; 256] {
    let start = usize::from(b) * 64 + usize::from(offset);
    for (i, byte) in bytes.iter().enumerate() {
        plain[(start + i) % 256] = *byte;
    }
    plain
}

// Whether the bytes are those from the start of back-end bucket b on.
pub fn same(plain: [u8; 256], b: u8, bytes: &[u8]) -> bool {
    let start = usize::from(b) * 64;
    let held = plain.iter().cycle().skip(start % 256);
    bytes.iter().eq(held.take(bytes.len()))
}
