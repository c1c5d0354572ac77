// The benchmark's loops for callers in C: each export calls the function of that name in bench. A slice is a pointer and a length.
#![tactic(auto)]

// A format, some operations before, then n of them.
#[unsafe(no_mangle)]
pub extern "C" fn bench_writes(
    n: usize,
    s: usize,
    b: usize,
    before: usize,
    spread: u16,
    data: &[u8],
    flash: &mut [u8],
    spare: &mut [u8],
    disk: &mut [u8],
) -> usize {
    bench::bench_writes(n, s, b, before, spread, data, flash, spare, disk)
}

#[unsafe(no_mangle)]
pub extern "C" fn bench_reads(
    n: usize,
    s: usize,
    b: usize,
    before: usize,
    spread: u16,
    buffer: &mut [u8],
    flash: &mut [u8],
    spare: &mut [u8],
    disk: &mut [u8],
) -> usize {
    bench::bench_reads(n, s, b, before, spread, buffer, flash, spare, disk)
}

#[unsafe(no_mangle)]
pub extern "C" fn bench_drains(
    n: usize,
    s: usize,
    b: usize,
    before: usize,
    spread: u16,
    data: &[u8],
    flash: &mut [u8],
    spare: &mut [u8],
    disk: &mut [u8],
) -> usize {
    bench::bench_drains(n, s, b, before, spread, data, flash, spare, disk)
}

// Recoveries of the image that the writes before leave.
#[unsafe(no_mangle)]
pub extern "C" fn bench_recoveries(
    n: usize,
    s: usize,
    b: usize,
    before: usize,
    spread: u16,
    data: &[u8],
    flash: &mut [u8],
    spare: &mut [u8],
    disk: &mut [u8],
) -> usize {
    bench::bench_recoveries(n, s, b, before, spread, data, flash, spare, disk)
}

// The window laid out n times over some logs of the data's length, by the old merge.
#[unsafe(no_mangle)]
pub extern "C" fn bench_old_merges(
    n: usize,
    s: usize,
    count: usize,
    apart: usize,
    from: usize,
    data: &[u8],
    window: &mut [u8],
    flash: &mut [u8],
    spare: &mut [u8],
    disk: &mut [u8],
) -> usize {
    bench::bench_old_merges(n, s, count, apart, from, data, window, flash, spare, disk)
}

// By the new one.
#[unsafe(no_mangle)]
pub extern "C" fn bench_new_merges(
    n: usize,
    s: usize,
    count: usize,
    apart: usize,
    from: usize,
    data: &[u8],
    window: &mut [u8],
    flash: &mut [u8],
    spare: &mut [u8],
    disk: &mut [u8],
) -> usize {
    bench::bench_new_merges(n, s, count, apart, from, data, window, flash, spare, disk)
}
