// What C and Rust call of crates/bench. This function promises that it is safe and ends.
#![tactic(auto)]

// Opens a ring, sends all slots, and makes the rounds that follow. How many slots came back.
#[unsafe(no_mangle)]
#[inline(never)]
pub extern "C" fn usbfs_iso_cycles(
    packets: usize,
    packet_bytes: usize,
    base: usize,
    addresses: &[usize],
    rounds_in_all: usize,
    block: &mut [u8],
) -> u64 {
    bench::usbfs_iso_cycles::<bench::ByValue>(
        packets,
        packet_bytes,
        base,
        addresses,
        rounds_in_all,
        block,
    )
}
