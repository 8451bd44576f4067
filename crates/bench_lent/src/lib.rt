// The hot cycle on a record that is lent to each call, for the benchmark (docs/PERFORMANCE.md). This function promises
// that it is safe and ends.
#![tactic(auto)]

use bench::Calls;
use lent::local;
use stream::{Reply, Stream};

// The calls on a lent record.
struct Lent;

impl Calls for Lent {
    fn reaped(s: Stream, reply: Result<usize, u32>, block: &[u8]) -> Reply {
        local::reaped(s, reply, block)
    }

    fn turn(s: Stream, block: &mut [u8]) -> Reply {
        local::turn(s, block)
    }

    fn commit_full(s: Stream, block: &mut [u8]) -> Reply {
        local::commit_full(s, block)
    }

    fn submitted(s: Stream, reply: Result<(), u32>, block: &mut [u8]) -> Reply {
        local::submitted(s, reply, block)
    }
}

// The cycles of crates/bench, on a record that is lent.
#[unsafe(no_mangle)]
pub extern "C" fn usbfs_iso_lent_cycles(
    packets: usize,
    packet_bytes: usize,
    base: usize,
    addresses: &[usize],
    rounds_in_all: usize,
    block: &mut [u8],
) -> u64 {
    bench::usbfs_iso_cycles::<Lent>(packets, packet_bytes, base, addresses, rounds_in_all, block)
}
