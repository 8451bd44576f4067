// The call stop by value, for the benchmark (docs/PERFORMANCE.md). It is made on one record again and again, and finds
// the same slots each time. These functions promise that they are safe and end.
#![tactic(auto)]

use bench::{ByValue, rounds, setup};
use control::stop;
use opening::open;
use reaped::reaped;
use stream::{Answer, Reply, Stream};

// The slots at these addresses come back.
fn take_back(mut s: Stream, addresses: &[usize], block: &[u8]) -> Stream {
    for &address in addresses {
        s = reaped(s, Ok(address), block).stream;
    }
    s
}

// How many slots a stop listed.
fn listed(reply: Reply) -> usize {
    if let Answer::Stopped(count) = reply.answer {
        count
    } else {
        0
    }
}

// That many stops. How many slots the last one listed.
fn stops(s: Stream, count: usize, list: &mut [usize]) -> usize {
    let mut found = 0;
    for _ in 0..count {
        found = listed(stop(s, list));
    }
    found
}

// Opens a ring, sends all slots, takes some back, and makes that many stops. How many slots the last one listed.
#[unsafe(no_mangle)]
pub extern "C" fn usbfs_iso_stops(
    packets: usize,
    packet_bytes: usize,
    base: usize,
    addresses: &[usize],
    back: &[usize],
    count: usize,
    list: &mut [usize],
    block: &mut [u8],
) -> usize {
    let slots = addresses.len();
    let opened = open(setup(slots, packets, packet_bytes, base), block);
    let sent = rounds::<ByValue>(opened.stream, addresses, slots, block);
    stops(take_back(sent, back, block), count, list)
}
