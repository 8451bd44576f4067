// The hot cycle, for the benchmark (docs/PERFORMANCE.md): reaped of the oldest slot, reaped Nothing, turn, commit_full,
// submitted. It is a host's loop, each call made at one place of the code. A Rust program links it by value
// (crates/bench_c) and on a record that is lent (crates/bench_lent), and takes the time. These functions promise that
// they are safe and end.
#![tactic(auto)]

use layout::{Setup, Underrun};
use opening::open;
use stream::{Reply, Stream};

// The calls that the cycle makes.
pub trait Calls {
    fn reaped(s: Stream, reply: Result<usize, u32>, block: &[u8]) -> Reply;

    fn turn(s: Stream, block: &mut [u8]) -> Reply;

    fn commit_full(s: Stream, block: &mut [u8]) -> Reply;

    fn submitted(s: Stream, reply: Result<(), u32>, block: &mut [u8]) -> Reply;
}

// The calls by value.
pub struct ByValue;

impl Calls for ByValue {
    fn reaped(s: Stream, reply: Result<usize, u32>, block: &[u8]) -> Reply {
        reaped::reaped(s, reply, block)
    }

    fn turn(s: Stream, block: &mut [u8]) -> Reply {
        turn::turn(s, block)
    }

    fn commit_full(s: Stream, block: &mut [u8]) -> Reply {
        commit::commit_full(s, block)
    }

    fn submitted(s: Stream, reply: Result<(), u32>, block: &mut [u8]) -> Reply {
        submitted::submitted(s, reply, block)
    }
}

pub fn setup(slots: usize, packets: usize, packet_bytes: usize, base: usize) -> Setup {
    Setup {
        slots,
        packets_per_urb: packets,
        packet_bytes,
        endpoint: 1,
        underrun: Underrun::Continue,
        silence_byte: 0,
        base,
        tagged: false,
        frame_bytes: 1,
    }
}

// The place after i, and the first after the last.
pub fn next(i: usize, places: usize) -> usize {
    let after = i.wrapping_add(1);
    if after < places { after } else { 0 }
}

// The address in its place; 0 where there is none.
#[inline(never)]
pub fn address_at(addresses: &[usize], i: usize) -> usize {
    addresses.get(i).copied().unwrap_or(0)
}

// A round's k-th reply: the URB at the address is done, and no more is.
pub fn reply(k: usize, address: usize) -> Result<usize, u32> {
    if k == 0 { Ok(address) } else { Err(11) }
}

// Takes a round's replies.
fn reap<C: Calls>(mut s: Stream, address: usize, count: usize, block: &[u8]) -> Stream {
    for k in 0..count {
        s = C::reaped(s, reply(k, address), block).stream;
    }
    s
}

// One slot out.
fn send<C: Calls>(s: Stream, block: &mut [u8]) -> Stream {
    let taken = C::turn(s, block);
    let filled = C::commit_full(taken.stream, block);
    C::submitted(filled.stream, Ok(()), block).stream
}

// A round: the replies, and one slot out. A first round, in which a slot is sent for the first time, takes no reply.
fn round<C: Calls>(s: Stream, address: usize, is_first: bool, block: &mut [u8]) -> Stream {
    let count = if is_first { 0 } else { 2 };
    send::<C>(reap::<C>(s, address, count, block), block)
}

// That many rounds, over the headers' addresses in turn.
pub fn rounds<C: Calls>(
    mut s: Stream,
    addresses: &[usize],
    count: usize,
    block: &mut [u8],
) -> Stream {
    let slots = addresses.len();
    let mut i = 0;
    for k in 0..count {
        s = round::<C>(s, address_at(addresses, i), k < slots, block);
        i = next(i, slots);
    }
    s
}

// Opens a ring, sends all slots, and makes the rounds that follow. How many slots came back.
pub fn usbfs_iso_cycles<C: Calls>(
    packets: usize,
    packet_bytes: usize,
    base: usize,
    addresses: &[usize],
    rounds_in_all: usize,
    block: &mut [u8],
) -> u64 {
    let opened = open(setup(addresses.len(), packets, packet_bytes, base), block);
    rounds::<C>(opened.stream, addresses, rounds_in_all, block)
        .stats
        .urbs_completed
}
