// What submitted and reaped read from the block, each header through a view of it. A call has tested the setup, the
// block's length and, where it names a slot, its number before it asks.
#![tactic(auto)]

ghost use Rattle.std.specs.Prelude.{◌≡◌, true, ◌*◌, ◌/◌, ◌≤◌, ◌<◌, length};
ghost use Rattle.sys.specs.Descriptor.{desc_size};
ghost use Rattle.layout.specs.Opening.{admissible, total_of};
ghost use Rattle.ledger.specs.Notice.{buffer_bytes, packets_at, completion_of, slot_at, slot_of_urb};
ghost use Rattle.notice.specs.Sums.{sums_of};

use layout::{Setup, masked};
use stream::Completion;
use sys::IsoPacketDesc;
use sys::field::non_negative;

// The two sums over a slot's packets.
#[derive(Clone, Copy)]
struct Sums {
    pub requested: u64,
    pub short: u64,
}

// Internal: slot i's buffer length, or 0 where it is negative.
#[tactic(auto, unfolding(ledger::specs::Notice::buffer_bytes, urb_view::specs::Viewed::fields_of))]
pub fn buffer_bytes(setup: Setup, block: &[u8], i: usize) -> u64
    requires { (admissible setup ≡ true) × (i < setup.slots) × (length block.now ≡ total_of setup) }
    ensures { result ≡ buffer_bytes setup i block.now }
{
    let at = setup.places(i);
    let header = urb_view::fields(block, at.header);
    non_negative(header.buffer_length)
}

// Internal: the sums over the descriptors that the part holds.
fn packet_sums(descs: &[u8]) -> Sums
    requires { length descs.now ≤ desc_size * 128 }
    ensures { result ≡ sums_of (packets_at (length descs.now / desc_size) 0 descs.now) }
{
    let mut requested: u64 = 0;
    let mut short: u64 = 0;
    for k in 0..descs.len() / IsoPacketDesc::SIZE {
        let packet = IsoPacketDesc::load(descs, IsoPacketDesc::SIZE * k);
        requested += u64::from(packet.length);
        short += u64::from(packet.length.saturating_sub(packet.actual_length));
    }
    Sums { requested, short }
}

// Internal: slot i's completion. The sums are worked out on the part that holds its descriptors.
pub fn complete(setup: Setup, block: &[u8], i: usize, was_discarded: bool) -> Completion
    requires { (admissible setup ≡ true) × (i < setup.slots) × (length block.now ≡ total_of setup) }
    ensures { result ≡ completion_of setup i was_discarded block.now }
{
    let at = setup.places(i);
    let descs = at.descs;
    let end = descs + IsoPacketDesc::SIZE * at.packets;
    let sums = packet_sums(&block[descs..end]);
    let header = urb_view::fields(block, at.header);
    Completion {
        status: header.status,
        actual_bytes: non_negative(header.actual_length),
        requested_bytes: sums.requested,
        short_bytes: sums.short,
        packet_errors: non_negative(header.error_count),
        was_discarded,
    }
}

// Internal: the slot whose header stands at an offset, by the offset and by the cookie. The cookie is the slot's
// number, which no tag can alter: an address that only happens to fit is another stream's.
fn slot_at(setup: Setup, block: &[u8], offset: usize) -> Option<usize>
    requires { (admissible setup ≡ true) × (length block.now ≡ total_of setup) }
    ensures { result ≡ slot_at setup offset block.now }
{
    let stride = setup.layout_of().slot_stride;
    if setup.slots * stride <= offset || offset % stride != 0 {
        return None;
    }
    let i = offset / stride;
    let header = urb_view::fields(block, i * stride);
    (header.usercontext == i as u64).then_some(i)
}

// Internal: the slot that an address from the kernel names.
pub fn slot_of_urb(setup: Setup, block: &[u8], address: usize) -> Option<usize>
    requires { (admissible setup ≡ true) × (length block.now ≡ total_of setup) }
    ensures { result ≡ slot_of_urb setup address block.now }
{
    let base = masked(setup.tagged, setup.base);
    let at = masked(setup.tagged, address);
    let offset = at.checked_sub(base)?;
    slot_at(setup, block, offset)
}
