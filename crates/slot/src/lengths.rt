// The packet lengths of a slot, as the three commits set them.
ghost use Rattle.std.specs.Prelude.{◌≡◌, true, false, ◌+◌, ◌*◌, ◌^◌, ◌≤◌, ◌<◌, length};
ghost use Rattle.sys.specs.Bytes.{store};
ghost use Rattle.sys.specs.Header.{header_size};
ghost use Rattle.sys.specs.Descriptor.{desc_size, desc_bytes, packet_of};
ghost use Rattle.layout.specs.Layout.{any_above};
ghost use Rattle.layout.specs.Opening.{admissible, total_of, capacity_of};
ghost use Rattle.ledger.specs.Slot.{sum, shares, lengths_of, descriptors, headed, committed};

use layout::Setup;
use sys::field::put_u32;
use sys::{IsoPacketDesc, Urb};

// Whether a length is above `most`.
pub fn any_above(lengths: &[usize], most: usize) -> bool
    ensures { result ≡ any_above most lengths.now }
{
    lengths.iter().any(|&length| most < length)
}

// Internal: readies the header at `at` for a submission of `total` bytes.
#[tactic(auto, unfolding(ledger::specs::Slot::headed))]
fn set_header(block: &mut [u8], at: usize, total: usize)
    requires { (at + header_size ≤ length block.old) × (total < 2 ^ 32) }
    ensures { block.new ≡ headed at total block.old }
{
    put_u32(block, at + Urb::STATUS, 0);
    put_u32(block, at + Urb::BUFFER_LENGTH, total as u32);
    put_u32(block, at + Urb::ACTUAL_LENGTH, 0);
    put_u32(block, at + Urb::ERROR_COUNT, 0)
}

// Internal: writes the descriptor of a packet of `bytes` at `at`.
fn set_packet(block: &mut [u8], at: usize, bytes: usize)
    requires { (at + desc_size ≤ length block.old) × (bytes < 2 ^ 32) }
    ensures { block.new ≡ store at (desc_bytes (packet_of bytes)) block.old }
{
    IsoPacketDesc::new(bytes as u32).write(block, at)
}

// Internal: writes one descriptor a packet from `at` on, with `bytes` shared out from the first on, at most `most` a
// packet.
#[inline(never)]
fn write_shares(block: &mut [u8], at: usize, packets: usize, most: usize, bytes: usize)
    requires { (at + desc_size * packets ≤ length block.old) × (most < 2 ^ 32) }
    ensures { block.new ≡ store at (descriptors (shares packets most bytes)) block.old }
{
    let mut rest = bytes;
    for k in 0..packets {
        let take = rest.min(most);
        set_packet(block, at + IsoPacketDesc::SIZE * k, take);
        rest -= take;
    }
}

// Internal: writes one descriptor a length from `at` on. Where their sum fits 32 bits, each length does.
fn write_lengths(block: &mut [u8], at: usize, lengths: &[usize])
    requires { (at + desc_size * length lengths.now ≤ length block.old) × (sum lengths.now < 2 ^ 32) }
    ensures { block.new ≡ store at (descriptors lengths.now) block.old }
{
    for (k, &length) in lengths.iter().enumerate() {
        set_packet(block, at + IsoPacketDesc::SIZE * k, length);
    }
}

// Internal: commits `bytes` bytes of slot i, at most its capacity: each packet gets the smaller of what is left and the
// whole frames that fit it.
pub fn set_packet_lengths(setup: Setup, block: &mut [u8], i: usize, bytes: usize)
    requires { (admissible setup ≡ true) × (i < setup.slots) × (length block.old ≡ total_of setup)
        × (bytes ≤ capacity_of setup) }
    ensures { block.new ≡ committed setup i (lengths_of setup bytes) block.old }
{
    let at = setup.places(i);
    set_header(block, at.header, bytes);
    write_shares(block, at.descs, at.packets, at.fill, bytes)
}

// Internal: commits slot i with these packet lengths, one a packet and none above packet_bytes.
pub fn set_packet_lengths_exact(setup: Setup, block: &mut [u8], i: usize, lengths: &[usize])
    requires setup_value { (admissible setup ≡ true) × (i < setup.slots) × (length block.old ≡ total_of setup) }
    requires lengths_len { (length lengths.now ≡ setup.packets_per_urb)
        × (any_above setup.packet_bytes lengths.now ≡ false) }
    ensures { block.new ≡ committed setup i lengths.now block.old }
{
    let at = setup.places(i);
    set_header(block, at.header, lengths.iter().sum());
    write_lengths(block, at.descs, lengths)
}
