// What opening's values determine: the ring's layout, which of them opening refuses, and the places of a slot in
// the block.
#![tactic(auto)]

ghost use Rattle.std.specs.Prelude.{◌≡◌, true, ◌≤◌, ◌<◌, ◌+◌, ◌-◌, ◌*◌};
ghost use Rattle.layout.specs.Layout.{raised, largest, slot_stride, data_stride, overflowing, whole_frames};
ghost use Rattle.layout.specs.Layout.{layout_of, laid_out, total, sizes, bad_frame, Sized};
ghost use Rattle.layout.specs.Tests.{tested, first};
ghost use Rattle.layout.specs.Opening.{masked_of, limit, bad_base, limits, Limited, layout_for, admissible};
ghost use Rattle.layout.specs.Places.{Placed};

use error::Error;
use sys::{IsoPacketDesc, Urb};

// Alignment of a header, of the payloads and of the block.
const URB_ALIGN: usize = 8;

const DATA_ALIGN: usize = 64;

// Opening's added limits.
const MAX_SLOTS: usize = 256;

const MAX_PACKET_BYTES: usize = 49152;

// The lowest bit of an address's tag: 2^56.
const TAG: usize = 0x0100_0000_0000_0000;

// Where everything lies in the block.
#[derive(Clone, Copy)]
pub struct RingLayout {
    pub slots: usize,
    pub slot_stride: usize,
    pub data_base: usize,
    pub data_stride: usize,
    pub packet_bytes: usize,
    pub packets_per_urb: usize,
    pub total_bytes: usize,
    pub align: usize,
    pub slot_capacity: usize,
}

// Internal: v raised to a multiple of a.
#[tactic(auto, unfolding(crate::specs::Layout::raised))]
fn align_up(v: usize, a: usize) -> usize
    requires { (0 < a) × (v + (a - 1) ≤ largest) }
    ensures { result ≡ raised a v }
{
    (v + (a - 1)) / a * a
}

// Internal: from one header to the next.
#[tactic(auto, unfolding(crate::specs::Layout::slot_stride))]
fn header_stride(packets_per_urb: usize) -> usize
    requires { packets_per_urb ≤ 128 }
    ensures { result ≡ slot_stride packets_per_urb }
{
    align_up(Urb::SIZE + IsoPacketDesc::SIZE * packets_per_urb, URB_ALIGN)
}

// Internal: from one payload to the next.
#[tactic(auto, unfolding(crate::specs::Layout::data_stride))]
fn payload_stride(packets_per_urb: usize, packet_bytes: usize) -> usize
    requires { packets_per_urb * packet_bytes + 63 ≤ largest }
    ensures { result ≡ data_stride packets_per_urb packet_bytes }
{
    align_up(packets_per_urb * packet_bytes, DATA_ALIGN)
}

// Internal: what commit fills a packet up to, a multiple of the frame size.
#[tactic(auto, unfolding(crate::specs::Layout::whole_frames))]
fn whole_frames(packet_bytes: usize, frame_bytes: usize) -> usize
    requires { 0 < frame_bytes }
    ensures { result ≡ whole_frames packet_bytes frame_bytes }
{
    packet_bytes / frame_bytes * frame_bytes
}

// Whether 33 refuses the frame size.
#[tactic(auto, unfolding(crate::specs::Layout::bad_frame))]
fn bad_frame(packet_bytes: usize, frame_bytes: usize) -> bool
    ensures { result ≡ bad_frame packet_bytes frame_bytes }
{
    frame_bytes == 0 || frame_bytes > packet_bytes
}

// Refusals 1, 2 and 3.
#[tactic(auto, unfolding(crate::specs::Layout::sizes, crate::specs::Tests::first, crate::specs::Tests::tested))]
fn test_sizes(slots: usize, packets_per_urb: usize, packet_bytes: usize) -> Result<(), Error>
    ensures { result ≡ tested (first (sizes slots packets_per_urb packet_bytes)) }
{
    if slots < 2 {
        return Err(Error::TooFewSlots);
    }
    if packets_per_urb == 0 || packet_bytes == 0 {
        return Err(Error::ZeroSize);
    }
    if packets_per_urb > sys::MAX_ISO_PACKETS_PER_URB {
        return Err(Error::TooManyPackets);
    }
    Ok(())
}

// Internal: whether a product, sum or raising is above usize::MAX. Since the data stride is a multiple of 64, the
// total is slots * (header stride + data stride) raised to 64, and it is the largest of them.
fn overflows(slots: usize, packets_per_urb: usize, packet_bytes: usize) -> bool
    requires { Sized slots packets_per_urb packet_bytes }
    ensures { result ≡ overflowing slots packets_per_urb packet_bytes }
{
    let room = usize::MAX - (DATA_ALIGN - 1);
    let most_bytes = room / packets_per_urb;
    if packet_bytes > most_bytes {
        return true;
    }
    let header = header_stride(packets_per_urb);
    let payload = payload_stride(packets_per_urb, packet_bytes);
    if payload > room - header {
        return true;
    }
    let most_slots = room / (header + payload);
    slots > most_slots
}

impl RingLayout {
    // Internal: the layout of values that no refusal met.
    fn of(
        slots: usize,
        packets_per_urb: usize,
        packet_bytes: usize,
        frame_bytes: usize,
    ) -> RingLayout
        requires sized { Sized slots packets_per_urb packet_bytes }
        requires packet_bytes_bound { (total slots packets_per_urb packet_bytes ≤ largest) × (0 < frame_bytes) }
        ensures { result ≡ layout_of slots packets_per_urb packet_bytes frame_bytes }
    {
        let slot_stride = header_stride(packets_per_urb);
        let data_base = align_up(slots * slot_stride, DATA_ALIGN);
        let data_stride = payload_stride(packets_per_urb, packet_bytes);
        let fill = whole_frames(packet_bytes, frame_bytes);
        RingLayout {
            slots,
            slot_stride,
            data_base,
            data_stride,
            packet_bytes,
            packets_per_urb,
            total_bytes: data_base + slots * data_stride,
            align: DATA_ALIGN,
            slot_capacity: packets_per_urb * fill,
        }
    }

    pub fn new(
        slots: usize,
        packets_per_urb: usize,
        packet_bytes: usize,
        frame_bytes: usize,
    ) -> Result<RingLayout, Error>
        ensures { result ≡ laid_out slots packets_per_urb packet_bytes frame_bytes }
    {
        test_sizes(slots, packets_per_urb, packet_bytes)?;
        if overflows(slots, packets_per_urb, packet_bytes) {
            return Err(Error::LayoutOverflow);
        }
        if bad_frame(packet_bytes, frame_bytes) {
            return Err(Error::FrameSize);
        }
        Ok(RingLayout::of(slots, packets_per_urb, packet_bytes, frame_bytes))
    }
}

// What turn does when all buffers came back while the stream was running.
#[derive(Clone, Copy)]
pub enum Underrun {
    Continue,
    FillSilence,
    Error,
}

// Opening's values but the block, with no padding behind the last (see stream::Stream).
#[derive(Clone, Copy)]
pub struct Setup {
    pub slots: usize,
    pub packets_per_urb: usize,
    pub packet_bytes: usize,
    pub endpoint: u8,
    pub underrun: Underrun,
    pub silence_byte: u8,
    pub tagged: bool,
    pub base: usize,
    pub frame_bytes: usize,
}

// Where a slot's parts lie in the block, its capacity, its packets and what commit fills each of them up to.
#[derive(Clone, Copy)]
pub struct Places {
    pub header: usize,
    pub descs: usize,
    pub payload: usize,
    pub capacity: usize,
    pub packets: usize,
    pub fill: usize,
}

// The part of an address that compares: the low 56 bits where addresses carry a tag, else all of it. On arm64 the top
// byte of a pointer may hold the allocator's tag, and the kernel may hand an address back with another tag or none:
// such addresses name the same place.
#[tactic(auto, unfolding(crate::specs::Opening::masked_of))]
pub fn masked(tagged: bool, address: usize) -> usize
    ensures { result ≡ masked_of tagged address }
{
    if tagged { address % TAG } else { address }
}

// The largest masked address.
#[tactic(auto, unfolding(crate::specs::Opening::limit))]
fn last_address(tagged: bool) -> usize
    ensures { result ≡ limit tagged - 1 }
{
    if tagged { TAG - 1 } else { usize::MAX }
}

// Internal: refusal 7 for a block of that many bytes. The block's last byte is compared, since 2^64 is no usize.
fn bad_base(tagged: bool, base: usize, bytes: usize) -> bool
    requires { 0 < bytes }
    ensures { result ≡ bad_base tagged base bytes }
{
    if base % DATA_ALIGN != 0 {
        return true;
    }
    bytes - 1 > last_address(tagged) - masked(tagged, base)
}

impl Setup {
    // Refusals 1, 2, 3, 5 and 33.
    pub fn test_limits(self) -> Result<(), Error>
        ensures { result ≡ tested (first (limits self)) }
    {
        test_sizes(self.slots, self.packets_per_urb, self.packet_bytes)?;
        if self.slots > MAX_SLOTS || self.packet_bytes > MAX_PACKET_BYTES {
            return Err(Error::TooLarge);
        }
        if bad_frame(self.packet_bytes, self.frame_bytes) {
            return Err(Error::FrameSize);
        }
        Ok(())
    }

    // Internal: the layout of values within the limits.
    pub fn layout_of(self) -> RingLayout
        requires { Limited self }
        ensures { result ≡ layout_for self }
    {
        RingLayout::of(
            self.slots,
            self.packets_per_urb,
            self.packet_bytes,
            self.frame_bytes,
        )
    }

    // Whether opening would take these values with a block of the right length.
    pub fn admissible(self) -> bool
        ensures { result ≡ admissible self }
    {
        match self.test_limits() {
            Err(_) => false,
            Ok(()) => {
                let layout = self.layout_of();
                !bad_base(self.tagged, self.base, layout.total_bytes)
            }
        }
    }

    // Internal: the places of slot i.
    pub fn places(self, i: usize) -> Places
        requires { (admissible self ≡ true) × (i < self.slots) }
        ensures { Placed self i result }
    {
        let layout = self.layout_of();
        let fill = whole_frames(self.packet_bytes, self.frame_bytes);
        let header = i * layout.slot_stride;
        Places {
            header,
            descs: header + Urb::SIZE,
            payload: layout.data_base + i * layout.data_stride,
            capacity: layout.slot_capacity,
            packets: layout.packets_per_urb,
            fill,
        }
    }
}
