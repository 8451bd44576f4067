// Bus speed, service intervals and the packets-per-URB arithmetic of schedule.rs, the endpoint
// arithmetic of descriptor.rs, and `plan` of iso.rs.
#![tactic(auto)]

mod descriptor;
mod interval;
mod product;
mod speed;

ghost use Rattle.std.specs.Prelude.{◌≡◌, ◌<◌};
ghost use Rattle.schedule.specs.Derive.{ceil_div, urbs_of, derived, planned};
ghost use Rattle.schedule.specs.Product.{urb_duration_us, in_flight_us, memory_bytes};

pub use descriptor::{Direction, Endpoint, TransferType};
use error::Error;
pub use interval::packet_interval_us;
use product::product_of;
pub use speed::Speed;
use sys::MAX_ISO_PACKETS_PER_URB;

// How much audio to keep in flight: a URB count, or a time that is rounded up.
#[derive(Clone, Copy)]
pub enum Depth {
    Urbs(usize),
    Micros(u32),
    Millis(u32),
}

#[derive(Clone, Copy)]
pub struct Schedule {
    pub speed: Speed,
    pub b_interval: u8,
    pub packet_interval_us: u32,
    pub packets_per_urb: usize,
    pub urbs: usize,
    pub packet_bytes: usize,
}

// Internal: the whole URBs that hold a time, rounded up.
#[tactic(auto, using(crate::proofs::Bounds::rounded_up))]
fn urbs_for(us: usize, interval: u32, packets: usize) -> usize
    requires { (0 < interval) × (0 < packets) }
    ensures { result ≡ ceil_div (ceil_div us interval) packets }
{
    us.div_ceil(interval as usize).div_ceil(packets)
}

// Internal: the number of URBs, at least 2: one in flight and one being filled.
fn urbs(depth: Depth, interval: u32, packets: usize) -> usize
    requires { (0 < interval) × (0 < packets) }
    ensures { result ≡ urbs_of depth interval packets }
{
    let asked = match depth {
        Depth::Urbs(n) => n,
        Depth::Micros(us) => urbs_for(us as usize, interval, packets),
        Depth::Millis(ms) => urbs_for(ms as usize * 1000, interval, packets),
    };
    asked.max(2)
}

impl Schedule {
    // A schedule from the bus facts and a requested depth.
    #[tactic(auto, unfolding(crate::specs::Derive::derived, crate::specs::Derive::derived_from))]
    pub fn derive(
        speed: Speed,
        b_interval: u8,
        packet_bytes: usize,
        depth: Depth,
        packets_per_urb: Option<usize>,
    ) -> Result<Schedule, Error>
        ensures { result ≡ derived speed b_interval packet_bytes depth packets_per_urb }
    {
        let packet_interval_us = packet_interval_us(speed, b_interval)?;
        if packet_bytes == 0 {
            return Err(Error::ZeroPacketBytes);
        }
        let packets_per_urb = packets_per_urb.unwrap_or(1);
        if packets_per_urb == 0 {
            return Err(Error::ZeroPackets);
        }
        if packets_per_urb > MAX_ISO_PACKETS_PER_URB {
            return Err(Error::TooManyPackets);
        }
        Ok(Schedule {
            speed,
            b_interval,
            packet_interval_us,
            packets_per_urb,
            urbs: urbs(depth, packet_interval_us, packets_per_urb),
            packet_bytes,
        })
    }

    // The time that one URB takes.
    pub fn urb_duration_us(self) -> Result<u64, Error>
        ensures { result ≡ urb_duration_us self }
    {
        product_of(
            u64::from(self.packet_interval_us),
            self.packets_per_urb as u64,
            1,
        )
    }

    // The time in flight when the ring is full.
    pub fn in_flight_us(self) -> Result<u64, Error>
        ensures { result ≡ in_flight_us self }
    {
        product_of(
            u64::from(self.packet_interval_us),
            self.packets_per_urb as u64,
            self.urbs as u64,
        )
    }

    // The payload bytes that the kernel holds when the ring is full.
    pub fn memory_bytes(self) -> Result<u64, Error>
        ensures { result ≡ memory_bytes self }
    {
        product_of(
            self.urbs as u64,
            self.packets_per_urb as u64,
            self.packet_bytes as u64,
        )
    }
}

// What an endpoint would do: its schedule by its own descriptor.
#[tactic(auto, unfolding(crate::specs::Derive::planned, crate::specs::Derive::planned_from))]
pub fn plan(
    speed: Speed,
    endpoint: Endpoint,
    depth: Depth,
    packets_per_urb: Option<usize>,
) -> Result<Schedule, Error>
    ensures { result ≡ planned speed endpoint depth packets_per_urb }
{
    match endpoint.transfer_type() {
        TransferType::Isochronous => Schedule::derive(
            speed,
            endpoint.interval,
            endpoint.bytes_per_interval(),
            depth,
            packets_per_urb,
        ),
        TransferType::Control | TransferType::Bulk | TransferType::Interrupt => {
            Err(Error::NotIsochronous)
        }
    }
}
