// What a C host asks beside the calls: layout, image size, schedules, and the next stretch of sound.
#![tactic(auto)]

mod stretches;

ghost use Rattle.std.specs.Prelude.{◌≡◌};
ghost use Rattle.figures.specs.Figures.{Figured, told, layout_numbers, layout_from_c, size_from_c};
ghost use Rattle.figures.specs.Figures.{schedule_numbers, schedule_figures, depth_from, derive_from_c, plan_from_c};

use encoding::write_numbers;
use error::Error;
use image::size;
use layout::RingLayout;
use schedule::{Depth, Endpoint, Schedule, Speed, plan};
pub use stretches::stretch_figures;

// Writes the numbers and gives 0, or gives the refusal's number.
fn told<const N: usize>(numbers: Result<[u64; N], Error>, out: &mut [u8]) -> u32
    ensures { Figured (told numbers.entry out.old) result out.new }
{
    match numbers {
        Ok(numbers) => {
            write_numbers(&numbers, out);
            0
        }
        Err(e) => e.number(),
    }
}

// The layout's six numbers.
fn layout_numbers(l: RingLayout) -> [u64; 6]
    ensures { result ≡ layout_numbers l }
{
    [
        l.slot_stride as u64,
        l.data_base as u64,
        l.data_stride as u64,
        l.total_bytes as u64,
        l.align as u64,
        l.slot_capacity as u64,
    ]
}

// The schedule's four numbers.
fn schedule_numbers(s: Schedule) -> [u64; 4]
    ensures { result ≡ schedule_numbers s }
{
    [
        u64::from(s.packet_interval_us),
        s.packets_per_urb as u64,
        s.urbs as u64,
        s.packet_bytes as u64,
    ]
}

// The layout's six numbers.
#[tactic(auto, unfolding(crate::specs::Figures::layout_from_c, crate::specs::Figures::layout_figures))]
pub fn layout_figures(
    slots: u64,
    packets_per_urb: u64,
    packet_bytes: u64,
    frame_bytes: u64,
    out: &mut [u8],
) -> u32
    ensures { Figured (layout_from_c slots packets_per_urb packet_bytes frame_bytes out.old)
        result out.new }
{
    let layout = RingLayout::new(
        slots as usize,
        packets_per_urb as usize,
        packet_bytes as usize,
        frame_bytes as usize,
    );
    told(layout.map(layout_numbers), out)
}

// The bytes of an image of so many slots, or 0 where no ring has so many.
#[tactic(auto, unfolding(crate::specs::Figures::size_from_c))]
pub fn image_size(slots: u64) -> u64
    ensures { result ≡ size_from_c slots }
{
    if (2..=256).contains(&slots) {
        size(slots as usize) as u64
    } else {
        0
    }
}

// A count of URBs or, where that is 0, microseconds.
#[tactic(auto, unfolding(crate::specs::Figures::depth_from))]
fn depth_from(urbs: u64, depth_us: u32) -> Depth
    ensures { result ≡ depth_from urbs depth_us }
{
    if urbs == 0 {
        Depth::Micros(depth_us)
    } else {
        Depth::Urbs(urbs as usize)
    }
}

// What was derived: its four numbers.
#[tactic(auto, unfolding(crate::specs::Figures::schedule_figures))]
fn schedule_figures(derived: Result<Schedule, Error>, out: &mut [u8]) -> u32
    ensures { Figured (schedule_figures derived out.old) result out.new }
{
    told(derived.map(schedule_numbers), out)
}

// A schedule from the bus facts and a depth.
#[tactic(auto, unfolding(crate::specs::Figures::derive_from_c))]
pub fn derive_figures(
    speed: i32,
    b_interval: u8,
    packet_bytes: u64,
    urbs: u64,
    depth_us: u32,
    packets_per_urb: u64,
    out: &mut [u8],
) -> u32
    ensures { Figured (derive_from_c speed b_interval packet_bytes urbs depth_us packets_per_urb out.old)
        result out.new }
{
    let derived = Schedule::derive(
        Speed::from_raw(speed),
        b_interval,
        packet_bytes as usize,
        depth_from(urbs, depth_us),
        Some(packets_per_urb as usize),
    );
    schedule_figures(derived, out)
}

// A schedule from an endpoint's descriptor and a depth.
#[tactic(auto, unfolding(crate::specs::Figures::plan_from_c))]
pub fn plan_figures(
    speed: i32,
    attributes: u8,
    max_packet_size: u16,
    b_interval: u8,
    urbs: u64,
    depth_us: u32,
    packets_per_urb: u64,
    out: &mut [u8],
) -> u32
    ensures { Figured (plan_from_c speed attributes max_packet_size b_interval urbs depth_us packets_per_urb
        out.old) result out.new }
{
    let endpoint = Endpoint {
        address: 0,
        attributes,
        max_packet_size,
        interval: b_interval,
    };
    let planned = plan(
        Speed::from_raw(speed),
        endpoint,
        depth_from(urbs, depth_us),
        Some(packets_per_urb as usize),
    );
    schedule_figures(planned, out)
}
