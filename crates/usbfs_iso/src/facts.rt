// What a C host asks beside the calls: layout, image size, what a refusal's number means, schedules, and the next
// stretch of sound.
ghost use Rattle.std.specs.Prelude.{◌≡◌, length};
ghost use Rattle.refusal_text.specs.CString.{codes, c_string};
ghost use Rattle.refusal_text.specs.Refusals.{name_of, text_of};
ghost use Rattle.figures.specs.Figures.{Figured, layout_from_c, size_from_c, derive_from_c, plan_from_c};
ghost use Rattle.figures.specs.Stretches.{stretch_from_c};

use figures::{derive_figures, image_size, layout_figures, plan_figures, stretch_figures};

// The layout's six numbers.
#[unsafe(no_mangle)]
pub extern "C" fn usbfs_iso_layout(
    slots: u64,
    packets_per_urb: u64,
    packet_bytes: u64,
    frame_bytes: u64,
    out: &mut [u8],
) -> u32
    ensures { Figured (layout_from_c slots packets_per_urb packet_bytes frame_bytes out.old)
        result out.new }
{
    layout_figures(slots, packets_per_urb, packet_bytes, frame_bytes, out)
}

// The bytes of an image of so many slots, or 0 where no ring has so many.
#[unsafe(no_mangle)]
pub extern "C" fn usbfs_iso_image_size(slots: u64) -> u64
    ensures { result ≡ size_from_c slots }
{
    image_size(slots)
}

// The short name of a refusal, as a C string.
#[unsafe(no_mangle)]
pub extern "C" fn usbfs_iso_refusal_name(number: u32, text: &mut [u8]) -> u64
    ensures value { result ≡ length (codes (name_of number)) }
    ensures text_after { text.new ≡ c_string (codes (name_of number)) text.old }
{
    refusal_text::put_name(number, text)
}

// What a refusal means, as a C string.
#[unsafe(no_mangle)]
pub extern "C" fn usbfs_iso_refusal_text(number: u32, text: &mut [u8]) -> u64
    ensures value { result ≡ length (codes (text_of number)) }
    ensures text_after { text.new ≡ c_string (codes (text_of number)) text.old }
{
    refusal_text::put_text(number, text)
}

// A schedule from the bus facts and a depth.
#[unsafe(no_mangle)]
pub extern "C" fn usbfs_iso_derive(
    speed: i32,
    b_interval: u8,
    packet_bytes: u64,
    urbs: u64,
    depth_us: u32,
    packets_per_urb: u64,
    out: &mut [u8],
) -> u32
    ensures { Figured (derive_from_c speed b_interval packet_bytes urbs depth_us packets_per_urb out.old)
        result out.new }
{
    derive_figures(
        speed,
        b_interval,
        packet_bytes,
        urbs,
        depth_us,
        packets_per_urb,
        out,
    )
}

// A schedule from an endpoint's descriptor and a depth.
#[unsafe(no_mangle)]
pub extern "C" fn usbfs_iso_plan(
    speed: i32,
    attributes: u8,
    max_packet_size: u16,
    b_interval: u8,
    urbs: u64,
    depth_us: u32,
    packets_per_urb: u64,
    out: &mut [u8],
) -> u32
    ensures { Figured (plan_from_c speed attributes max_packet_size b_interval urbs depth_us packets_per_urb
        out.old) result out.new }
{
    plan_figures(
        speed,
        attributes,
        max_packet_size,
        b_interval,
        urbs,
        depth_us,
        packets_per_urb,
        out,
    )
}

// The next stretch of a programme or an emergency message.
#[unsafe(no_mangle)]
pub extern "C" fn usbfs_iso_stretch(
    programme: &[u8],
    message: &[u8],
    message_flag: u32,
    capacity: u64,
    programme_at: u64,
    message_at: u64,
    out: &mut [u8],
) -> u32
    ensures { Figured (stretch_from_c programme.now message.now message_flag capacity programme_at
        message_at out.old) result out.new }
{
    stretch_figures(
        programme,
        message,
        message_flag,
        capacity,
        programme_at,
        message_at,
        out,
    )
}
