// Opening from C.
ghost use Rattle.std.specs.Prelude.{[], ◌∷◌};
ghost use Rattle.from_c.specs.Told.{Returned};
ghost use Rattle.c_open.specs.Open.{open_from_c};

use c_open::open_stream;

// Opens a ring in the block and writes its image.
#[unsafe(no_mangle)]
pub extern "C" fn usbfs_iso_open(
    slots: u64,
    packets_per_urb: u64,
    packet_bytes: u64,
    endpoint: u8,
    policy: u64,
    silence_byte: u8,
    base: u64,
    tag: u64,
    frame_bytes: u64,
    block: &mut [u8],
    image: &mut [u8],
    out: &mut [u8],
) -> u32
    ensures { Returned (open_from_c
        (slots ∷ packets_per_urb ∷ packet_bytes ∷ endpoint ∷ policy ∷ silence_byte ∷ base ∷ tag ∷ frame_bytes
        ∷ []) block.old image.old out.old) result image.new block.new
        out.new }
{
    open_stream(
        slots,
        packets_per_urb,
        packet_bytes,
        endpoint,
        policy,
        silence_byte,
        base,
        tag,
        frame_bytes,
        block,
        image,
        out,
    )
}
