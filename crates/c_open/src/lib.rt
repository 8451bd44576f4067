// Opening by numbers that C hands over.
#![tactic(auto)]

ghost use Rattle.std.specs.Prelude.{[], ◌∷◌, length};
ghost use Rattle.opening.specs.Refusals.{opens};
ghost use Rattle.from_c.specs.Told.{Returned};
ghost use Rattle.c_open.specs.Open.{opened_from_c, open_from_c};

use from_c::{answered, not_an_image, tell};
use image::{policy_from, size};
use layout::Setup;
use stream::Answer;

// Opens a ring with these values: their refusals, then 31 for a buffer too short for the image.
fn open_in(setup: Setup, block: &mut [u8], image: &mut [u8], out: &mut [u8]) -> u32
    ensures { Returned (opened_from_c (opens setup (length block.old)) setup block.old
        image.old out.old) result image.new block.new out.new }
{
    if let Err(e) = opening::opens(setup, block.len()) {
        return tell(Answer::Refused(e), out);
    }
    if image.len() < size(setup.slots) {
        return not_an_image(out);
    }
    answered(opening::open(setup, block), image, out)
}

// Opens a ring in the block and writes its image: 31 for a policy or tag that names none, then as above.
pub fn open_stream(
    slots: u64,
    packets_per_urb: u64,
    packet_bytes: u64,
    endpoint: u8,
    policy: u64,
    silence_byte: u8,
    base: u64,
    tag: u64,
    frame_bytes: u64,
    block: &mut [u8],
    image: &mut [u8],
    out: &mut [u8],
) -> u32
    ensures { Returned (open_from_c
        (slots ∷ packets_per_urb ∷ packet_bytes ∷ endpoint ∷ policy ∷ silence_byte ∷ base ∷ tag ∷ frame_bytes
        ∷ []) block.old image.old out.old) result image.new block.new
        out.new }
{
    if policy > 2 || tag > 1 {
        return not_an_image(out);
    }
    let setup = Setup {
        slots: slots as usize,
        packets_per_urb: packets_per_urb as usize,
        packet_bytes: packet_bytes as usize,
        endpoint,
        underrun: policy_from(policy),
        silence_byte,
        base: base as usize,
        tagged: tag == 1,
        frame_bytes: frame_bytes as usize,
    };
    open_in(setup, block, image, out)
}
