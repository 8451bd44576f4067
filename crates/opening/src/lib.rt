// Opening a ring: the record of a fresh stream, and its block with the headers of all slots.
#![tactic(auto)]

ghost use Rattle.std.specs.Prelude.{◌≡◌, true, ◌≤◌, ◌<◌, length, replicate};
ghost use Rattle.layout.specs.Opening.{total_of, admissible};
ghost use Rattle.opening.specs.Refusals.{opens as opens_for};
ghost use Rattle.opening.specs.Opened.{opened_stream, no_setup, no_stream};
ghost use Rattle.opening.specs.Open.{opened_header, opened_block, open_outcome};

use error::Error;
use layout::{RingLayout, Setup, Underrun};
use ring::{Hand, Ring};
use stream::{Answer, Flags, IsoStats, Reply, Stream};
use sys::Urb;

// What opening answers for a block of that length: its layout, or the first of refusals 1, 2, 3, 5, 33, 6, 7.
pub fn opens(setup: Setup, block_len: usize) -> Result<RingLayout, Error>
    ensures { result ≡ opens_for setup block_len }
{
    setup.test_limits()?;
    let layout = setup.layout_of();
    if block_len != layout.total_bytes {
        return Err(Error::BlockLength);
    }
    if !setup.admissible() {
        return Err(Error::BaseAddress);
    }
    Ok(layout)
}

// Internal: the record of a ring that was just opened with these values.
fn opened(setup: Setup) -> Stream
    requires { setup.slots ≤ 256 }
    ensures { result ≡ opened_stream setup }
{
    Stream::new(
        setup,
        Ring::new(setup.slots),
        Hand::Idle,
        Flags {
            started: false,
            armed: false,
        },
        IsoStats {
            urbs_submitted: 0,
            urbs_completed: 0,
            bytes_submitted: 0,
            bytes_transferred: 0,
            short_bytes: 0,
            packet_errors: 0,
            urb_errors: 0,
            underruns: 0,
        },
    )
}

// Internal: the values of the record that comes with a refusal.
fn no_setup() -> Setup
    ensures { result ≡ no_setup }
{
    Setup {
        slots: 0,
        packets_per_urb: 0,
        packet_bytes: 0,
        endpoint: 0,
        underrun: Underrun::Continue,
        silence_byte: 0,
        base: 0,
        tagged: false,
        frame_bytes: 0,
    }
}

// Internal: the record that comes with a refusal.
pub fn no_stream() -> Stream
    ensures { result ≡ no_stream }
{
    opened(no_setup())
}

// Internal: the header of slot i.
fn header_of(setup: Setup, i: usize) -> Urb
    requires { (admissible setup ≡ true) × (i < setup.slots) }
    ensures { result ≡ opened_header setup i }
{
    let places = setup.places(i);
    Urb::new(
        setup.endpoint,
        (setup.base + places.payload) as u64,
        places.capacity as i32,
        places.packets as i32,
        i as u64,
    )
}

// Internal: clears the block, then writes each slot's header.
fn init_headers(setup: Setup, block: &mut [u8])
    requires { (admissible setup ≡ true) × (length block.old ≡ total_of setup) }
    ensures { block.new ≡ opened_block setup }
{
    block.fill(0);
    for i in 0..setup.slots {
        let places = setup.places(i);
        let urb = header_of(setup, i);
        urb.write(block, places.header);
    }
}

// Opens a ring in the block, or refuses with 1, 2, 3, 5, 33, 6 or 7 and leaves the block alone.
pub fn open(setup: Setup, block: &mut [u8]) -> Reply
    ensures { (result.answer ≡ (open_outcome setup block.old).answer)
        × (result.stream ≡ (open_outcome setup block.old).stream)
        × (block.new ≡ (open_outcome setup block.old).block) }
{
    match opens(setup, block.len()) {
        Err(e) => Reply {
            stream: no_stream(),
            answer: Answer::Refused(e),
        },
        Ok(_) => {
            init_headers(setup, block);
            Reply {
                stream: opened(setup),
                answer: Answer::Done,
            }
        }
    }
}
