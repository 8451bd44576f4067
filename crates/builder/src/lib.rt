// IsoOutBuilder of iso.rs: a stream's schedule and ring from its endpoint's facts. The bus speed is always given.
#![tactic(auto)]

ghost use Rattle.std.specs.Prelude.{◌≡◌};
ghost use Rattle.error.specs.declared.Error.{Error};
ghost use Rattle.stream.specs.declared.Answer.{Answer};
ghost use Rattle.builder.specs.Fields.{new_builder, with_max_packet_size, with_interval, with_speed, with_packet_bytes};
ghost use Rattle.builder.specs.Fields.{with_packets_per_urb, with_depth, with_underrun, with_silence_byte};
ghost use Rattle.builder.specs.Fields.{with_frame_bytes};
ghost use Rattle.builder.specs.Build.{plan_of, setup_of, build_outcome};

use error::Error;
use layout::{Setup, Underrun};
use schedule::{Depth, Schedule, Speed};
use stream::{Answer, Stream};

// What build gives back: the schedule of the stream that was opened, or why none was; and the stream's record, of no
// slots where build refused.
#[derive(Clone, Copy)]
pub struct Built {
    pub answer: Result<Schedule, Error>,
    pub stream: Stream,
}

#[derive(Clone, Copy)]
pub struct IsoOutBuilder {
    pub endpoint: u8,
    pub max_packet_size: Option<usize>,
    pub interval: Option<u8>,
    pub speed: Speed,
    pub packet_bytes: Option<usize>,
    pub packets_per_urb: Option<usize>,
    pub depth: Depth,
    pub underrun: Underrun,
    pub silence_byte: u8,
    pub frame_bytes: usize,
}

// Internal: opening's refusal, or the schedule where opening is Done.
fn opening_answer(answer: Answer, schedule: Schedule) -> Result<Schedule, Error>
    ensures { ((e : Error) → answer ≡ Answer.Refused e → result ≡ Err e)
        × (answer ≡ Answer.Done → result ≡ Ok schedule) }
{
    match answer {
        Answer::Refused(e) => Err(e),
        _ => Ok(schedule),
    }
}

impl IsoOutBuilder {
    // A stream on an endpoint: 8 ms in flight, Continue, silence 0, frames of one byte; the rest is unknown or absent.
    pub fn new(endpoint: u8, speed: Speed) -> IsoOutBuilder
        ensures { result ≡ new_builder endpoint speed }
    {
        IsoOutBuilder {
            endpoint,
            max_packet_size: None,
            interval: None,
            speed,
            packet_bytes: None,
            packets_per_urb: None,
            depth: Depth::Millis(8),
            underrun: Underrun::Continue,
            silence_byte: 0,
            frame_bytes: 1,
        }
    }

    // The payload bytes per service interval.
    pub fn max_packet_size(self, bytes: usize) -> IsoOutBuilder
        ensures { result ≡ with_max_packet_size bytes self }
    {
        IsoOutBuilder {
            max_packet_size: Some(bytes),
            ..self
        }
    }

    pub fn interval(self, b_interval: u8) -> IsoOutBuilder
        ensures { result ≡ with_interval b_interval self }
    {
        IsoOutBuilder {
            interval: Some(b_interval),
            ..self
        }
    }

    pub fn speed(self, speed: Speed) -> IsoOutBuilder
        ensures { result ≡ with_speed speed self }
    {
        IsoOutBuilder { speed, ..self }
    }

    // The bytes written per packet, where they are fewer than the packet size.
    pub fn packet_bytes(self, bytes: usize) -> IsoOutBuilder
        ensures { result ≡ with_packet_bytes bytes self }
    {
        IsoOutBuilder {
            packet_bytes: Some(bytes),
            ..self
        }
    }

    pub fn packets_per_urb(self, packets: usize) -> IsoOutBuilder
        ensures { result ≡ with_packets_per_urb packets self }
    {
        IsoOutBuilder {
            packets_per_urb: Some(packets),
            ..self
        }
    }

    pub fn depth(self, depth: Depth) -> IsoOutBuilder
        ensures { result ≡ with_depth depth self }
    {
        IsoOutBuilder { depth, ..self }
    }

    pub fn on_underrun(self, underrun: Underrun) -> IsoOutBuilder
        ensures { result ≡ with_underrun underrun self }
    {
        IsoOutBuilder { underrun, ..self }
    }

    // The byte that FillSilence writes.
    pub fn silence_byte(self, silence_byte: u8) -> IsoOutBuilder
        ensures { result ≡ with_silence_byte silence_byte self }
    {
        IsoOutBuilder {
            silence_byte,
            ..self
        }
    }

    // The bytes of a frame, a sample of every channel, which commit does not split over two packets.
    pub fn frame_bytes(self, frame_bytes: usize) -> IsoOutBuilder
        ensures { result ≡ with_frame_bytes frame_bytes self }
    {
        IsoOutBuilder {
            frame_bytes,
            ..self
        }
    }

    // Internal: the schedule, or the first of refusals 27, 28, 29, 30 and derive's.
    #[tactic(auto, unfolding(crate::specs::Build::plan_of, crate::specs::Build::sized_plan))]
    fn plan(self) -> Result<Schedule, Error>
        ensures { result ≡ plan_of self }
    {
        let b_interval = self.interval.ok_or(Error::IntervalUnknown)?;
        let size = self.max_packet_size.ok_or(Error::PacketSizeUnknown)?;
        let bytes = self.packet_bytes.unwrap_or(size);
        if bytes > size {
            return Err(Error::PacketBytesTooLarge);
        }
        if self.endpoint & 0x80 != 0 {
            return Err(Error::InvalidEndpoint);
        }
        Schedule::derive(
            self.speed,
            b_interval,
            bytes,
            self.depth,
            self.packets_per_urb,
        )
    }

    // Internal: opening's values for a schedule.
    fn opening_values(self, schedule: Schedule, base: usize, tagged: bool) -> Setup
        ensures { result ≡ setup_of self schedule base tagged }
    {
        Setup {
            slots: schedule.urbs,
            packets_per_urb: schedule.packets_per_urb,
            packet_bytes: schedule.packet_bytes,
            endpoint: self.endpoint,
            underrun: self.underrun,
            silence_byte: self.silence_byte,
            base,
            tagged,
            frame_bytes: self.frame_bytes,
        }
    }

    // Opens the stream in the block, or refuses and leaves the block alone.
    pub fn build(self, base: usize, tagged: bool, block: &mut [u8]) -> Built
        ensures { (result.answer ≡ (build_outcome self base tagged block.old).answer)
            × (result.stream ≡ (build_outcome self base tagged block.old).stream)
            × (block.new ≡ (build_outcome self base tagged block.old).block) }
    {
        match self.plan() {
            Err(e) => Built {
                answer: Err(e),
                stream: opening::no_stream(),
            },
            Ok(schedule) => {
                let setup = self.opening_values(schedule, base, tagged);
                let reply = opening::open(setup, block);
                Built {
                    answer: opening_answer(reply.answer, schedule),
                    stream: reply.stream,
                }
            }
        }
    }
}
