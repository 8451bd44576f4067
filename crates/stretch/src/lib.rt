// The next stretch of sound for a hall: a part of the emergency message while its flag is set and it is not used up,
// else a part of the programme (request 2026-06). Both buffers are lent, and the reading positions are the host's.
#![tactic(auto)]

ghost use Rattle.std.specs.Prelude.{◌≡◌, ◌+◌, ◌≤◌, length, MatchResult};
ghost use Rattle.stretch.specs.Stretch.{stretch_length, source_of, next_stretch};
ghost use Rattle.stretch.specs.Taken.{source_number, refusal_number, Taken, Refused};

use error::Error;

// A reading position in each buffer.
#[derive(Clone, Copy)]
pub struct Positions {
    pub programme: usize,
    pub message: usize,
}

// Which buffer a stretch is a part of.
#[derive(Clone, Copy)]
pub enum Source {
    Programme,
    Message,
}

// Which buffer the stretch is a part of, none where a position is beyond its buffer's end; where it starts there and
// how long it is; and the next positions.
#[derive(Clone, Copy)]
pub struct Stretch {
    pub source: Option<Source>,
    pub start: usize,
    pub len: usize,
    pub next: Positions,
}

impl Stretch {
    // The source as C is told: 0 programme, 1 message, 2 neither.
    pub fn source_number(self) -> u64
        ensures { result ≡ source_number self.source }
    {
        match self.source {
            Some(Source::Programme) => 0,
            Some(Source::Message) => 1,
            None => 2,
        }
    }

    // The step's number: 34 where it has no source, else 0.
    pub fn refusal(self) -> u32
        ensures { result ≡ refusal_number self.source }
    {
        match self.source {
            Some(_) => 0,
            None => Error::PositionBeyond.number(),
        }
    }
}

// Where the next stretch comes from.
#[tactic(auto, unfolding(crate::specs::Stretch::source_of))]
fn source_of(programme: &[u8], message: &[u8], message_flag: bool, at: Positions) -> Option<Source>
    ensures { result ≡ source_of programme.now message.now message_flag at }
{
    if at.programme > programme.len() || at.message > message.len() {
        None
    } else if message_flag && at.message < message.len() {
        Some(Source::Message)
    } else {
        Some(Source::Programme)
    }
}

// Internal: how long a buffer's stretch is, from a position that is not beyond its end.
fn stretch_len(buffer: &[u8], at: usize, capacity: usize) -> usize
    requires { at ≤ length buffer.now }
    ensures { (result ≡ stretch_length capacity at buffer.now) × (at + result ≤ length buffer.now) }
{
    capacity.min(buffer.len() - at)
}

// The next stretch as numbers; the positions are the host's to move.
#[tactic(auto, unfolding(crate::specs::Stretch::stretch_from, crate::specs::Stretch::source_of))]
pub fn next_stretch(
    programme: &[u8],
    message: &[u8],
    message_flag: bool,
    capacity: usize,
    at: Positions,
) -> Stretch
    ensures { result ≡ next_stretch programme.now message.now message_flag capacity at }
{
    let source = source_of(programme, message, message_flag, at);
    match source {
        Some(Source::Programme) => {
            let len = stretch_len(programme, at.programme, capacity);
            Stretch {
                source,
                start: at.programme,
                len,
                next: Positions {
                    programme: at.programme + len,
                    ..at
                },
            }
        }
        Some(Source::Message) => {
            let len = stretch_len(message, at.message, capacity);
            Stretch {
                source,
                start: at.message,
                len,
                next: Positions {
                    message: at.message + len,
                    ..at
                },
            }
        }
        None => Stretch {
            source,
            start: 0,
            len: 0,
            next: at,
        },
    }
}

// One step, whole: the next stretch itself, with the positions moved where they are lent; or 34, whose stretch is
// empty, with the positions as they were.
#[tactic(auto, using(crate::proofs::Chosen::next_stands, crate::proofs::Chosen::next_unmoved))]
pub fn take_stretch<'a>(
    programme: &'a [u8],
    message: &'a [u8],
    message_flag: bool,
    capacity: usize,
    at: &mut Positions,
) -> Result<&'a [u8], Error>
    ensures { let s = next_stretch programme.now message.now message_flag capacity at.old in
        MatchResult result (λ part. Taken programme.now message.now s part.now at.new)
        (λ e. Refused programme.now message.now s e at.old at.new) }
{
    let s = next_stretch(programme, message, message_flag, capacity, *at);
    *at = s.next;
    let buffer = match s.source.ok_or(Error::PositionBeyond)? {
        Source::Programme => programme,
        Source::Message => message,
    };
    Ok(&buffer[s.start..s.start + s.len])
}
