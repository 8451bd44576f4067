// The record of an output stream, and the answers of the calls.
#![tactic(auto)]

ghost use Rattle.std.specs.Prelude.{◌≡◌};
ghost use Rattle.stream.specs.Sound.{sound};

use error::Error;
use layout::Setup;
use ring::{Hand, Ring};

// Running totals, each modulo 2^64.
#[derive(Clone, Copy)]
pub struct IsoStats {
    pub urbs_submitted: u64,
    pub urbs_completed: u64,
    pub bytes_submitted: u64,
    pub bytes_transferred: u64,
    pub short_bytes: u64,
    pub packet_errors: u64,
    pub urb_errors: u64,
    pub underruns: u64,
}

// Started: between start and stop. Armed: a URB was accepted since the last stop, counted underrun, or start that
// had an effect.
#[derive(Clone, Copy)]
pub struct Flags {
    pub started: bool,
    pub armed: bool,
}

// All that the stream keeps: counters, the hand, opening's values, slots and queue, flags. No padding stands before the
// ring: the compiler would copy the ring's arrays together with it, out of step with their alignment.
#[derive(Clone, Copy)]
pub struct Stream {
    pub stats: IsoStats,
    pub hand: Hand,
    pub setup: Setup,
    pub ring: Ring,
    pub flags: Flags,
}

// The outcome of one URB, as the kernel filled it in.
#[derive(Clone, Copy)]
pub struct Completion {
    pub status: i32,
    pub actual_bytes: u64,
    pub requested_bytes: u64,
    pub short_bytes: u64,
    pub packet_errors: u64,
    pub was_discarded: bool,
}

// A call's answer. Stopped is stop's Done, with how many slots it listed.
#[derive(Clone, Copy)]
pub enum Answer {
    Refused(Error),
    Done,
    Stopped(usize),
    Nothing,
    Slot(usize),
    Submit(usize),
    Completed(Completion),
    Foreign,
    Yes,
}

// What every call gives back: the record and the answer.
#[derive(Clone, Copy)]
pub struct Reply {
    pub stream: Stream,
    pub answer: Answer,
}

impl Stream {
    // Internal: the record of these parts.
    pub fn new(setup: Setup, ring: Ring, hand: Hand, flags: Flags, stats: IsoStats) -> Stream
        ensures { result ≡ record { setup = setup; ring = ring; hand = hand; flags = flags; stats = stats } }
    {
        Stream {
            setup,
            ring,
            hand,
            flags,
            stats,
        }
    }

    // Whether the record breaks nothing of refusal 8's list, whatever it holds: the setup's test and the ring's pieces.
    #[inline(always)]
    pub fn sound(&self) -> bool
        ensures { result ≡ sound self.now }
    {
        let n = self.setup.slots;
        let home = self.ring.home(n);
        self.setup.admissible()
            & self.ring.hand_sound(n, self.hand)
            & self.ring.out_sound(n, home)
            & self.ring.count_sound(n, self.hand)
    }
}
