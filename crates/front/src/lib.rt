// The front slot of the queue, for turn and for the chain of silent slots: taken for the host, or silenced.
#![tactic(auto)]

ghost use Rattle.std.specs.Prelude.{true, [], ◌≡◌, ℕ, ◌<◌, length};
ghost use Rattle.layout.specs.Opening.{admissible, total_of};
ghost use Rattle.ring.specs.Slots.{holds};
ghost use Rattle.stream.specs.Sound.{sound};
ghost use Rattle.ledger.specs.Record.{view};
ghost use Rattle.ledger.specs.Turn.{take_front};
ghost use Rattle.ledger.specs.Gives.{Gives};
ghost use Rattle.front.specs.Front.{take_silent, after_silence};

use gate::with_hand;
use layout::Setup;
use ring::Hand;
use slot::fill_silence;
use stream::{Answer, Reply, Stream};

// Internal: takes the front slot for the host, if there is one.
pub fn take_front(s: Stream) -> Reply
    requires { (sound s ≡ true) × (s.hand ≡ Hand.Idle) }
    ensures { Gives s (take_front (view s).queue (view s) []) result [] }
{
    let taken = s.ring.take_free();
    match taken.slot {
        Some(i) => Reply {
            stream: with_hand(s, taken.ring, Hand::Held(i)),
            answer: Answer::Slot(i),
        },
        None => Reply {
            stream: s,
            answer: Answer::Nothing,
        },
    }
}

// Internal: takes the front slot, if there is one, to be silenced and submitted.
pub fn take_silent(s: Stream, left: usize) -> Reply
    requires { (sound s ≡ true) × (s.hand ≡ Hand.Idle) }
    ensures { Gives s (take_silent left (view s).queue (view s)) result [] }
{
    let taken = s.ring.take_free();
    match taken.slot {
        Some(i) => Reply {
            stream: with_hand(s, taken.ring, Hand::Silent(i, left)),
            answer: Answer::Submit(i),
        },
        None => Reply {
            stream: s,
            answer: Answer::Nothing,
        },
    }
}

// Internal: fills the slot of a silent hand with silence. It is not done by take_silent: with the block in it that
// function has two callers and is too long for the compiler to join with them, which would store the record for it.
pub fn silence_taken(setup: Setup, hand: Hand, block: &mut [u8])
    requires { (admissible setup ≡ true) × ((i : ℕ) → holds hand i ≡ true → i < setup.slots)
        × (length block.old ≡ total_of setup) }
    ensures { block.new ≡ after_silence setup hand block.old }
{
    match hand {
        Hand::Idle | Hand::Held(_) | Hand::Sending(_) => {}
        Hand::Silent(i, _) => fill_silence(setup, block, i),
    }
}
