// How a call ends: refused, with another hand, or with the slot in hand returned.
ghost use Rattle.std.specs.Prelude.{true, [], ◌≡◌};
ghost use Rattle.ring.specs.Slots.{holds};
ghost use Rattle.stream.specs.Parts.{with_state};
ghost use Rattle.stream.specs.Sound.{sound};
ghost use Rattle.ledger.specs.Gives.{Gives};
ghost use Rattle.ledger.specs.Record.{view};
ghost use Rattle.ledger.specs.Step.{put_back};

use error::Error;
use ring::{Hand, Ring};
use stream::{Answer, Reply, Stream};

// Internal: a refusal, with this record.
pub fn refused(s: Stream, e: Error) -> Reply
    ensures { result ≡ record { stream = s; answer = Answer.Refused e } }
{
    Reply {
        stream: s,
        answer: Answer::Refused(e),
    }
}

// Internal: the record with another ring and hand.
pub fn with_hand(s: Stream, ring: Ring, hand: Hand) -> Stream
    ensures { result ≡ with_state s ring hand s.flags s.stats }
{
    Stream::new(s.setup, ring, hand, s.flags, s.stats)
}

// Internal: slot i, which is in hand, goes to the queue's end, as the Rust's Slot does when it is dropped, and the
// hand is Idle.
#[cold]
pub fn put_back(s: Stream, i: usize, answer: Answer) -> Reply
    requires { (sound s ≡ true) × (holds s.hand i ≡ true) }
    ensures { Gives s (put_back i answer (view s) []) result [] }
{
    Reply {
        stream: with_hand(s, s.ring.release(i), Hand::Idle),
        answer,
    }
}
