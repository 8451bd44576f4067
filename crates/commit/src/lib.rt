// commit, commit_full, commit_packets: the slot in hand gets its packet lengths, and the host is to submit it.
#![tactic(auto)]

ghost use Rattle.std.specs.Prelude.{true, [], ◌≡◌, length};
ghost use Rattle.layout.specs.Opening.{admissible, total_of, capacity_of};
ghost use Rattle.stream.specs.Sound.{sound};
ghost use Rattle.ledger.specs.Calls.{Call};
ghost use Rattle.ledger.specs.Commit.{commit_held, packets_held};
ghost use Rattle.ledger.specs.Gives.{Gives};
ghost use Rattle.ledger.specs.Ledger.{with_hand};
ghost use Rattle.ledger.specs.Record.{view};
ghost use Rattle.ledger.specs.Told.{Told};

use error::Error;
use gate::{held_gate, put_back, refused, with_hand};
use layout::Setup;
use ring::Hand;
use slot::{any_above, set_packet_lengths, set_packet_lengths_exact};
use stream::{Answer, Reply, Stream};

// Internal: the most bytes that a slot holds.
fn slot_capacity(setup: Setup) -> usize
    requires { admissible setup ≡ true }
    ensures { result ≡ capacity_of setup }
{
    setup.layout_of().slot_capacity
}

// Internal: ends a commit whose lengths are written. The host is to submit the slot.
fn send(s: Stream, i: usize) -> Reply
    requires { (sound s ≡ true) × (s.hand ≡ Hand.Held i) }
    ensures { Gives s
        (record { ledger = with_hand (Hand.Sending i) (view s); answer = Answer.Submit i; lent = [] }) result [] }
{
    Reply {
        stream: with_hand(s, s.ring, Hand::Sending(i)),
        answer: Answer::Submit(i),
    }
}

// Internal: commits slot i, which the hand holds. Refusal 10.
fn commit_held(s: Stream, i: usize, bytes: usize, block: &mut [u8]) -> Reply
    requires { (sound s ≡ true) × (s.hand ≡ Hand.Held i) × (length block.old ≡ total_of s.setup) }
    ensures { Gives s (commit_held bytes i s.setup (view s) block.old) result block.new }
{
    let capacity = slot_capacity(s.setup);
    if capacity < bytes {
        return put_back(s, i, Answer::Refused(Error::CommitTooLong));
    }
    set_packet_lengths(s.setup, block, i, bytes);
    send(s, i)
}

// Internal: commits slot i, which the hand holds, packet by packet. Refusals 11, then 12.
fn packets_held(s: Stream, i: usize, lengths: &[usize], block: &mut [u8]) -> Reply
    requires { (sound s ≡ true) × (s.hand ≡ Hand.Held i) × (length block.old ≡ total_of s.setup) }
    ensures { Gives s (packets_held lengths.now i s.setup (view s) block.old)
        result block.new }
{
    if lengths.len() != s.setup.packets_per_urb {
        return put_back(s, i, Answer::Refused(Error::PacketCount));
    }
    if any_above(lengths, s.setup.packet_bytes) {
        return put_back(s, i, Answer::Refused(Error::PacketTooLong));
    }
    set_packet_lengths_exact(s.setup, block, i, lengths);
    send(s, i)
}

// Commits `bytes` of the slot in hand: each packet gets the smaller of what is left and the whole frames that fit it.
pub fn commit(s: Stream, bytes: usize, block: &mut [u8]) -> Reply
    ensures { Told (Call.commit bytes block.old) s result.answer result.stream block.new }
{
    match held_gate(&s, Some(block.len())) {
        Ok(i) => commit_held(s, i, bytes, block),
        Err(e) => refused(s, e),
    }
}

// Commits the whole capacity of the slot in hand. It is worked out behind the tests: in a record that breaks 8 it might
// not fit.
pub fn commit_full(s: Stream, block: &mut [u8]) -> Reply
    ensures { Told (Call.commit_full block.old) s result.answer result.stream block.new }
{
    match held_gate(&s, Some(block.len())) {
        Ok(i) => {
            let capacity = slot_capacity(s.setup);
            commit_held(s, i, capacity, block)
        }
        Err(e) => refused(s, e),
    }
}

// Commits the slot in hand with a length for each packet.
pub fn commit_packets(s: Stream, lengths: &[usize], block: &mut [u8]) -> Reply
    ensures { Told (Call.commit_packets lengths.now block.old)
        s result.answer result.stream block.new }
{
    match held_gate(&s, Some(block.len())) {
        Ok(i) => packets_held(s, i, lengths, block),
        Err(e) => refused(s, e),
    }
}
