// The call submitted: what the kernel answered to the slot in hand.
#![tactic(auto)]

ghost use Rattle.std.specs.Prelude.{◌≡◌, ◌*◌, true, [], length};
ghost use Rattle.layout.specs.Opening.{admissible, total_of};
ghost use Rattle.ring.specs.Slots.{holds};
ghost use Rattle.stream.specs.Sound.{sound};
ghost use Rattle.ledger.specs.Calls.{Call};
ghost use Rattle.ledger.specs.Gives.{Gives};
ghost use Rattle.ledger.specs.Record.{view, stored};
ghost use Rattle.ledger.specs.Submitted.{accepted_ledger, submit_failed, chained};
ghost use Rattle.ledger.specs.Submitted.{sent as sent_rule, silent as silent_rule};
ghost use Rattle.ledger.specs.Told.{Told};

use error::{ErrnoContext, Error};
use front::{silence_taken, take_front, take_silent};
use gate::{block_gate, put_back, refused};
use layout::Setup;
use notice::buffer_bytes;
use ring::Hand;
use stream::{Answer, Flags, Reply, Stream};

// Internal: the payload bytes of all slots.
fn payload_bytes(setup: Setup) -> u64
    requires { admissible setup ≡ true }
    ensures { result ≡ setup.slots * setup.packets_per_urb * setup.packet_bytes }
{
    (setup.slots * setup.packets_per_urb * setup.packet_bytes) as u64
}

// Internal: the kernel has accepted slot i. The bytes that count are those of its header now: the host may have changed
// them since the commit.
fn accept(s: Stream, block: &[u8], i: usize) -> Stream
    requires { (sound s ≡ true) × (holds s.hand i ≡ true) × (length block.now ≡ total_of s.setup) }
    ensures { result ≡ stored s (accepted_ledger s.setup i (view s) block.now) }
{
    let bytes = buffer_bytes(s.setup, block, i);
    let mut stats = s.stats;
    stats.urbs_submitted = stats.urbs_submitted.wrapping_add(1);
    stats.bytes_submitted = stats.bytes_submitted.wrapping_add(bytes);
    let flags = Flags {
        armed: true,
        ..s.flags
    };
    Stream::new(s.setup, s.ring.mark_in_flight(i), Hand::Idle, flags, stats)
}

// Internal: the kernel refused slot i, which goes back to the queue.
fn fail(s: Stream, i: usize, errno: u32) -> Reply
    requires { (sound s ≡ true) × (holds s.hand i ≡ true) }
    ensures { Gives s (submit_failed s.setup i errno (view s) []) result [] }
{
    let bytes = payload_bytes(s.setup);
    let refusal = Error::from_errno(errno, ErrnoContext::Submit { bytes });
    put_back(s, i, Answer::Refused(refusal))
}

// Internal: after a silent slot was accepted, the chain's next one, or a slot for the host.
fn chain(s: Stream, block: &mut [u8], left: usize) -> Reply
    requires { (sound s ≡ true) × (s.hand ≡ Hand.Idle) × (length block.old ≡ total_of s.setup) }
    ensures { Gives s (chained s.setup left (view s) block.old) result block.new }
{
    if left == 0 {
        take_front(s)
    } else {
        let done = take_silent(s, left - 1);
        silence_taken(s.setup, done.stream.hand, block);
        done
    }
}

// Internal: the reply to a slot of the host's.
fn sent(s: Stream, reply: Result<(), u32>, block: &[u8], i: usize) -> Reply
    requires { (sound s ≡ true) × (holds s.hand i ≡ true) × (length block.now ≡ total_of s.setup) }
    ensures { Gives s (sent_rule reply i s.setup (view s) block.now) result block.now }
{
    match reply {
        Ok(()) => Reply {
            stream: accept(s, block, i),
            answer: Answer::Done,
        },
        Err(errno) => fail(s, i, errno),
    }
}

// Internal: the reply to a silent slot.
fn silent(s: Stream, reply: Result<(), u32>, block: &mut [u8], i: usize, left: usize) -> Reply
    requires { (sound s ≡ true) × (holds s.hand i ≡ true) × (length block.old ≡ total_of s.setup) }
    ensures { Gives s (silent_rule reply i left s.setup (view s) block.old) result block.new }
{
    match reply {
        Ok(()) => chain(accept(s, block, i), block, left),
        Err(errno) => fail(s, i, errno),
    }
}

// The kernel's answer to the slot in hand is taken: the slot is out, or back in the queue.
pub fn submitted(s: Stream, reply: Result<(), u32>, block: &mut [u8]) -> Reply
    ensures { Told (Call.submitted reply block.old) s result.answer result.stream block.new }
{
    match block_gate(&s, Some(block.len())) {
        Err(e) => refused(s, e),
        Ok(()) => match s.hand {
            Hand::Idle | Hand::Held(_) => refused(s, Error::WrongHand),
            Hand::Sending(i) => sent(s, reply, block, i),
            Hand::Silent(i, left) => silent(s, reply, block, i, left),
        },
    }
}
