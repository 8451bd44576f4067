// reaped: the kernel's reply to REAPURBNDELAY. A notice of a slot that is out returns the slot.
#![tactic(auto)]

mod counters;
mod status;

ghost use Rattle.std.specs.Prelude.{◌≡◌, ◌<◌, true, cond, [], length};
ghost use Rattle.layout.specs.Opening.{total_of};
ghost use Rattle.ring.specs.declared.Hand.{Hand};
ghost use Rattle.ring.specs.Parts.{state_of};
ghost use Rattle.ring.specs.Slots.{is_out};
ghost use Rattle.stream.specs.Sound.{sound};
ghost use Rattle.ledger.specs.Calls.{Call};
ghost use Rattle.ledger.specs.Gives.{Gives};
ghost use Rattle.ledger.specs.Ledger.{out, discarded, with_totals, mark_of, returned as returned_rule};
ghost use Rattle.ledger.specs.Notice.{slot_of_urb};
ghost use Rattle.ledger.specs.Reaped.{noticed as noticed_rule, by_address, by_errno, reaped_idle};
ghost use Rattle.ledger.specs.Record.{view, stored};
ghost use Rattle.ledger.specs.Told.{Told};

use counters::totals_after;
use error::{ErrnoContext, Error};
use gate::{idle_gate, refused};
use notice::{complete, slot_of_urb};
use status::answer_for;
use stream::{Answer, IsoStats, Reply, Stream};

// Internal: slot i, which was out, at the queue's end; and other counters.
fn returned(s: Stream, i: usize, stats: IsoStats) -> Stream
    requires { (sound s ≡ true) × (s.hand ≡ Hand.Idle) × (i < s.setup.slots)
        × (is_out (state_of s.ring i) ≡ true) }
    ensures { result ≡ stored s (with_totals stats (returned_rule i (view s))) }
{
    Stream::new(s.setup, s.ring.complete(i), s.hand, s.flags, stats)
}

// Internal: slot i, which was out, is reaped: its completion decides on counters and answer.
fn reaped_slot(s: Stream, block: &[u8], i: usize, was_discarded: bool) -> Reply
    requires { (sound s ≡ true) × (s.hand ≡ Hand.Idle) × (i < s.setup.slots)
        × (is_out (state_of s.ring i) ≡ true) × (length block.now ≡ total_of s.setup) }
    ensures { Gives s (noticed_rule s.setup (cond was_discarded discarded out) i (view s) block.now)
        result block.now }
{
    let done = complete(s.setup, block, i, was_discarded);
    let stats = totals_after(s.stats, done);
    Reply {
        stream: returned(s, i, stats),
        answer: answer_for(done),
    }
}

// Internal: a notice of slot i, by the slot's state. One that is not out is Free: the hand is Idle.
fn noticed(s: Stream, block: &[u8], i: usize) -> Reply
    requires { (sound s ≡ true) × (s.hand ≡ Hand.Idle) × (i < s.setup.slots)
        × (length block.now ≡ total_of s.setup) }
    ensures { Gives s (noticed_rule s.setup (mark_of (view s) i) i (view s) block.now)
        result block.now }
{
    let was_discarded = s.ring.is_discarding(i);
    if s.ring.is_out(i) {
        reaped_slot(s, block, i, was_discarded)
    } else {
        refused(s, Error::StrayNotice)
    }
}

// Internal: a notice, by the address of its URB. The kernel reports each URB of the file descriptor, so it may be no
// slot's.
fn by_address(s: Stream, block: &[u8], address: usize) -> Reply
    requires { (sound s ≡ true) × (s.hand ≡ Hand.Idle) × (length block.now ≡ total_of s.setup) }
    ensures { Gives s (by_address s.setup (slot_of_urb s.setup address block.now)
        (view s) block.now) result block.now }
{
    match slot_of_urb(s.setup, block, address) {
        None => Reply {
            stream: s,
            answer: Answer::Foreign,
        },
        Some(i) => noticed(s, block, i),
    }
}

// Internal: an errno, for which the block is not looked at. EAGAIN, 11, says that no URB is done yet.
fn by_errno(s: Stream, errno: u32) -> Reply
    requires { sound s ≡ true }
    ensures { Gives s (by_errno errno (view s) []) result [] }
{
    if errno == 11 {
        Reply {
            stream: s,
            answer: Answer::Nothing,
        }
    } else {
        refused(s, Error::from_errno(errno, ErrnoContext::Other))
    }
}

// Internal: reaped with the hand Idle, by the kernel's reply.
fn reaped_idle(s: Stream, reply: Result<usize, u32>, block: &[u8]) -> Reply
    requires { (sound s ≡ true) × (s.hand ≡ Hand.Idle) × (length block.now ≡ total_of s.setup) }
    ensures { Gives s (reaped_idle reply s.setup (view s) block.now) result block.now }
{
    match reply {
        Err(errno) => by_errno(s, errno),
        Ok(address) => by_address(s, block, address),
    }
}

// Takes the kernel's reply: an errno, or the address of a URB that is done. The block is only read.
pub fn reaped(s: Stream, reply: Result<usize, u32>, block: &[u8]) -> Reply
    ensures { Told (Call.reaped reply block.now) s result.answer result.stream block.now }
{
    match idle_gate(&s, Some(block.len())) {
        Err(e) => refused(s, e),
        Ok(()) => reaped_idle(s, reply, block),
    }
}
