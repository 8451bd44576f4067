// The call turn: the middle of the Rust's next_slot.
#![tactic(auto)]

ghost use Rattle.std.specs.Prelude.{◌≡◌, true, length};
ghost use Rattle.layout.specs.Opening.{total_of};
ghost use Rattle.ring.specs.declared.Hand.{Hand};
ghost use Rattle.stream.specs.Sound.{sound};
ghost use Rattle.ledger.specs.Calls.{Call};
ghost use Rattle.ledger.specs.Gives.{Gives};
ghost use Rattle.ledger.specs.Record.{view, stored};
ghost use Rattle.ledger.specs.Told.{Told};
ghost use Rattle.ledger.specs.Turn.{drained as drained_ledger, underrun, on_underrun, turn_idle};

use error::Error;
use front::{silence_taken, take_front, take_silent};
use gate::{idle_gate, refused};
use layout::Underrun;
use stream::{Flags, IsoStats, Reply, Stream};

// Internal: whether the stream has drained: started, armed and none out.
fn drained(s: Stream) -> bool
    requires { sound s ≡ true }
    ensures { result ≡ drained_ledger (view s) }
{
    s.flags.started && s.flags.armed && s.ring.in_flight == 0
}

// Internal: counts an underrun, once for each time that the stream drains: only an acceptance arms it again.
fn count_underrun(s: Stream) -> Stream
    requires { sound s ≡ true }
    ensures { result ≡ stored s (underrun (view s)) }
{
    let flags = Flags {
        armed: false,
        ..s.flags
    };
    let stats = IsoStats {
        underruns: s.stats.underruns.wrapping_add(1),
        ..s.stats
    };
    Stream { flags, stats, ..s }
}

// Internal: counts an underrun; then the policy decides.
fn on_underrun(s: Stream, block: &mut [u8]) -> Reply
    requires { (sound s ≡ true) × (s.hand ≡ Hand.Idle) × (length block.old ≡ total_of s.setup) }
    ensures { Gives s (on_underrun s.setup.underrun s.setup (underrun (view s)) block.old)
        result block.new }
{
    let counted = count_underrun(s);
    match s.setup.underrun {
        Underrun::Continue => take_front(counted),
        Underrun::FillSilence => {
            let done = take_silent(counted, 1);
            silence_taken(s.setup, done.stream.hand, block);
            done
        }
        Underrun::Error => refused(counted, Error::Underrun(counted.stats.underruns)),
    }
}

// Internal: turn with the hand Idle.
fn turn_idle(s: Stream, block: &mut [u8]) -> Reply
    requires { (sound s ≡ true) × (s.hand ≡ Hand.Idle) × (length block.old ≡ total_of s.setup) }
    ensures { Gives s (turn_idle s.setup (view s) block.old) result block.new }
{
    if drained(s) {
        on_underrun(s, block)
    } else {
        take_front(s)
    }
}

// The next slot for the host, or a silent one to submit where the stream has drained and the policy says so.
pub fn turn(s: Stream, block: &mut [u8]) -> Reply
    ensures { Told (Call.turn block.old) s result.answer result.stream block.new }
{
    match idle_gate(&s, Some(block.len())) {
        Err(e) => refused(s, e),
        Ok(()) => turn_idle(s, block),
    }
}
