// The calls that are lent no block and take no reply of the kernel: give_back, start, stop, finish.
#![tactic(auto)]

mod listed;

ghost use Rattle.std.specs.Prelude.{[], ◌≡◌};
ghost use Rattle.ledger.specs.Calls.{Call};
ghost use Rattle.ledger.specs.Told.{Told};

use error::Error;
use gate::{held_gate, idle_gate, put_back, refused};
use listed::write_list;
use stream::{Answer, Flags, Reply, Stream};

// Returns the slot in hand to the queue, unsent.
pub fn give_back(s: Stream) -> Reply
    ensures { Told Call.give_back s result.answer result.stream [] }
{
    match held_gate(&s, None) {
        Ok(i) => put_back(s, i, Answer::Done),
        Err(e) => refused(s, e),
    }
}

// If not started: started, and armed off, whatever was sent before. Else no effect. Nothing is sent here: the host's
// first commits fill the ring within one packet's interval, and silence sent ahead would delay every call by a ring.
pub fn start(s: Stream) -> Reply
    ensures { Told Call.start s result.answer result.stream [] }
{
    match idle_gate(&s, None) {
        Err(e) => refused(s, e),
        Ok(()) => {
            let flags = Flags {
                started: true,
                armed: s.flags.started && s.flags.armed,
            };
            Reply {
                stream: Stream { flags, ..s },
                answer: Answer::Done,
            }
        }
    }
}

// Marks each InFlight slot Discarding and lists it, for the host to discard its URB. The kernel still gives each
// back: it owns their memory until then, so they stay out until they are reaped.
#[tactic(auto, using(crate::proofs::Stopped::count_fits))]
pub fn stop(s: Stream, list: &mut [usize]) -> Reply
    ensures { Told (Call.stop list.old) s result.answer result.stream list.new }
{
    match idle_gate(&s, None) {
        Err(e) => refused(s, e),
        Ok(()) => {
            let listed = s.ring.states.in_flight.list();
            let count = listed.count;
            if list.len() < count {
                return refused(s, Error::ListTooShort);
            }
            write_list(&listed.places[..count], list);
            let flags = Flags {
                started: false,
                armed: false,
            };
            Reply {
                stream: Stream {
                    ring: s.ring.mark_discarding(),
                    flags,
                    ..s
                },
                answer: Answer::Stopped(count),
            }
        }
    }
}

// Yes exactly when no slot is out: only then may the host free the block.
pub fn finish(s: Stream) -> Reply
    ensures { Told Call.finish s result.answer result.stream [] }
{
    match idle_gate(&s, None) {
        Err(e) => refused(s, e),
        Ok(()) => {
            if s.ring.in_flight == 0 {
                Reply {
                    stream: s,
                    answer: Answer::Yes,
                }
            } else {
                refused(s, Error::Disconnected)
            }
        }
    }
}
