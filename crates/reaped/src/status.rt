// What the status of a URB says of the device.
ghost use Rattle.std.specs.Prelude.{◌≡◌};
ghost use Rattle.ledger.specs.Reaped.{is_gone};
ghost use Rattle.reaped.specs.Completed.{answer_for};

use error::Error;
use stream::{Answer, Completion};

// ENODEV or ESHUTDOWN, negated as the kernel gives them.
#[tactic(auto, unfolding(ledger::specs::Reaped::is_gone))]
fn is_gone(status: i32) -> bool
    ensures { result ≡ is_gone status }
{
    matches!(status, -19 | -108)
}

// 13 for a device that is gone, but not by a URB that was discarded.
#[tactic(auto, unfolding(crate::specs::Completed::answer_for))]
pub fn answer_for(done: Completion) -> Answer
    ensures { result ≡ answer_for done }
{
    if is_gone(done.status) && !done.was_discarded {
        Answer::Refused(Error::Disconnected)
    } else {
        Answer::Completed(done)
    }
}
