// What a completion adds to the counters, each modulo 2^64.
ghost use Rattle.std.specs.Prelude.{◌≡◌};
ghost use Rattle.ledger.specs.Reaped.{urb_error, one_completed};
ghost use Rattle.reaped.specs.Completed.{totals_after};

use stream::{Completion, IsoStats};

// 1 for a URB with an error.
#[tactic(auto, unfolding(ledger::specs::Reaped::urb_error, ledger::specs::Reaped::is_zero))]
fn urb_error(status: i32) -> u64
    ensures { result ≡ urb_error status }
{
    u64::from(status != 0)
}

// The counters with one completion more.
#[tactic(auto, unfolding(ledger::specs::Reaped::one_completed, ledger::specs::Ledger::plus))]
fn one_completed(stats: IsoStats, done: Completion) -> IsoStats
    ensures { result ≡ one_completed done stats }
{
    IsoStats {
        urbs_completed: stats.urbs_completed.wrapping_add(1),
        bytes_transferred: stats.bytes_transferred.wrapping_add(done.actual_bytes),
        short_bytes: stats.short_bytes.wrapping_add(done.short_bytes),
        packet_errors: stats.packet_errors.wrapping_add(done.packet_errors),
        urb_errors: stats.urb_errors.wrapping_add(urb_error(done.status)),
        ..stats
    }
}

// The counters after a notice: a discarded URB is not counted.
#[tactic(auto, unfolding(crate::specs::Completed::totals_after))]
pub fn totals_after(stats: IsoStats, done: Completion) -> IsoStats
    ensures { result ≡ totals_after done stats }
{
    if done.was_discarded {
        stats
    } else {
        one_completed(stats, done)
    }
}
