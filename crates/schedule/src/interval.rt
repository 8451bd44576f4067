// The time between two packets of an isochronous endpoint.
ghost use Rattle.std.specs.Prelude.{◌≡◌};
ghost use Rattle.schedule.specs.Interval.{packet_interval_us};

use super::speed::Speed;
use error::Error;

// bInterval is an exponent: the period is 2^(bInterval - 1) service intervals, capped.
#[tactic(auto, unfolding(crate::specs::Interval::packet_interval_us, crate::specs::Interval::interval_from))]
pub fn packet_interval_us(speed: Speed, b_interval: u8) -> Result<u32, Error>
    ensures { result ≡ packet_interval_us speed b_interval }
{
    let base = speed.service_interval_us().ok_or(Error::UnsupportedSpeed)?;
    if !(1..=16).contains(&b_interval) {
        return Err(Error::InvalidInterval);
    }
    let intervals = 1u32 << (b_interval - 1);
    Ok(base * intervals.min(speed.max_intervals()))
}
