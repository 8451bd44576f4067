// Derives and prints the schedule of the shop's ring (Full speed, bInterval 1, 192 bytes a packet, 8 packets a URB,
// 8 URBs), and how many URBs a depth of 0 gives.
#![tactic(auto)]

use error::Error;
use schedule::{Depth, Schedule, Speed};
use std::io;

// A figure, or the number of its refusal.
fn line(rt: &impl Print, label: &str, figure: Result<u64, Error>, unit: &str) -> io::Result<()> {
    match figure {
        Ok(value) => println!(rt; "{label}: {value} {unit}"),
        Err(e) => println!(rt; "refused: {}", e.number()),
    }
}

fn main(rt: HostRuntime) -> io::Result<()> {
    let shop = Schedule::derive(Speed::Full, 1, 192, Depth::Urbs(8), Some(8));
    line(
        &rt,
        "packet interval",
        shop.map(|s| u64::from(s.packet_interval_us)),
        "us",
    )?;
    line(
        &rt,
        "URB duration",
        shop.and_then(Schedule::urb_duration_us),
        "us",
    )?;
    line(
        &rt,
        "in flight",
        shop.and_then(Schedule::in_flight_us),
        "us",
    )?;
    line(
        &rt,
        "memory",
        shop.and_then(Schedule::memory_bytes),
        "bytes",
    )?;
    for (label, depth) in [
        ("depth of 0 URBs", Depth::Urbs(0)),
        ("depth of 0 us", Depth::Micros(0)),
        ("depth of 0 ms", Depth::Millis(0)),
    ] {
        let derived = Schedule::derive(Speed::High, 4, 192, depth, Some(8));
        line(&rt, label, derived.map(|s| s.urbs as u64), "URBs")?;
    }
    Ok(())
}
