// The numbers of an image's parts, and where the parts start.
ghost use Rattle.std.specs.Prelude.{◌≡◌, cond, ◌≤◌};
ghost use Rattle.layout.specs.Numbers.{policy_number};
ghost use Rattle.image.specs.Image.{hand_numbers, setup_for, counter_numbers};
ghost use Rattle.image.specs.Reading.{queue_at, counters_at, image_size, header_for};

use layout::{Setup, Underrun};
use ring::Hand;
use stream::{Flags, IsoStats};

pub const SETUP_AT: usize = 24;

pub const HAND_AT: usize = SETUP_AT + 8 * 9;

pub const FLAGS_AT: usize = HAND_AT + 8 * 3;

pub const STATES_AT: usize = FLAGS_AT + 8 * 2;

// The bytes of an image but for its slots'.
pub const LEAST_SIZE: usize = STATES_AT + 8 * 8;

// Internal: where the queue starts, for n slots.
pub fn queue_at(n: usize) -> usize
    requires { n ≤ 256 }
    ensures { result ≡ queue_at n }
{
    STATES_AT + n
}

// Internal: where the counters start.
pub fn counters_at(n: usize) -> usize
    requires { n ≤ 256 }
    ensures { result ≡ counters_at n }
{
    queue_at(n) + 4 * n
}

// Internal: the bytes of an image of n slots.
pub fn size(n: usize) -> usize
    requires { n ≤ 256 }
    ensures { result ≡ image_size n }
{
    counters_at(n) + 8 * 8
}

#[tactic(auto, unfolding(layout::specs::Numbers::policy_number))]
fn policy_number(policy: Underrun) -> u64
    ensures { result ≡ policy_number policy }
{
    match policy {
        Underrun::Continue => 0,
        Underrun::FillSilence => 1,
        Underrun::Error => 2,
    }
}

#[tactic(auto, unfolding(crate::specs::Image::hand_numbers))]
fn hand_numbers(hand: Hand) -> [u64; 3]
    ensures { result ≡ hand_numbers hand }
{
    match hand {
        Hand::Idle => [0, 0, 0],
        Hand::Held(i) => [1, i as u64, 0],
        Hand::Sending(i) => [2, i as u64, 0],
        Hand::Silent(i, left) => [3, i as u64, left as u64],
    }
}

// What stands in a place of the queue: its slot, or 0 where the place is unused.
pub fn place(slot: u8, is_used: bool) -> u32
    ensures { result ≡ cond is_used slot 0 }
{
    if is_used { slot as u32 } else { 0 }
}

// Internal: the header's numbers.
#[tactic(auto, unfolding(crate::specs::Reading::header_for))]
pub fn header_numbers(n: usize, used: usize) -> [u64; 6]
    requires { n ≤ 256 }
    ensures { result ≡ header_for n used }
{
    [
        n as u64,
        used as u64,
        SETUP_AT as u64,
        STATES_AT as u64,
        queue_at(n) as u64,
        counters_at(n) as u64,
    ]
}

// The setup part's numbers.
pub fn setup_numbers(setup: Setup, hand: Hand, flags: Flags) -> [u64; 14]
    ensures { result ≡ setup_for setup hand flags.started flags.armed }
{
    let [kind, slot, left] = hand_numbers(hand);
    [
        setup.slots as u64,
        setup.packets_per_urb as u64,
        setup.packet_bytes as u64,
        setup.endpoint as u64,
        policy_number(setup.underrun),
        setup.silence_byte as u64,
        setup.base as u64,
        u64::from(setup.tagged),
        setup.frame_bytes as u64,
        kind,
        slot,
        left,
        u64::from(flags.started),
        u64::from(flags.armed),
    ]
}

// The counters' numbers.
#[tactic(auto, unfolding(crate::specs::Image::counter_numbers))]
pub fn counter_numbers(t: IsoStats) -> [u64; 8]
    ensures { result ≡ counter_numbers t }
{
    [
        t.urbs_submitted,
        t.urbs_completed,
        t.bytes_submitted,
        t.bytes_transferred,
        t.short_bytes,
        t.packet_errors,
        t.urb_errors,
        t.underruns,
    ]
}
