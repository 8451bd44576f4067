// Reading an image.
ghost use Rattle.std.specs.Prelude.{◌≡◌, false, cond, ◌&&◌, ◌+◌, ◌≤◌, leb, length, take, drop, get_or, MatchOption};
ghost use Prim.Native.Nat;
ghost use Rattle.sys.specs.Bytes.{field};
ghost use Rattle.layout.specs.Numbers.{policy_from};
ghost use Rattle.ring.specs.Counts.{table};
ghost use Rattle.encoding.specs.Codes.{state_number, state_from};
ghost use Rattle.opening.specs.Opened.{no_stream};
ghost use Rattle.encoding.specs.Words.{words, numbers_at, places, begins};
ghost use Rattle.image.specs.Image.{setup_for};
ghost use Rattle.image.specs.Reading.{setup_at, states_at, queue_at, counters_at, image_size, header_for, Roomy};
ghost use Rattle.image.specs.Reading.{hand_from, stats_from};
ghost use Rattle.image.specs.Reading.{setup_in, hand_in, flags_in, queue_in, ring_in, record_in, matches};

use crate::numbers::{
    FLAGS_AT, HAND_AT, LEAST_SIZE, SETUP_AT, STATES_AT, counters_at, header_numbers, place,
    queue_at, setup_numbers, size,
};
use encoding::{from_codes, has_words};
use layout::{Setup, Underrun};
use opening::no_stream;
use ring::{Hand, Ring};
use stream::{Flags, IsoStats, Stream};
use sys::field::{get_u32, get_u64};

// The policy of a number; any that names none is read as Continue.
#[tactic(auto, unfolding(layout::specs::Numbers::policy_from))]
pub fn policy_from(number: u64) -> Underrun
    ensures { result ≡ policy_from number }
{
    match number {
        1 => Underrun::FillSilence,
        2 => Underrun::Error,
        _ => Underrun::Continue,
    }
}

#[tactic(auto, unfolding(crate::specs::Reading::hand_from))]
fn hand_from(kind: u64, slot: u64, left: u64) -> Hand
    ensures { result ≡ hand_from kind slot left }
{
    match kind {
        0 => Hand::Idle,
        1 => Hand::Held(slot as usize),
        2 => Hand::Sending(slot as usize),
        _ => Hand::Silent(slot as usize, left as usize),
    }
}

// Internal: opening's values.
fn read_setup(image: &[u8]) -> Setup
    requires { image_size 0 ≤ length image.now }
    ensures { result ≡ setup_in image.now }
{
    Setup {
        slots: get_u64(image, SETUP_AT) as usize,
        packets_per_urb: get_u64(image, SETUP_AT + 8) as usize,
        packet_bytes: get_u64(image, SETUP_AT + 16) as usize,
        endpoint: (get_u64(image, SETUP_AT + 24) % 256) as u8,
        underrun: policy_from(get_u64(image, SETUP_AT + 32)),
        silence_byte: (get_u64(image, SETUP_AT + 40) % 256) as u8,
        base: get_u64(image, SETUP_AT + 48) as usize,
        tagged: get_u64(image, SETUP_AT + 56) == 1,
        frame_bytes: get_u64(image, SETUP_AT + 64) as usize,
    }
}

// Internal: the hand.
#[tactic(auto, unfolding(crate::specs::Reading::hand_in))]
fn read_hand(image: &[u8]) -> Hand
    requires { image_size 0 ≤ length image.now }
    ensures { result ≡ hand_in image.now }
{
    hand_from(
        get_u64(image, HAND_AT),
        get_u64(image, HAND_AT + 8),
        get_u64(image, HAND_AT + 16),
    )
}

// Internal: started and armed.
#[tactic(auto, unfolding(crate::specs::Reading::flags_in))]
fn read_flags(image: &[u8]) -> Flags
    requires { image_size 0 ≤ length image.now }
    ensures { result ≡ flags_in image.now }
{
    Flags {
        started: get_u64(image, FLAGS_AT) == 1,
        armed: get_u64(image, FLAGS_AT + 8) == 1,
    }
}

// Internal: the counters of n slots.
fn read_stats(image: &[u8], n: usize) -> IsoStats
    requires { (n ≤ 256) × (image_size n ≤ length image.now) }
    ensures { result ≡ stats_from (numbers_at 8 8 (counters_at n) image.now) }
{
    let at = counters_at(n);
    IsoStats {
        urbs_submitted: get_u64(image, at),
        urbs_completed: get_u64(image, at + 8),
        bytes_submitted: get_u64(image, at + 16),
        bytes_transferred: get_u64(image, at + 24),
        short_bytes: get_u64(image, at + 32),
        packet_errors: get_u64(image, at + 40),
        urb_errors: get_u64(image, at + 48),
        underruns: get_u64(image, at + 56),
    }
}

// Internal: the queue's places.
fn read_queue(image: &[u8], n: usize) -> [u8; 256]
    requires { (n ≤ 256) × (image_size n ≤ length image.now) }
    ensures { result ≡ queue_in n image.now }
{
    let at = queue_at(n);
    let mut free = [0; 256];
    for (i, place) in free[..n].iter_mut().enumerate() {
        *place = (get_u32(image, at + 4 * i) % 256) as u8;
    }
    free
}

// Internal: how many places of the queue are used, at most n.
fn read_used(image: &[u8], n: usize) -> usize
    requires { image_size 0 ≤ length image.now }
    ensures { result ≡ Nat.min (field 4 4 image.now) n }
{
    (get_u32(image, 4) as usize).min(n)
}

// Internal: slots, queue with so many used places, and out count.
fn read_ring(image: &[u8], n: usize, used: usize) -> Ring
    requires { (n ≤ 256) × (image_size n ≤ length image.now) × (used ≡ Nat.min (field 4 4 image.now) n) }
    ensures { result ≡ ring_in n image.now }
{
    from_codes(&image[STATES_AT..queue_at(n)], read_queue(image, n), used)
}

// Internal: whether each of n states is 0 to 3.
fn states_match(image: &[u8], n: usize) -> bool
    requires { (n ≤ 256) × (image_size n ≤ length image.now) }
    ensures { result ≡ begins (words 1 (table (λ i. state_number (state_from (get_or image.now (states_at + i) 0))) n))
        (drop states_at image.now) }
{
    image[STATES_AT..STATES_AT + n]
        .iter()
        .all(|&code| code <= 3)
}

// Internal: whether each used place of the queue is a byte and each other one is zero.
fn queue_matches(image: &[u8], n: usize, used: usize) -> bool
    requires { (n ≤ 256) × (used ≤ n) × (image_size n ≤ length image.now) }
    ensures { result ≡ begins (words 4 (places n (take used (queue_in n image.now))))
        (drop (queue_at n) image.now) }
{
    let at = queue_at(n);
    (0..n).all(|i| {
        let number = get_u32(image, at + 4 * i);
        number == place((number % 256) as u8, i < used)
    })
}

// Internal: whether header and setup have these numbers.
fn head_matches(image: &[u8], setup: Setup, used: usize, hand: Hand, flags: Flags) -> bool
    requires { (setup.slots ≤ 256) × (used ≤ 256) × (image_size 0 ≤ length image.now) }
    ensures { result ≡ (begins (words 4 (header_for setup.slots used)) image.now
        && begins (words 8 (setup_for setup hand flags.started flags.armed))
        (drop setup_at image.now)) }
{
    has_words(image, 0, 4, &header_numbers(setup.slots, used))
        && has_words(image, SETUP_AT, 8, &setup_numbers(setup, hand, flags))
}

// Internal: reads the parts and compares each with the image of what was read. Counters of any bytes are an image's.
fn read_parts(image: &[u8], n: usize) -> Stream
    requires { Roomy n image.now }
    ensures { result ≡ cond (matches image.now) (record_in image.now) no_stream }
{
    let setup = read_setup(image);
    let hand = read_hand(image);
    let flags = read_flags(image);
    let used = read_used(image, n);
    if !head_matches(image, setup, used, hand, flags)
        || !states_match(image, n)
        || !queue_matches(image, n, used)
    {
        return no_stream();
    }
    let ring = read_ring(image, n, used);
    let stats = read_stats(image, n);
    Stream::new(setup, ring, hand, flags, stats)
}

// Internal: how many slots the setup has, if there are at most 256 and the bytes are enough for the image of so many.
fn slots_in(image: &[u8]) -> Option<usize>
    ensures { MatchOption result ((leb (setup_in image.now).slots 256 && matches image.now) ≡ false)
        (λ n. Roomy n image.now) }
{
    if image.len() < LEAST_SIZE {
        return None;
    }
    let n = get_u64(image, SETUP_AT) as usize;
    if n <= 256 && size(n) <= image.len() {
        Some(n)
    } else {
        None
    }
}

// Internal: the record that stands in the bytes, where they begin with its image; else one that 8 refuses. Whether the
// record that stands there is sound is the call's own test.
pub fn read_image(image: &[u8]) -> Stream
    ensures { result ≡ cond (leb (setup_in image.now).slots 256 && matches image.now)
        (record_in image.now) no_stream }
{
    let Some(n) = slots_in(image) else {
        return no_stream();
    };
    read_parts(image, n)
}
