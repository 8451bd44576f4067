// Writing an image.
ghost use Rattle.std.specs.Prelude.{◌≡◌, true, ◌+◌, ◌*◌, ◌≤◌, length, take};
ghost use Rattle.sys.specs.Bytes.{store};
ghost use Rattle.ring.specs.Counts.{table};
ghost use Rattle.encoding.specs.Codes.{state_number};
ghost use Rattle.ring.specs.Parts.{queue_of, state_of};
ghost use Rattle.stream.specs.Sound.{sound};
ghost use Rattle.encoding.specs.Words.{words, places};
ghost use Rattle.image.specs.Image.{setup_for, image as image_bytes};
ghost use Rattle.image.specs.Reading.{setup_at, states_at, queue_at, image_size, header_for};

use crate::numbers::{
    SETUP_AT, STATES_AT, counter_numbers, counters_at, header_numbers, place, queue_at,
    setup_numbers,
};
use encoding::{put_states, put_words};
use layout::Setup;
use ring::{Hand, Ring};
use stream::{Flags, Stream};
use sys::field::put_u32;

// Internal: header and setup.
fn write_head(setup: Setup, used: usize, hand: Hand, flags: Flags, image: &mut [u8])
    requires { (setup.slots ≤ 256) × (image_size 0 ≤ length image.old) }
    ensures { image.new
        ≡ store setup_at (words 8 (setup_for setup hand flags.started flags.armed))
        (store 0 (words 4 (header_for setup.slots used)) image.old) }
{
    put_words(image, 0, 4, &header_numbers(setup.slots, used));
    put_words(image, SETUP_AT, 8, &setup_numbers(setup, hand, flags))
}

// Internal: these places of the queue, of which so many are used.
fn put_queue(image: &mut [u8], at: usize, free: &[u8], used: usize)
    requires { (length free.now ≤ 256) × (at + 4 * length free.now ≤ length image.old) }
    ensures { image.new ≡ store at (words 4 (places (length free.now) (take used free.now))) image.old }
{
    for (i, &slot) in free.iter().enumerate() {
        put_u32(image, at + 4 * i, place(slot, i < used));
    }
}

// Internal: states and queue of n slots.
fn write_ring(ring: &Ring, n: usize, image: &mut [u8])
    requires { (n ≤ 256) × (image_size n ≤ length image.old) }
    ensures { image.new
        ≡ store (queue_at n) (words 4 (places n (queue_of ring.now)))
        (store states_at (table (λ i. state_number (state_of ring.now i)) n) image.old) }
{
    let end = queue_at(n);
    put_states(*ring, &mut image[STATES_AT..end]);
    put_queue(image, end, &ring.free[..n], ring.free_len)
}

// Internal: stores the image of a sound record.
pub fn write_image(s: Stream, image: &mut [u8])
    requires { (sound s ≡ true) × (image_size s.setup.slots ≤ length image.old) }
    ensures { image.new ≡ store 0 (image_bytes s) image.old }
{
    let n = s.setup.slots;
    write_head(s.setup, s.ring.free_len, s.hand, s.flags, image);
    write_ring(&s.ring, n, image);
    put_words(image, counters_at(n), 8, &counter_numbers(s.stats))
}
