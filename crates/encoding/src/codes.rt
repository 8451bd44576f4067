// The states of a ring as bytes, a slot each: 0 to 3, as SlotState lists them. A number has two binary digits, and 64
// slots have a word of the low ones and a word of the high ones.
ghost use Rattle.std.specs.Prelude.{cond, ◌≡◌, ◌+◌, ◌*◌, ◌<◌, ◌≤◌, length, get_or};
ghost use Rattle.mask.specs.Bits.{bit};
ghost use Rattle.mask.specs.Masks.{word_at, table_word};
ghost use Rattle.ring.specs.Counts.{table, how_many};
ghost use Rattle.ring.specs.Parts.{state_of, ring_with};
ghost use Rattle.ring.specs.Slots.{is_filling, is_in_flight, is_discarding, is_out};
ghost use Rattle.encoding.specs.Codes.{state_number, state_from};

use mask::Mask;
use ring::{Ring, SlotStates};

// A word of each mask, and how many of its 64 slots are out.
#[derive(Clone, Copy)]
struct StateWords {
    filling: u64,
    in_flight: u64,
    discarding: u64,
    out: usize,
}

// Internal: word q of a mask.
#[tactic(auto, unfolding(mask::specs::Masks::word_at))]
fn word(mask: Mask, q: usize) -> u64
    requires { q < 4 }
    ensures { result ≡ word_at mask q }
{
    match q {
        0 => mask.a,
        1 => mask.b,
        2 => mask.c,
        _ => mask.d,
    }
}

// Internal: writes the numbers of at most 64 slots, of which these words have the states. The first slot's digits are
// the words' lowest, and each round shifts them out. Of a slot in two of the words the first counts.
fn put_slots(filling: u64, flying: u64, discarding: u64, codes: &mut [u8])
    requires { length codes.old ≤ 64 }
    ensures { codes.new
        ≡ table (λ j. cond (bit filling j) 1 (cond (bit flying j) 2 (cond (bit discarding j) 3 0)))
        (length codes.old) }
{
    let mut low = filling | discarding & !flying;
    let mut high = (flying | discarding) & !filling;
    for code in codes.iter_mut() {
        *code = (low % 2 + 2 * (high % 2)) as u8;
        low /= 2;
        high /= 2;
    }
}

// Internal: writes the states of the first slots, as many as there are bytes.
pub fn put_states(ring: Ring, codes: &mut [u8])
    requires { length codes.old ≤ 256 }
    ensures { codes.new ≡ table (λ i. state_number (state_of ring i)) (length codes.old) }
{
    let states = ring.states;
    let n = codes.len();
    for q in 0..n.div_ceil(64) {
        let from = q * 64;
        let to = n.min(from + 64);
        put_slots(
            word(states.filling, q),
            word(states.in_flight, q),
            word(states.discarding, q),
            &mut codes[from..to],
        );
    }
}

// A state's number, as it is read: any above 3 is Discarding's.
fn number_from(code: u8) -> u64
    ensures { result ≡ state_number (state_from code) }
{
    u64::from(code.min(3))
}

// Internal: the states of the slots of word q that stand in these bytes, the others Free. It goes from the last slot to
// the first, whose digits are then the words' lowest.
fn read_slots(codes: &[u8], q: usize) -> StateWords
    requires { q < 4 }
    ensures { (result.filling ≡ table_word (λ i. is_filling (state_from (get_or codes.now i 0))) q)
        × (result.in_flight ≡ table_word (λ i. is_in_flight (state_from (get_or codes.now i 0))) q)
        × (result.discarding ≡ table_word (λ i. is_discarding (state_from (get_or codes.now i 0))) q)
        × (how_many (q * 64) (λ i. is_out (state_from (get_or codes.now i 0))) + result.out
        ≡ how_many (q * 64 + 64) (λ i. is_out (state_from (get_or codes.now i 0)))) }
{
    let from = q * 64;
    let end = (from + 64).min(codes.len());
    let mut low: u64 = 0;
    let mut high: u64 = 0;
    let mut out: usize = 0;
    for at in (from..end).rev() {
        let number = number_from(codes[at]);
        low = low * 2 + number % 2;
        high = high * 2 + number / 2;
        out += (number / 2) as usize;
    }
    StateWords {
        filling: low & !high,
        in_flight: high & !low,
        discarding: low & high,
        out,
    }
}

// Internal: the mask that has this word of each of the four.
fn mask_with<F: Fn(StateWords) -> u64>(
    a: StateWords,
    b: StateWords,
    c: StateWords,
    d: StateWords,
    part: F,
) -> Mask
    requires { F.IsAlwaysCallable part }
    ensures { F.post part a result.a × F.post part b result.b × F.post part c result.c × F.post part d result.d }
{
    Mask {
        a: part(a),
        b: part(b),
        c: part(c),
        d: part(d),
    }
}

// Internal: a ring with the states that stand in these bytes, the others Free, and with these places of the queue.
pub fn from_codes(codes: &[u8], free: [u8; 256], free_len: usize) -> Ring
    requires { length codes.now ≤ 256 }
    ensures { result ≡ ring_with (length codes.now) (λ i. state_from (get_or codes.now i 0)) free
        free_len }
{
    let a = read_slots(codes, 0);
    let b = read_slots(codes, 1);
    let c = read_slots(codes, 2);
    let d = read_slots(codes, 3);
    let states = SlotStates {
        filling: mask_with(a, b, c, d, |w| w.filling),
        in_flight: mask_with(a, b, c, d, |w| w.in_flight),
        discarding: mask_with(a, b, c, d, |w| w.discarding),
    };
    Ring {
        states,
        free,
        free_len,
        in_flight: a.out + b.out + c.out + d.out,
    }
}
