// Sets of slots as masks: 256 places as four words of bits.
#![tactic(auto)]

mod list;

ghost use Rattle.std.specs.Prelude.{false, not, ◌&&◌, ◌||◌, ◌≡◌, ◌<◌, eqb, ltb};
ghost use Rattle.std.specs.Bool.{beq};
ghost use Rattle.mask.specs.Masks.{member, table_word, mask_of, is_empty};

pub use list::MaskList;

// 256 places as four words of bits: place i is bit i % 64 of word i / 64.
#[derive(Clone, Copy)]
pub struct Mask {
    pub a: u64,
    pub b: u64,
    pub c: u64,
    pub d: u64,
}

// Internal: word q of the mask that has place i alone.
fn bit_in(i: usize, q: usize) -> u64
    ensures { result ≡ table_word (eqb i) q }
{
    if i / 64 == q { 1u64 << (i % 64) } else { 0 }
}

// Internal: word q of the places below n.
fn low(n: usize, q: usize) -> u64
    requires { q < 4 }
    ensures { result ≡ table_word (λ j. ltb j n) q }
{
    let from = q * 64;
    if n <= from {
        return 0;
    }
    if from + 64 <= n {
        return u64::MAX;
    }
    (1u64 << (n - from)) - 1
}

impl Mask {
    // No place.
    pub fn none() -> Mask
        ensures { result ≡ mask_of (λ j. false) }
    {
        Mask {
            a: 0,
            b: 0,
            c: 0,
            d: 0,
        }
    }

    // Place i alone; none where there is no place i.
    pub fn only(i: usize) -> Mask
        ensures { result ≡ mask_of (eqb i) }
    {
        Mask {
            a: bit_in(i, 0),
            b: bit_in(i, 1),
            c: bit_in(i, 2),
            d: bit_in(i, 3),
        }
    }

    // The places below n.
    pub fn below(n: usize) -> Mask
        ensures { result ≡ mask_of (λ j. ltb j n) }
    {
        Mask {
            a: low(n, 0),
            b: low(n, 1),
            c: low(n, 2),
            d: low(n, 3),
        }
    }

    // Internal: each word of this mask with that of the other.
    #[inline(always)]
    fn zip<F: Fn(u64, u64) -> u64>(self, other: Mask, f: F) -> Mask
        requires { F.IsAlwaysCallable f }
        ensures { F.post f self.a other.a result.a × F.post f self.b other.b result.b
            × F.post f self.c other.c result.c × F.post f self.d other.d result.d }
    {
        Mask {
            a: f(self.a, other.a),
            b: f(self.b, other.b),
            c: f(self.c, other.c),
            d: f(self.d, other.d),
        }
    }

    // The places in one or both.
    pub fn union(self, other: Mask) -> Mask
        ensures { result ≡ mask_of (λ j. member self j || member other j) }
    {
        self.zip(other, |x, y| x | y)
    }

    // The places in both.
    pub fn intersection(self, other: Mask) -> Mask
        ensures { result ≡ mask_of (λ j. member self j && member other j) }
    {
        self.zip(other, |x, y| x & y)
    }

    // The places that the other has not.
    pub fn difference(self, other: Mask) -> Mask
        ensures { result ≡ mask_of (λ j. member self j && not (member other j)) }
    {
        self.zip(other, |x, y| x & !y)
    }

    // The places in one and not in both.
    pub fn symmetric_difference(self, other: Mask) -> Mask
        ensures { result ≡ mask_of (λ j. not (beq (member self j) (member other j))) }
    {
        self.zip(other, |x, y| x ^ y)
    }

    // Whether it has no place.
    pub fn is_empty(self) -> bool
        ensures { result ≡ is_empty self }
    {
        self.a | self.b | self.c | self.d == 0
    }

    // Whether it has place i.
    pub fn has(self, i: usize) -> bool
        ensures { result ≡ member self i }
    {
        !self.intersection(Mask::only(i)).is_empty()
    }

    // With place i, where there is one.
    pub fn with(self, i: usize) -> Mask
        ensures { result ≡ mask_of (λ j. member self j || eqb i j) }
    {
        self.union(Mask::only(i))
    }

    // Without place i.
    #[inline(always)]
    pub fn without(self, i: usize) -> Mask
        ensures { result ≡ mask_of (λ j. member self j && not (eqb i j)) }
    {
        self.difference(Mask::only(i))
    }
}
