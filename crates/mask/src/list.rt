// The places of a mask as a list.
ghost use Rattle.std.specs.Prelude.{◌≡◌, ◌+◌, ◌≤◌, length};
ghost use Rattle.mask.specs.Bits.{bit, places};
ghost use Rattle.mask.specs.Masks.{member, list_of, with_more};

use crate::Mask;

// A list of places: the first count of `places`, and zeros behind them.
#[derive(Clone, Copy)]
pub struct MaskList {
    pub places: [u8; 256],
    pub count: usize,
}

// Internal: the list with the places of a word at its end, counted from base. A round finds the lowest place left by
// counting trailing zeros, and takes it out of the word.
fn list_word(mut list: MaskList, word: u64, base: usize) -> MaskList
    requires { (list.count + length (places base 64 (bit word)) ≤ 256) × (base ≤ 192) }
    ensures { result ≡ with_more list (places base 64 (bit word)) }
{
    let mut left = word;
    while left != 0 {
        list.places[list.count] = (base + left.trailing_zeros() as usize) as u8;
        list.count += 1;
        left &= left - 1;
    }
    list
}

impl Mask {
    // The places in it, ascending, each found by counting trailing zeros, one round for each.
    pub fn list(self) -> MaskList
        ensures { result ≡ list_of (places 0 256 (member self)) }
    {
        let list = MaskList {
            places: [0; 256],
            count: 0,
        };
        let list = list_word(list, self.a, 0);
        let list = list_word(list, self.b, 64);
        let list = list_word(list, self.c, 128);
        list_word(list, self.d, 192)
    }
}
