// Numbers of one width, one after the other in a lent slice. What is internal asks for room, and every caller proves
// it.
ghost use Rattle.std.specs.Prelude.{◌≡◌, ℕ, ◌+◌, ◌*◌, ◌^◌, ◌<◌, ◌≤◌, length, drop, get_or};
ghost use Rattle.sys.specs.Bytes.{store};
ghost use Rattle.encoding.specs.Words.{words, numbers_at, begins, written};

use sys::field::{get, put};

// Internal: whether these numbers stand at `at`, `width` bytes each.
pub fn has_words(bytes: &[u8], at: usize, width: usize, values: &[u64]) -> bool
    requires width_bound { (width ≤ 8) × (at + length (words width values.now) ≤ length bytes.now) }
    requires by_index { (i : ℕ) → get_or values.now i 0 < 2 ^ 64 → get_or values.now i 0 < 256 ^ width }
    ensures { result ≡ begins (words width values.now) (drop at bytes.now) }
{
    let mut next = at;
    for &value in values {
        if get(bytes, next, width) != value {
            return false;
        }
        next += width;
    }
    true
}

// Internal: stores the numbers from `at` on, `width` bytes each.
pub fn put_words(bytes: &mut [u8], at: usize, width: usize, values: &[u64])
    requires { at + length (words width values.now) ≤ length bytes.old }
    ensures { bytes.new ≡ store at (words width values.now) bytes.old }
{
    let mut next = at;
    for &value in values {
        put(bytes, next, width, value);
        next += width;
    }
}

// Internal: reads numbers of 8 bytes from the start, as many as the list has places.
pub fn get_words(bytes: &[u8], values: &mut [usize])
    requires { 8 * length values.old ≤ length bytes.now }
    ensures { values.new ≡ numbers_at 8 (length values.old) 0 bytes.now }
{
    for (i, value) in values.iter_mut().enumerate() {
        *value = get(bytes, 8 * i, 8) as usize;
    }
}

// Writes the numbers to a slice, as many whole ones as fit.
pub fn write_numbers(values: &[u64], out: &mut [u8])
    ensures { out.new ≡ written values.now out.old }
{
    let fit = (out.len() / 8).min(values.len());
    put_words(out, 0, 8, &values[..fit]);
}
