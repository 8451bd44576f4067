// Little-endian numbers in a lent slice. What reads or writes is internal: it asks for room at its offset, and
// every caller proves it.
ghost use Rattle.std.specs.Prelude.{◌≡◌, ◌+◌, ◌≤◌, ◌<◌, ◌^◌, leb, length};
ghost use Rattle.sys.specs.Bytes.{le, field, store, laid_fields};
ghost use Rattle.sys.specs.Signed.{signed, unsigned, non_negative};

// Whether the slice has `size` bytes at `at`.
pub fn has_room(s: &[u8], at: usize, size: usize) -> bool
    ensures { result ≡ leb (at + size) (length s.now) }
{
    at.checked_add(size).is_some_and(|end| end <= s.len())
}

// Internal: the number in the `width` bytes at `at`, from its highest byte down.
pub fn get(s: &[u8], at: usize, width: usize) -> u64
    requires { (width ≤ 8) × (at + width ≤ length s.now) }
    ensures { (result ≡ field at width s.now) × (result < 256 ^ width) }
{
    let mut value = 0;
    for i in (0..width).rev() {
        value = 256 * value + u64::from(s[at + i]);
    }
    value
}

// Internal: stores the `width` low bytes of `value` at `at`, from the lowest up.
pub fn put(s: &mut [u8], at: usize, width: usize, value: u64)
    requires { at + width ≤ length s.old }
    ensures { s.new ≡ store at (le width value) s.old }
{
    let mut rest = value;
    for byte in s[at..at + width].iter_mut() {
        *byte = (rest % 256) as u8;
        rest /= 256;
    }
}

// The signed number that stands as `bits`.
#[tactic(auto, unfolding(crate::specs::Signed::signed))]
pub fn to_signed(bits: u32) -> i32
    ensures { result ≡ signed bits }
{
    bits.cast_signed()
}

// The number below 2^32 that stands for `x`.
pub fn to_unsigned(x: i32) -> u32
    ensures { result ≡ unsigned x }
{
    x.cast_unsigned()
}

// Internal: the byte at `at`.
pub fn get_u8(s: &[u8], at: usize) -> u8
    requires { at + 1 ≤ length s.now }
    ensures { result ≡ field at 1 s.now }
{
    get(s, at, 1) as u8
}

// Internal: the unsigned number in the 4 bytes at `at`.
pub fn get_u32(s: &[u8], at: usize) -> u32
    requires { at + 4 ≤ length s.now }
    ensures { result ≡ field at 4 s.now }
{
    get(s, at, 4) as u32
}

// Internal: the unsigned number in the 8 bytes at `at`.
pub fn get_u64(s: &[u8], at: usize) -> u64
    requires { at + 8 ≤ length s.now }
    ensures { result ≡ field at 8 s.now }
{
    get(s, at, 8)
}

// Internal: the signed number in the 4 bytes at `at`.
pub fn get_i32(s: &[u8], at: usize) -> i32
    requires { at + 4 ≤ length s.now }
    ensures { result ≡ signed (field at 4 s.now) }
{
    to_signed(get_u32(s, at))
}

// A signed number, or 0 where it is negative.
pub fn non_negative(x: i32) -> u64
    ensures { result ≡ non_negative x }
{
    u64::try_from(x).unwrap_or(0)
}

// Internal: stores an unsigned number in the 4 bytes at `at`.
pub fn put_u32(s: &mut [u8], at: usize, value: u32)
    requires { at + 4 ≤ length s.old }
    ensures { s.new ≡ store at (le 4 value) s.old }
{
    put(s, at, 4, value as u64)
}

// Internal: stores numbers one after the other from `at` on, each with its width in bytes before it.
pub fn lay(s: &mut [u8], at: usize, fields: &[(usize, u64)])
    requires { at + length (laid_fields fields.now) ≤ length s.old }
    ensures { s.new ≡ store at (laid_fields fields.now) s.old }
{
    let mut next = at;
    for &(width, value) in fields {
        put(s, next, width, value);
        next += width;
    }
}
