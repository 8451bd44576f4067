// A product of three numbers, refused where it does not fit 64 bits.
ghost use Rattle.std.specs.Prelude.{◌≡◌, ◌*◌};
ghost use Rattle.schedule.specs.Product.{product_of};

use error::Error;

// Judges the whole product: with a zero among the three it is zero, however large the others are.
#[tactic(auto, using(crate::proofs::Bounds::still_above), unfolding(crate::specs::Product::product_of))]
pub fn product_of(a: u64, b: u64, c: u64) -> Result<u64, Error>
    ensures { result ≡ product_of (a * b * c) }
{
    if c == 0 {
        return Ok(0);
    }
    let ab = a.checked_mul(b).ok_or(Error::ProductOverflow)?;
    ab.checked_mul(c).ok_or(Error::ProductOverflow)
}
