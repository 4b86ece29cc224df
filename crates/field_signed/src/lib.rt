// Elements as signed whole numbers (01, "Signed reading").
#![tactic(auto)]

ghost use Rattle.std.specs.Prelude.{◌≡◌};
ghost use Rattle.field_signed.specs.Signed.{signed_outcome, element_outcome};

use field::Modulus;
use refusal::Refusal;

// The signed reading of element v: v up to half of q, and v - q above.
pub fn signed_reading(number: u32, v: u32) -> Result<i64, Refusal>
    ensures { result ≡ signed_outcome number v }
{
    let modulus = Modulus::try_from(number)?;
    let q = field::prime_of(modulus);
    if q <= v {
        return Err(Refusal::Element);
    }
    let top = q - 1;
    if v <= top / 2 {
        return Ok(v as i64);
    }
    Ok(v as i64 - q as i64)
}

// The way back: the element whose signed reading is the value.
pub fn element_of(number: u32, value: i64) -> Result<u32, Refusal>
    ensures { result ≡ element_outcome number value }
{
    let modulus = Modulus::try_from(number)?;
    let q = field::prime_of(modulus);
    let top = q - 1;
    let half = (top / 2) as i64;
    if value < -half || half < value {
        return Err(Refusal::Signed);
    }
    if 0 <= value {
        return Ok(value as u32);
    }
    Ok((value + q as i64) as u32)
}
