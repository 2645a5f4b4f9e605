ghost use Rattle.std.specs.Prelude.{◌≡◌, ◌-◌, ◌^◌, min, true, false, IfSome, None};
ghost use Rattle.nim_lex.specs.Numbers as spec;

/// The greatest number of 64 bits with a sign.
const MOST: u64 = 9_223_372_036_854_775_807;

/// The number that digits write, or the greatest of a `u64` where it is greater.
pub fn number(digits: &[u8]) -> u64
    ensures { result ≡ min (spec.decimal_value digits.now) (2 ^ 64 - 1) }
{
    let mut value = 0u64;
    for digit in digits {
        let unit = u64::from(digit.saturating_sub(b'0'));
        value = value.saturating_mul(10).saturating_add(unit);
    }
    value
}

/// A number with its sign, where that is in the range of 64 bits with a sign.
pub fn signed(negative: bool, number: u64) -> Option<i64>
    ensures some { IfSome result (λ value. (spec.in_range negative number ≡ true)
        × (value ≡ spec.signed negative number)) }
    ensures none { result ≡ None → spec.in_range negative number ≡ false }
{
    if number <= MOST {
        let value = number as i64;
        Some(if negative { -value } else { value })
    } else if negative && number == MOST + 1 {
        Some(i64::MIN)
    } else {
        None
    }
}
