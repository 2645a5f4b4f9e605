ghost use Rattle.std.specs.Prelude.{◌≡◌};
ghost use Rattle.nim_base.specs.Functions.{quotient};

/// The quotient that leaves no negative remainder, 0 where the divisor is 0. It is `quotient` of
/// `specs/Functions.antt`.
pub fn divided(dividend: i64, divisor: i64) -> i64
    ensures { result ≡ quotient dividend divisor }
{
    match divisor {
        0 => 0,
        _ => dividend.wrapping_div_euclid(divisor),
    }
}
