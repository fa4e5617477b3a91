// The arithmetic of the basis on ints of 32 bits: what a result outside them becomes, which divisors and which shift amounts are
// refused. Nothing else of the crate decides these.
ghost use Rattle.std.specs.Prelude.{◌≡◌, negsuc, ◌+ℤ◌, ◌-ℤ◌, ◌*ℤ◌, neg_ℤ};
ghost use Rattle.basis.specs.ArithmeticLaws.{Wraps, QuotientLaw, RemainderLaw, UnsignedQuotientLaw, UnsignedRemainderLaw, LeftShiftLaw, RightShiftLaw};
ghost use Rattle.basis.specs.Arithmetic.{sum, difference, product, negation, quotient, remainder_of, unsigned_quotient, unsigned_remainder_of, conjunction, disjunction, exclusion, complement_of, left_shift, right_shift};

use super::ArithmeticFault;

pub fn add(a: i32, b: i32) -> i32
    ensures value { result ≡ sum a b }
    ensures law { Wraps (a +ℤ b) result }
{
    a.wrapping_add(b)
}

pub fn subtract(a: i32, b: i32) -> i32
    ensures value { result ≡ difference a b }
    ensures law { Wraps (a -ℤ b) result }
{
    a.wrapping_sub(b)
}

pub fn multiply(a: i32, b: i32) -> i32
    ensures value { result ≡ product a b }
    ensures law { Wraps (a *ℤ b) result }
{
    a.wrapping_mul(b)
}

pub fn negate(a: i32) -> i32
    ensures value { result ≡ negation a }
    ensures law { Wraps (neg_ℤ a) result }
{
    a.wrapping_neg()
}

// A test of the divisor, here and in `remainder`: `checked_div` and `checked_rem` have no answer at the least int by -1, either.
pub fn divide(a: i32, b: i32) -> Result<i32, ArithmeticFault>
    ensures value { result ≡ quotient a b }
    ensures law { QuotientLaw a b result }
{
    if b == 0 {
        Err(ArithmeticFault::ZeroDivisor)
    } else {
        Ok(a.wrapping_div(b))
    }
}

pub fn remainder(a: i32, b: i32) -> Result<i32, ArithmeticFault>
    ensures value { result ≡ remainder_of a b }
    ensures law { RemainderLaw a b result }
{
    if b == 0 {
        Err(ArithmeticFault::ZeroDivisor)
    } else {
        Ok(a.wrapping_rem(b))
    }
}

pub fn unsigned_divide(a: i32, b: i32) -> Result<i32, ArithmeticFault>
    ensures value { result ≡ unsigned_quotient a b }
    ensures law { UnsignedQuotientLaw a b result }
{
    a.cast_unsigned()
        .checked_div(b.cast_unsigned())
        .map(|n| n.cast_signed())
        .ok_or(ArithmeticFault::ZeroDivisor)
}

pub fn unsigned_remainder(a: i32, b: i32) -> Result<i32, ArithmeticFault>
    ensures value { result ≡ unsigned_remainder_of a b }
    ensures law { UnsignedRemainderLaw a b result }
{
    a.cast_unsigned()
        .checked_rem(b.cast_unsigned())
        .map(|n| n.cast_signed())
        .ok_or(ArithmeticFault::ZeroDivisor)
}

pub fn bit_and(a: i32, b: i32) -> i32
    ensures { result ≡ conjunction a b }
{
    a & b
}

pub fn bit_or(a: i32, b: i32) -> i32
    ensures { result ≡ disjunction a b }
{
    a | b
}

pub fn bit_xor(a: i32, b: i32) -> i32
    ensures { result ≡ exclusion a b }
{
    a ^ b
}

pub fn complement(a: i32) -> i32
    ensures value { result ≡ complement_of a }
    ensures law { a +ℤ result ≡ negsuc 0 }
{
    !a
}

pub fn shift_left(a: i32, amount: i32) -> Result<i32, ArithmeticFault>
    ensures value { result ≡ left_shift a amount }
    ensures law { LeftShiftLaw a amount result }
{
    a.checked_shl(amount.cast_unsigned())
        .ok_or(ArithmeticFault::BadShift)
}

pub fn shift_right(a: i32, amount: i32) -> Result<i32, ArithmeticFault>
    ensures value { result ≡ right_shift a amount }
    ensures law { RightShiftLaw a amount result }
{
    a.checked_shr(amount.cast_unsigned())
        .ok_or(ArithmeticFault::BadShift)
}
