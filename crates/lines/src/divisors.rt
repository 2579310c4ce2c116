// Greatest common divisors, by division with remainder.
ghost use Rattle.std.specs.Prelude.{◌≡◌};
ghost use Rattle.pb.specs.Tightened.{divisor_of, gcd};

use pb::working::WorkingTerm;

// The greatest common divisor of two numbers; that of a number and 0 is the number.
fn greatest(a: u32, b: u32) -> u32
    ensures { result ≡ gcd a b }
{
    let mut x = a;
    let mut y = b;
    while y != 0 {
        (x, y) = (y, x % y);
    }
    x
}

// The greatest common divisor of the weights, 0 where every weight is 0.
pub(crate) fn common(terms: &[WorkingTerm]) -> u32
    ensures { result ≡ divisor_of terms.now }
{
    terms
        .iter()
        .rev()
        .fold(0, |divisor, t| greatest(t.weight, divisor))
}
