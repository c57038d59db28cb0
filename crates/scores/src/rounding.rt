// The score of a refused certificate, rounded to the nearest whole percent.
ghost use Rattle.std.specs.Prelude.{◌≡◌, ◌≤◌};
ghost use Rattle.rules.specs.Nearest.{nearest};
ghost use Rattle.rules.specs.Marking.{refused_score};

use std::cmp::Ordering;

// The nearest whole number of a fraction, at a half the even one. What is past the quotient is compared with what is left to the next.
fn nearest(part: u32, whole: u32) -> u32
    requires { 1 ≤ whole }
    ensures { result ≡ nearest part whole }
{
    let quotient = part / whole;
    let past = part % whole;
    let left = whole - past;
    match past.cmp(&left) {
        Ordering::Less => quotient,
        Ordering::Equal => quotient + quotient % 2,
        Ordering::Greater => quotient + 1,
    }
}

// 100 times the proofs that passed over all obligations, to the nearest whole number, or 100 if there are none; then at most 99.
pub fn refused_score(done: u32, total: u32) -> u32
    requires { done ≤ 1000000 }
    ensures { result ≡ refused_score done total }
{
    if total == 0 {
        return 99;
    }
    nearest(100 * done, total).min(99)
}
