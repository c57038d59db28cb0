// Whole numbers as a sheet's four bytes have them: without their signs, their common divisors, and divided. A number that is kept is raised
// by 2^31, so that kept numbers compare as the numbers do.
ghost use Rattle.std.specs.Prelude.{◌≡◌, map, ◌+◌, ◌*◌, ◌≤◌, ◌<◌, nat_abs, length};
ghost use Rattle.farkas.specs.Words.{signed, numbers_at, NumbersIn, row_in};
ghost use Rattle.fair_rows.specs.FairRows.{quotient};
ghost use Rattle.fair_conditions.specs.Held.{lowered, Common, CommonOf, RowDivisor, kept_numbers, KeptOutside};
ghost use Rattle.writing.specs.Writing.{twos};

use farkas::words::number;

// The highest bit of 32, and all of them.
const SIGN_BIT: u32 = 2147483648;

const ALL_BITS: u32 = 4294967295;

// A number without its sign: 2^31 where it is −2^31.
fn magnitude(code: u32) -> u32
    ensures { result ≡ nat_abs (signed code) }
{
    if code < SIGN_BIT {
        return code;
    }
    ALL_BITS - code + 1
}

// A number divided, raised.
fn raised_quotient(code: u32, divisor: u32) -> u32
    requires { 1 ≤ divisor }
    ensures { lowered result ≡ quotient divisor (signed code) }
{
    if code < SIGN_BIT {
        return code / divisor + SIGN_BIT;
    }
    SIGN_BIT - (ALL_BITS - code + 1) / divisor
}

// A raised number as four bytes have it.
pub(crate) fn coded(raised: u32) -> u32
    ensures { result ≡ twos (lowered raised) }
{
    if raised < SIGN_BIT {
        return raised + SIGN_BIT;
    }
    raised - SIGN_BIT
}

// The greatest common divisor of two numbers, by Euclid: 0 of two zeros. No `for`: nothing is counted.
fn common(a: u32, b: u32) -> u32
    ensures { Common a b result }
{
    let mut x = a;
    let mut y = b;
    while y != 0 {
        let rest = x % y;
        x = y;
        y = rest;
    }
    x
}

// The greatest common divisor of so many numbers, one after the other: 0 where all are 0.
fn common_of(s: &[u8], at: usize, count: usize) -> u32
    requires { NumbersIn s.now at count }
    ensures { CommonOf (numbers_at s.now at count) result }
{
    let mut divisor: u32 = 0;
    for i in (0..count).rev() {
        divisor = common(divisor, magnitude(number(s, at + 4 * i)));
    }
    divisor
}

// What a row with n coefficients is divided by, the greatest common divisor of its numbers, the bound among them; 0 where the row is
// dropped, one of zeros with a bound of at least 0.
pub(crate) fn row_divisor(s: &[u8], at: usize, n: usize) -> u32
    requires { NumbersIn s.now at (n + 1) }
    ensures { RowDivisor (row_in s.now at n) result }
{
    let coefficients = common_of(s, at, n);
    let bound = number(s, at + 4 * n);
    if coefficients == 0 {
        if bound < SIGN_BIT {
            return 0;
        }
        return magnitude(bound);
    }
    common(coefficients, magnitude(bound))
}

// So many numbers, divided and kept from a place on.
pub(crate) fn keep_divided(
    s: &[u8],
    at: usize,
    count: usize,
    divisor: u32,
    kept: &mut [u32],
    base: usize,
)
    requires { NumbersIn s.now at count × ((1 ≤ divisor) × (base + count ≤ length kept.old)) }
    ensures count_after { kept_numbers kept.new base count ≡ map (quotient divisor) (numbers_at s.now at count) }
    ensures kept_outside { KeptOutside base count kept.old kept.new }
{
    for i in (0..count).rev() {
        kept[base + i] = raised_quotient(number(s, at + 4 * i), divisor);
    }
}
