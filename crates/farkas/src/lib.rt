// Rows and proofs: sums of linear rows a·x ≤ b, or a·x < b where they are strict, over up to 17 unknowns, and Farkas' test of them.
// A caller lends a slice with a number for each unknown, all 0, and keeps the summed bound beside it. It adds each entry's row straight from
// its bytes (`add_row`, `add_rates`, `add_one`), keeps with `strict_after` whether a strict row is among the summed, and asks `judge` whether
// the sums meet Farkas' condition against a goal that stands in bytes too. Where the test passes the sums are 0 again, ready for the next
// proof.
// Nothing here knows of sheets or models. Sizes are the caller's to bound: see `Spare` in specs/Sums.antt, and specs/Sizes.antt for what 01
// lets a proof have.
#![tactic(auto)]

pub mod words;

ghost use Rattle.std.specs.Prelude.{◌≡◌, true, Ok, [], ◌∷◌, ◌++◌, ◌+◌, ◌*◌, ◌^◌, ◌≤◌, ◌<◌, pos, neg_ℤ, nat_abs, ◌+ℤ◌, ◌*ℤ◌, length, replicate};
ghost use Rattle.farkas.specs.Lists.{every};
ghost use Rattle.farkas.specs.Rows.{row_of, strictly, compared, zero_row, onward, on_change};
ghost use Rattle.farkas.specs.Words.{NumbersIn, numbers_at, row_in};
ghost use Rattle.farkas.specs.Farkas.{strict_after, add_row, coefficients_agree, bound_passes, sums_test, number_of};
ghost use Rattle.farkas.specs.Sums.{plus_from, RoomAt, Spare, is_zero, agrees_at, cleared};

use crate::words::signed_word;

// What the test of a proof finds where it doesn't pass.
#[derive(Clone, Copy, Debug, PartialEq, Eq)]
pub enum Mismatch {
    CoefficientsDiffer,
    BoundFails,
}

// A summed bound, and whether a strict row is among the summed.
#[derive(Clone, Copy)]
pub struct Bound {
    pub value: i64,
    pub strict: bool,
}

// x + m * y: the one place where signed numbers are multiplied and added.
pub fn multiply_add(x: i64, m: i64, y: i64) -> i64
    requires { nat_abs x + nat_abs m * nat_abs y < 2 ^ 63 }
    ensures { result ≡ x +ℤ m *ℤ y }
{
    x + m * y
}

// So many numbers, m times, added to the sums from one on.
fn add_numbers(sums: &mut [i64], to: usize, words: &[u8], at: usize, count: usize, m: i64)
    requires count_in_bounds { (to + count ≤ length sums.old) × (RoomAt (nat_abs m) to count sums.old) }
    requires numbers_in { NumbersIn words.now at count }
    ensures { sums.new ≡ plus_from to m sums.old (numbers_at words.now at count) }
{
    for i in 0..count {
        sums[to + i] = multiply_add(sums[to + i], m, signed_word(words, at + 4 * i));
    }
}

// A number of times, and its opposite, with a sign. Beside the library's conversion each says how large the number is, once for all who
// add it.
pub fn times(m: u32) -> i64
    ensures { (result ≡ pos m) × (nat_abs result ≡ m) }
{
    i64::from(m)
}

pub fn opposite(m: u32) -> i64
    ensures { (result ≡ neg_ℤ (pos m)) × (nat_abs result ≡ m) }
{
    -i64::from(m)
}

// The sums with a row added m times, its coefficients on the unknowns from `shift` on; the bound is told.
pub fn add_row(
    sums: &mut [i64],
    bound: i64,
    m: u32,
    shift: usize,
    words: &[u8],
    at: usize,
    count: usize,
) -> i64
    requires count_in_bounds { (shift + count ≤ length sums.old) × Spare m (row_of sums.old bound) }
    requires numbers_in { NumbersIn words.now at (count + 1) }
    ensures { row_of sums.new result ≡ add_row (row_of sums.old bound) m (onward shift (row_in words.now at count)) }
{
    let by = i64::from(m);
    add_numbers(sums, shift, words, at, count, by);
    multiply_add(bound, by, signed_word(words, at + 4 * count))
}

// The sums with a row on rates added m times: −a on x, a on x', −b on d, bound 0. The bound stays.
pub fn add_rates(sums: &mut [i64], m: u32, words: &[u8], at: usize, count: usize)
    requires count_in_bounds { (count + count + 1 ≤ length sums.old) × (RoomAt m 0 (count + count + 1) sums.old) }
    requires numbers_in { NumbersIn words.now at (count + 1) }
    ensures { row_of sums.new (pos 0) ≡ add_row (row_of sums.old (pos 0)) m (on_change (row_in words.now at count)) }
{
    let more = i64::from(m);
    add_numbers(sums, 0, words, at, count, -more);
    add_numbers(sums, count, words, at, count, more);
    add_numbers(sums, count + count, words, at + 4 * count, 1, -more);
}

// The sums with m added at one unknown.
pub fn add_one(sums: &mut [i64], unknown: usize, m: i64)
    requires { (unknown < length sums.old) × (RoomAt (nat_abs m) unknown 1 sums.old) }
    ensures { sums.new ≡ plus_from unknown m sums.old (pos 1 ∷ []) }
{
    sums[unknown] = multiply_add(sums[unknown], m, 1);
}

// Whether a strict row is among the summed once a row was added m times: a multiplier of 0 does not count.
#[tactic(auto, unfolding(crate::specs::Farkas::strict_after, crate::specs::Farkas::counts))]
pub fn strict_after(before: bool, m: u32, strict: bool) -> bool
    ensures { result ≡ strict_after before m strict }
{
    before || (m != 0 && strict)
}

// Whether all these sums are 0. The closure has a clause of its own, since a sum is known to fit its type only where it is read.
fn all_zero(sums: &[i64]) -> bool
    ensures { result ≡ every is_zero sums.now }
{
    sums.iter().all(
        |sum|
            ensures { result ≡ is_zero sum.now }
        { *sum == 0 },
    )
}

// Whether the sums from one on are k times so many numbers; where they are, they are set to 0 again.
fn take_goal(sums: &mut [i64], from: usize, words: &[u8], at: usize, count: usize, k: u32) -> bool
    requires count_in_bounds { from + count ≤ length sums.old }
    requires numbers_in { NumbersIn words.now at count }
    ensures value { result ≡ agrees_at k from sums.old (numbers_at words.now at count) }
    ensures sums_after { result ≡ true → sums.new ≡ cleared from count sums.old }
{
    let by = i64::from(k);
    for i in 0..count {
        if sums[from + i] != multiply_add(0, by, signed_word(words, at + 4 * i)) {
            return false;
        }
        sums[from + i] = 0;
    }
    true
}

// Whether the sums are k times the coefficients of a row on the unknowns from `shift` on, and 0 at every other unknown.
fn agree(sums: &mut [i64], k: u32, shift: usize, words: &[u8], at: usize, count: usize) -> bool
    requires count_in_bounds { shift + count ≤ length sums.old }
    requires numbers_in { NumbersIn words.now at count }
    ensures value { result ≡ coefficients_agree k sums.old (replicate shift (pos 0) ++ numbers_at words.now at count) }
    ensures sums_after { result ≡ true → sums.new ≡ replicate (length sums.old) (pos 0) }
{
    all_zero(&sums[..shift])
        && take_goal(sums, shift, words, at, count, k)
        && all_zero(&sums[shift + count..])
}

// Whether a number is at most another, or below it where it must be.
#[tactic(auto, unfolding(crate::specs::Rows::compared))]
pub fn compare(strict: bool, a: i64, b: i64) -> bool
    ensures { result ≡ compared strict a b }
{
    if strict { a < b } else { a <= b }
}

// Whether the summed bound passes, against k times the goal's or, at k = 0, against 0. It must be below where a goal must be met strictly and
// no strict row is among the summed.
fn bound_passes(k: u32, sum: i64, strict: bool, goal: i64, must: bool) -> bool
    requires { nat_abs goal ≤ 2 ^ 31 }
    ensures { result ≡ bound_passes k sum strict goal must }
{
    if k == 0 {
        return compare(!strict, sum, 0);
    }
    let bound = multiply_add(0, i64::from(k), goal);
    compare(must && !strict, sum, bound)
}

// Farkas' test of the sums of a proof with this k, whose goal is a row on the unknowns from `shift` on, strict where it must be: numbers 0,
// 10 and 11 of document 01. Where it passes, the sums are 0 again; else they are of no use.
pub fn judge(
    sums: &mut [i64],
    bound: Bound,
    k: u32,
    shift: usize,
    words: &[u8],
    at: usize,
    count: usize,
    must: bool,
) -> Result<(), Mismatch>
    requires count_in_bounds { shift + count ≤ length sums.old }
    requires numbers_in { NumbersIn words.now at (count + 1) }
    ensures result_value { number_of result ≡ sums_test k (strictly bound.strict (row_of sums.old bound.value)) (onward shift (strictly must (row_in words.now at count))) }
    ensures sums_after { result ≡ Ok tt → sums.new ≡ replicate (length sums.old) (pos 0) }
{
    if !agree(sums, k, shift, words, at, count) {
        return Err(Mismatch::CoefficientsDiffer);
    }
    let goal = signed_word(words, at + 4 * count);
    if !bound_passes(k, bound.value, bound.strict, goal, must) {
        return Err(Mismatch::BoundFails);
    }
    Ok(())
}

// The same where the goal is 0 ≤ 0 and k is 0: all sums must be 0 and the bound below 0, or 0 with a strict row among the summed.
pub fn judge_zero(sums: &[i64], bound: Bound) -> Result<(), Mismatch>
    ensures result_value { number_of result ≡ sums_test 0 (strictly bound.strict (row_of sums.now bound.value)) zero_row }
    ensures sums_value { result ≡ Ok tt → sums.now ≡ replicate (length sums.now) (pos 0) }
{
    if !all_zero(sums) {
        return Err(Mismatch::CoefficientsDiffer);
    }
    if !bound_passes(0, bound.value, bound.strict, 0, false) {
        return Err(Mismatch::BoundFails);
    }
    Ok(())
}
