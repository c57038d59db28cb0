// Proofs: the sums of a proof's entries, and the test of a proof.
ghost use Rattle.std.specs.Prelude.{Ok, true, false, ◌≡◌, ℕ, ◌+◌, ◌-◌, ◌^◌, ◌≤◌, pos, length, replicate};
ghost use Rattle.formats.specs.Versions.{row_bytes};
ghost use Rattle.farkas.specs.Rows.{row_of, strictly};
ghost use Rattle.farkas.specs.Farkas.{sums_test, number_of};
ghost use Rattle.farkas.specs.Sums.{Spare};
ghost use Rattle.hypotheses.specs.Tables.{mark_with};
ghost use Rattle.hypotheses.specs.Listing.{GoodGroup};
ghost use Rattle.fields.specs.Answers.{got_as};
ghost use Rattle.papers.specs.Paper.{held_next};
ghost use Rattle.sums.specs.Summing.{rows_in, SoFar, SoughtFrom, SummedAfter, goal_at, tested, NoSums};

use crate::Reached;
use crate::lines::{add_line, line_at, line_strict, segment_of};
use farkas::{Bound, Mismatch, judge, judge_zero, strict_after};
use fields::versions::is_strict;
use fields::{Cause, Next, Refusal};
use hypotheses::Group;
use second_sheets::certificate::{entry, proof_head};

// The next entry of a proof, read and added to the sums. Where the sums at all unknowns and the summed bound were those of the first i
// entries, they are now those of the first i + 1 (document 02, order 3), from whatever place the entries begin at. After a refusal the sums
// are of no use.
// A part of the loop over entries wherever a proof is marked: a call for each costs, counted, up to a third more.
#[inline(always)]
fn add_entry(
    model: &[u8],
    second: &[u8],
    n: usize,
    table: &[u16],
    group: Group,
    reached: Reached,
    sums: &mut [i64],
) -> Result<Reached, Refusal>
    requires model_len_bound { (length model.now ≤ 32768) × ((length second.now ≤ 32768) × (n ≤ 8)) }
    requires in_bounds { (96 ≤ length table.now) × (GoodGroup model.now second.now n table.now group × (length sums.old ≡ group.width)) }
    requires sought_from { SoughtFrom table.now group reached × Spare (2 ^ 24 - 1) (row_of sums.old reached.bound) }
    ensures { (at i : ℕ) → SoFar model.now second.now n table.now group at i reached sums.old → SummedAfter model.now second.now n table.now group at (i + 1) sums.new result }
{
    let (read, place) = entry(second, reached.place, group.hypotheses, reached.least)?;
    let segment = segment_of(table, reached.segment, group.segments, read.hypothesis);
    let line = line_at(table, segment, group.segments, read.hypothesis);
    let bound = add_line(
        model,
        second,
        group.version,
        n,
        line,
        read.multiplier,
        sums,
        reached.bound,
    );
    let marked = line_strict(model, second, group.version, n, line);
    let strict = strict_after(reached.strict, read.multiplier, marked);
    let least = read.hypothesis + 1;
    Ok(Reached {
        place,
        least,
        segment,
        bound,
        strict,
    })
}

// So many entries of a proof, read from a place on and summed one by one; the sums must be 0 before.
// Part of a proof wherever it is marked, as its entries are.
#[inline(always)]
fn sum_entries(
    model: &[u8],
    second: &[u8],
    n: usize,
    table: &[u16],
    group: Group,
    at: usize,
    count: u32,
    sums: &mut [i64],
) -> Result<Reached, Refusal>
    requires model_len_bound { (length model.now ≤ 32768) × ((length second.now ≤ 32768) × ((n ≤ 8) × (count ≤ 128))) }
    requires in_bounds { (96 ≤ length table.now) × (GoodGroup model.now second.now n table.now group × NoSums group sums.old) }
    ensures { SummedAfter model.now second.now n table.now group at count sums.new result }
{
    let mut reached = Reached {
        place: at,
        least: 0,
        segment: 1,
        bound: 0,
        strict: false,
    };
    for _i in 0..count {
        reached = add_entry(model, second, n, table, group, reached, sums)?;
    }
    Ok(reached)
}

// The test of the sums of a proof with this k, whose goal stands at a place, or is no row.
fn verdict(
    second: &[u8],
    n: usize,
    group: Group,
    goal: usize,
    k: u32,
    sums: &mut [i64],
    bound: i64,
    strict: bool,
) -> Result<(), Mismatch>
    requires second_len_bound { (length second.now ≤ 32768) × ((n ≤ 8) × (group.shift + n ≤ length sums.old)) }
    requires n_in_bounds { ((group.zero ≡ false) → goal + row_bytes group.version n ≤ length second.now) × ((group.zero ≡ true) → k ≡ 0) }
    ensures result_value { number_of result ≡ sums_test k (strictly strict (row_of sums.old bound)) (goal_at second.now n group goal) }
    ensures sums_after { result ≡ Ok tt → sums.new ≡ replicate (length sums.old) (pos 0) }
{
    let summed = Bound {
        value: bound,
        strict,
    };
    if group.zero {
        return judge_zero(sums, summed);
    }
    let must = is_strict(group.version, second, goal);
    judge(sums, summed, k, group.shift, second, goal, n, must)
}

// What a proof that begins and ends at these places is answered.
fn judged(verdict: Result<(), Mismatch>, at: usize, end: usize) -> Next
    ensures { got_as tt result ≡ tested (number_of verdict) at end }
{
    match verdict {
        Ok(()) => Ok(end),
        Err(mismatch) => Err(Refusal(Cause::from(mismatch), at)),
    }
}

// A proof at a place, read and tested: from the hypotheses of a group's table, with the goal at a place. The sums must be 0 before, and
// where the proof passes they are 0 again; else they are of no use.
// Two loops mark proofs, and it is a part of both: a call for each costs, counted, up to half as many instructions again.
#[inline(always)]
pub fn mark_proof(
    model: &[u8],
    second: &[u8],
    n: usize,
    table: &[u16],
    group: Group,
    goal: usize,
    at: usize,
    sums: &mut [i64],
) -> Next
    requires model_len_bound { (length model.now ≤ 32768) × ((length second.now ≤ 32768) × (n ≤ 8)) }
    requires in_bounds { (96 ≤ length table.now) × (GoodGroup model.now second.now n table.now group × NoSums group sums.old) }
    requires n_in_bounds { (group.zero ≡ false) → goal + row_bytes group.version n ≤ length second.now }
    ensures value { got_as tt result ≡ held_next (mark_with (rows_in model.now second.now n table.now group) group.zero (goal_at second.now n group goal) second.now at) }
    ensures by_index { (end : ℕ) → result ≡ Ok end → NoSums group sums.new }
{
    let (head, next) = proof_head(second, at, group.zero)?;
    let reached = sum_entries(model, second, n, table, group, next, head.count, sums)?;
    let verdict = verdict(
        second,
        n,
        group,
        goal,
        head.k,
        sums,
        reached.bound,
        reached.strict,
    );
    judged(verdict, at, reached.place)
}
