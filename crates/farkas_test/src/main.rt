// Tries Farkas' test on the three proofs of document 01's certificate C, on a flow with time, at the ends of its ranges, and on strict rows
// (document 02, order 8). A line for each: the sums, the goal, k, and the number that the test finds; sums with a strict row among the summed
// and goals that must be met strictly are marked.
// T has one unknown x: start x ≤ 5 and −x ≤ −5, invariant x ≤ 10, rates 0 to 2, unsafe −x ≤ −11. C's region is x ≤ 10. A flow has the
// unknowns x, x' and d. Rows stand in bytes as in a sheet, four to a number, the bound last.
#![tactic(auto)]

mod rates;
mod strict;

ghost use Rattle.std.specs.Prelude.{◌≡◌, ◌+◌, ◌*◌, ◌^◌, ◌≤◌, ◌<◌, pos, length, replicate};
ghost use Rattle.farkas.specs.Words.{NumbersIn};
ghost use Rattle.farkas.specs.Rows.{row_of};
ghost use Rattle.farkas.specs.Farkas.{number_of};
ghost use Rattle.farkas.specs.Sizes.{Bytes, Within};

use farkas::words::signed_word;
use farkas::{Bound, Mismatch};
use std::io;

// Rows of one coefficient: the region x ≤ 10, which is the invariant too; the unsafe row −x ≤ −11; 0 ≤ 0; and the row with the lowest
// numbers, −2^31.
const REGION: [u8; 8] = [0, 0, 0, 1, 0, 0, 0, 10];

const UNSAFE: [u8; 8] = [255, 255, 255, 255, 255, 255, 255, 245];

const ZEROS: [u8; 8] = [0; 8];

const LOWEST: [u8; 8] = [128, 0, 0, 0, 128, 0, 0, 0];

// The largest multiplier and the largest k, 2^24 − 1.
const LARGEST: u32 = 16777215;

// A row in bytes, of n coefficients and a bound, whose coefficients stand on the unknowns from `shift` on.
#[derive(Clone, Copy)]
struct Row<'a> {
    words: &'a [u8],
    n: usize,
    shift: usize,
    ghost whole: { NumbersIn words.now 0 (n + 1) },
    ghost bytes: { Bytes words.now },
}

impl<'a> Row<'a> {
    fn new(words: &'a [u8], n: usize, shift: usize) -> Row<'a>
        requires { NumbersIn words.now 0 (n + 1) }
        ensures { (result.n ≡ n) × (result.shift ≡ shift) }
    {
        Row { words, n, shift }
    }

    // A row of one coefficient.
    fn on(words: &'a [u8], shift: usize) -> Row<'a>
        requires { NumbersIn words.now 0 2 }
        ensures { (result.n ≡ 1) × (result.shift ≡ shift) }
    {
        Row::new(words, 1, shift)
    }

    // The coefficient of an unknown.
    fn coefficient(self, unknown: usize) -> i64 {
        if unknown < self.shift || self.n <= unknown - self.shift {
            return 0;
        }
        signed_word(self.words, 4 * (unknown - self.shift))
    }

    fn bound(self) -> i64 {
        signed_word(self.words, 4 * self.n)
    }
}

// What sums are tested against: k times a row, which must be met strictly or need not.
#[derive(Clone, Copy)]
struct Goal<'a> {
    row: Row<'a>,
    k: u32,
    must: bool,
}

// The sums with a row, m times, added by each of so many entries; so many were added before. The bound is told. Sums of 128 entries fit.
fn entries(sums: &mut [i64], bound: i64, before: u32, count: u32, m: u32, row: Row) -> i64
    requires within { Within (before * 2 ^ 55) (row_of sums.old bound) }
    requires count_bound { (before + count ≤ 128) × (m < 2 ^ 24) }
    requires row_in_bounds { row.shift + row.n ≤ length sums.old }
    ensures { Within ((before + count) * 2 ^ 55) (row_of sums.new result) }
{
    let mut sum = bound;
    for _i in 0..count {
        sum = farkas::add_row(sums, sum, m, row.shift, row.words, 0, row.n);
    }
    sum
}

// The same where nothing was added before, so that all sums are 0.
fn first_entries(sums: &mut [i64], count: u32, m: u32, row: Row) -> i64
    requires sums_value { sums.old ≡ replicate (length sums.old) (pos 0) }
    requires count_bound { (count ≤ 128) × (m < 2 ^ 24) }
    requires row_in_bounds { row.shift + row.n ≤ length sums.old }
    ensures { Within (count * 2 ^ 55) (row_of sums.new result) }
{
    entries(sums, 0, 0, count, m, row)
}

// The sums of two entries: of one row m times, and of one more.
fn two_entries(sums: &mut [i64], m: u32, row: Row, more: Row) -> i64
    requires sums_value { (sums.old ≡ replicate (length sums.old) (pos 0)) × (m < 2 ^ 24) }
    requires row_in_bounds { (row.shift + row.n ≤ length sums.old) × (more.shift + more.n ≤ length sums.old) }
{
    let bound = first_entries(sums, 1, m, row);
    entries(sums, bound, 1, 1, 1, more)
}

// The sums of so many entries, m times each, of a row on the rates of n unknowns. The bound is 0.
fn entries_on_rates(sums: &mut [i64], count: u32, m: u32, words: &[u8], n: usize)
    requires sums_value { sums.old ≡ replicate (length sums.old) (pos 0) }
    requires count_bound { (count ≤ 128) × (m < 2 ^ 24) }
    requires n_in_bounds { (n + n + 1 ≤ length sums.old) × NumbersIn words.now 0 (n + 1) }
    ensures { Within (count * 2 ^ 55) (row_of sums.new (pos 0)) }
{
    for _i in 0..count {
        farkas::add_rates(sums, m, words, 0, n);
    }
}

// Writes the sums and the bound, marked where they are strict.
fn print_sums(rt: &impl Print, sums: &[i64], bound: Bound) -> io::Result<()> {
    print!(rt; ": sums")?;
    for sum in sums {
        print!(rt; " {sum}")?;
    }
    print!(rt; " bound {}{}", bound.value, mark(bound.strict))
}

// Writes the goal: its coefficients at so many unknowns, and its bound, marked where it must be met strictly; and k.
fn print_goal(rt: &impl Print, width: usize, goal: Goal) -> io::Result<()> {
    print!(rt; ", goal")?;
    for i in 0..width {
        print!(rt; " {}", goal.row.coefficient(i))?;
    }
    print!(rt;
        " bound {}{}, k {}",
        goal.row.bound(),
        mark(goal.must),
        goal.k
    )
}

// The mark of strict sums, or of a goal that must be met strictly.
fn mark(strict: bool) -> &'static str {
    if strict { " strict" } else { "" }
}

// The number of what the test finds.
#[tactic(auto, unfolding(farkas::specs::Farkas::number_of))]
fn number(found: Result<(), Mismatch>) -> u64
    ensures { result ≡ number_of found }
{
    match found {
        Ok(()) => 0,
        Err(Mismatch::CoefficientsDiffer) => 10,
        Err(Mismatch::BoundFails) => 11,
    }
}

// A summed bound without a strict row among the summed.
fn plain(value: i64) -> Bound {
    Bound {
        value,
        strict: false,
    }
}

// Tests sums against a goal, and writes the line.
fn try_marked(
    rt: &impl Print,
    name: &str,
    sums: &mut [i64],
    bound: Bound,
    goal: Goal,
) -> io::Result<()>
    requires { goal.row.shift + goal.row.n ≤ length sums.old }
{
    print!(rt; "{name}")?;
    print_sums(rt, sums, bound)?;
    print_goal(rt, sums.len(), goal)?;
    let row = goal.row;
    let found = farkas::judge(
        sums, bound, goal.k, row.shift, row.words, 0, row.n, goal.must,
    );
    println!(rt; ": {}", number(found))
}

// The same where nothing is strict.
fn try_sums(
    rt: &impl Print,
    name: &str,
    sums: &mut [i64],
    bound: i64,
    k: u32,
    row: Row,
) -> io::Result<()>
    requires { row.shift + row.n ≤ length sums.old }
{
    let must = false;
    try_marked(rt, name, sums, plain(bound), Goal { row, k, must })
}

// The same where the goal is 0 ≤ 0 and k is 0.
fn try_zero_marked(rt: &impl Print, name: &str, sums: &[i64], bound: Bound) -> io::Result<()> {
    print!(rt; "{name}")?;
    print_sums(rt, sums, bound)?;
    println!(rt;
        ", goal 0 bound 0, k 0: {}",
        number(farkas::judge_zero(sums, bound))
    )
}

fn try_zero(rt: &impl Print, name: &str, sums: &[i64], bound: i64) -> io::Result<()> {
    try_zero_marked(rt, name, sums, plain(bound))
}

// C's first proof: k 1, entry 2:1. Hypotheses: the start rows, the invariant. Goal: the region. The test passes, so all sums are 0 again;
// the second line shows it, by a test at k 0 with a bound below 0.
fn start_proof(rt: &impl Print) -> io::Result<()> {
    let mut sums = [0i64; 1];
    let bound = first_entries(&mut sums, 1, 1, Row::on(&REGION, 0));
    try_sums(rt, "start", &mut sums, bound, 1, Row::on(&REGION, 0))?;
    try_zero(rt, "sums after the start", &sums, -1)
}

// C's second proof: k 1, entry 2:1. Hypotheses: the region and the invariant on x, the invariant on x', the two flow rows, −d ≤ 0. Goal:
// the region on x'.
fn flow_proof(rt: &impl Print) -> io::Result<()> {
    let mut sums = [0i64; 3];
    let bound = first_entries(&mut sums, 1, 1, Row::on(&REGION, 1));
    try_sums(rt, "flow", &mut sums, bound, 1, Row::on(&REGION, 1))?;
    try_zero(rt, "sums after the flow", &sums, -1)
}

// The same with the entry 1:1: the sums are those of the goal, but on x, and the goal stands on x'.
fn flow_from(rt: &impl Print) -> io::Result<()> {
    let mut sums = [0i64; 3];
    let bound = first_entries(&mut sums, 1, 1, Row::on(&REGION, 0));
    let row = Row::on(&REGION, 1);
    try_sums(rt, "flow, the sums on x", &mut sums, bound, 1, row)
}

// C's third proof: k 0, entries 0:1 and 2:1. Hypotheses: the region, the invariant, the unsafe row. The goal is 0 ≤ 0. With the first
// entry alone x is left.
fn unsafe_proof(rt: &impl Print) -> io::Result<()> {
    let mut sums = [0i64; 1];
    let bound = two_entries(&mut sums, 1, Row::on(&REGION, 0), Row::on(&UNSAFE, 0));
    try_zero(rt, "unsafe", &sums, bound)?;
    let mut one = [0i64; 1];
    let bound = first_entries(&mut one, 1, 1, Row::on(&REGION, 0));
    try_zero(rt, "unsafe, first entry alone", &one, bound)
}

// No entries with k 0: the sum 0 is not below 0. That the number is 11 is proved, not only tried.
fn none_refused() {
    let mut sums = [0i64; 1];
    let none = Bound {
        value: 0,
        strict: false,
    };
    check::expect(number(farkas::judge_zero(&sums, none)) == 11);
    check::expect(number(farkas::judge(&mut sums, none, 0, 0, &ZEROS, 0, 1, false)) == 11);
}

// The same, tried.
fn no_entries(rt: &impl Print) -> io::Result<()> {
    none_refused();
    let mut sums = [0i64; 1];
    try_zero(rt, "no entries", &sums, 0)?;
    let row = Row::on(&ZEROS, 0);
    try_sums(rt, "no entries, a row of zeros", &mut sums, 0, 0, row)
}

// Three times the region and a row more, against the region with k 3.
fn try_bound(rt: &impl Print, name: &str, more: &[u8]) -> io::Result<()>
    requires { NumbersIn more.now 0 2 }
{
    let mut sums = [0i64; 1];
    let bound = two_entries(&mut sums, 3, Row::on(&REGION, 0), Row::on(more, 0));
    try_sums(rt, name, &mut sums, bound, 3, Row::on(&REGION, 0))
}

// Bounds: that of C's first proof against a region x ≤ 9; and with 0 ≤ 0, 0 ≤ 1 and 0 ≤ −1 added.
fn bounds(rt: &impl Print) -> io::Result<()> {
    let mut sums = [0i64; 1];
    let bound = first_entries(&mut sums, 1, 1, Row::on(&REGION, 0));
    let row = Row::on(b"\0\0\0\x01\0\0\0\x09", 0);
    try_sums(rt, "region bound 9", &mut sums, bound, 1, row)?;
    try_bound(rt, "bound equal", &ZEROS)?;
    try_bound(rt, "bound one above", b"\0\0\0\0\0\0\0\x01")?;
    try_bound(rt, "bound one below", b"\0\0\0\0\xff\xff\xff\xff")
}

// A row of 17 coefficients, 1 at the last, twice, against itself with this k.
fn try_last(rt: &impl Print, name: &str, k: u32) -> io::Result<()> {
    let mut words = [0u8; 72];
    words[67] = 1;
    let row = Row::new(&words, 17, 0);
    let mut sums = [0i64; 17];
    let bound = first_entries(&mut sums, 1, 2, row);
    try_sums(rt, name, &mut sums, bound, k, row)
}

// Coefficients that differ: at the first unknown, where C's first multiplier is 2, and at the last.
fn coefficients(rt: &impl Print) -> io::Result<()> {
    let mut sums = [0i64; 1];
    let bound = first_entries(&mut sums, 1, 2, Row::on(&REGION, 0));
    try_sums(
        rt,
        "first differs",
        &mut sums,
        bound,
        1,
        Row::on(&REGION, 0),
    )?;
    try_last(rt, "last differs", 1)?;
    try_last(rt, "last agrees", 2)
}

// So many entries with the largest multiplier of the row with the lowest numbers, −2^31, against that row with the largest k.
fn try_lowest(rt: &impl Print, name: &str, count: u32) -> io::Result<()>
    requires { count ≤ 128 }
{
    let row = Row::on(&LOWEST, 0);
    let mut sums = [0i64; 1];
    let bound = first_entries(&mut sums, count, LARGEST, row);
    try_sums(rt, name, &mut sums, bound, LARGEST, row)
}

// The largest numbers: 128 entries with the largest multiplier, and the largest k. On rates the lowest row has 2^31 on x and on d.
fn extremes(rt: &impl Print) -> io::Result<()> {
    try_lowest(rt, "128 entries", 128)?;
    try_lowest(rt, "largest k", 1)?;
    let mut sums = [0i64; 3];
    entries_on_rates(&mut sums, 128, LARGEST, &LOWEST, 1);
    let row = Row::on(&LOWEST, 1);
    try_sums(rt, "128 entries on rates", &mut sums, 0, LARGEST, row)
}

fn main(rt: HostRuntime) -> io::Result<()> {
    start_proof(&rt)?;
    flow_proof(&rt)?;
    flow_from(&rt)?;
    unsafe_proof(&rt)?;
    no_entries(&rt)?;
    bounds(&rt)?;
    coefficients(&rt)?;
    extremes(&rt)?;
    rates::over_time(&rt)?;
    strict::clashes(&rt)?;
    strict::goals(&rt)
}
