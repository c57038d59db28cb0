// Strict rows (document 02, order 8): what a strict entry does to a summed bound of 0 with k 0, and to a goal that must be met strictly.
ghost use Rattle.std.specs.Prelude.{◌^◌, ◌<◌};
ghost use Rattle.farkas.specs.Words.{NumbersIn};

use crate::{
    Goal, REGION, Row, UNSAFE, ZEROS, first_entries, try_marked, try_zero_marked, two_entries,
};
use farkas::{Bound, strict_after};
use std::io;

// −x ≤ −10.
const FROM_TEN: [u8; 8] = [255, 255, 255, 255, 255, 255, 255, 246];

// m times x ≤ 10, strict or not, and a row more that is not, with k 0: against 0 ≤ 0.
fn try_clash(rt: &impl Print, name: &str, strict: bool, m: u32, more: &[u8]) -> io::Result<()>
    requires { (m < 2 ^ 24) × NumbersIn more.now 0 2 }
{
    let mut sums = [0i64; 1];
    let value = two_entries(&mut sums, m, Row::on(&REGION, 0), Row::on(more, 0));
    let first = strict_after(false, m, strict);
    let strict = strict_after(first, 1, false);
    try_zero_marked(rt, name, &sums, Bound { value, strict })
}

// A summed bound of 0 with k 0 passes with a strict entry only, and an entry with the multiplier 0 is none; below 0 it passes in any case,
// and above 0 in none.
pub(crate) fn clashes(rt: &impl Print) -> io::Result<()> {
    try_clash(rt, "sum 0, a strict entry", true, 1, &FROM_TEN)?;
    try_clash(rt, "sum 0, no strict entry", false, 1, &FROM_TEN)?;
    try_clash(rt, "sum 0, a strict row 0 times", true, 0, &ZEROS)?;
    try_clash(rt, "sum -1, a strict entry", true, 1, &UNSAFE)?;
    try_clash(
        rt,
        "sum 1, a strict entry",
        true,
        1,
        b"\xff\xff\xff\xff\xff\xff\xff\xf7",
    )?;
    let mut sums = [0i64; 1];
    let bound = Bound {
        value: 0,
        strict: true,
    };
    let goal = Goal {
        row: Row::on(&ZEROS, 0),
        k: 0,
        must: false,
    };
    let name = "sum 0, a strict entry, a row of zeros";
    try_marked(rt, name, &mut sums, bound, goal)
}

// x ≤ 10 three times, strict or not, against a row with k 3 that must be met strictly or need not.
fn try_strict(rt: &impl Print, name: &str, strict: bool, words: &[u8], must: bool) -> io::Result<()>
    requires { NumbersIn words.now 0 2 }
{
    let mut sums = [0i64; 1];
    let value = first_entries(&mut sums, 1, 3, Row::on(&REGION, 0));
    let strict = strict_after(false, 3, strict);
    let goal = Goal {
        row: Row::on(words, 0),
        k: 3,
        must,
    };
    try_marked(rt, name, &mut sums, Bound { value, strict }, goal)
}

// A strict goal is met by a summed bound below k times its own, or by an equal one with a strict entry; a goal that is not strict as ever.
pub(crate) fn goals(rt: &impl Print) -> io::Result<()> {
    try_strict(rt, "strict goal, a strict entry", true, &REGION, true)?;
    try_strict(rt, "strict goal, no strict entry", false, &REGION, true)?;
    try_strict(
        rt,
        "strict goal x < 11",
        false,
        b"\0\0\0\x01\0\0\0\x0b",
        true,
    )?;
    try_strict(
        rt,
        "strict goal x < 9, a strict entry",
        true,
        b"\0\0\0\x01\0\0\0\x09",
        true,
    )?;
    try_strict(rt, "goal not strict, a strict entry", true, &REGION, false)
}
