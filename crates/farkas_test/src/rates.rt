// Rates from 1 on, over a time d: what −d ≤ 0 does to the sums.
ghost use Rattle.std.specs.Prelude.{◌≡◌, ◌*◌, ◌^◌, ◌≤◌, pos, length, replicate};
ghost use Rattle.farkas.specs.Rows.{row_of};
ghost use Rattle.farkas.specs.Sizes.{Within};

use crate::{Row, entries, entries_on_rates, try_sums};
use std::io;

// −x ≤ −5; and −x ≤ −1.
const FROM_FIVE: [u8; 8] = [255, 255, 255, 255, 255, 255, 255, 251];

const FROM_ONE: [u8; 8] = [255; 8];

// The sums of two entries: that the rates are from 1 on, which is x − x' + d ≤ 0, and −x ≤ −5. All sums are 0 before.
fn rising(sums: &mut [i64]) -> i64
    requires { (sums.old ≡ replicate (length sums.old) (pos 0)) × (3 ≤ length sums.old) }
    ensures { Within (2 * 2 ^ 55) (row_of sums.new result) }
{
    entries_on_rates(sums, 1, 1, &FROM_ONE, 1);
    entries(sums, 0, 1, 1, 1, Row::on(&FROM_FIVE, 0))
}

// The same with −d ≤ 0 added.
fn rising_in_time(sums: &mut [i64]) -> i64
    requires { (sums.old ≡ replicate (length sums.old) (pos 0)) × (3 ≤ length sums.old) }
{
    let bound = rising(sums);
    farkas::add_one(sums, 2, -1);
    bound
}

// Where the rates are from 1 on, x from 5 on stays there: the sums show −x' ≤ −5, and without −d ≤ 0 they do not.
pub(crate) fn over_time(rt: &impl Print) -> io::Result<()> {
    let row = Row::on(&FROM_FIVE, 1);
    let mut sums = [0i64; 3];
    let bound = rising_in_time(&mut sums);
    try_sums(rt, "rising", &mut sums, bound, 1, row)?;
    let mut without = [0i64; 3];
    let bound = rising(&mut without);
    try_sums(rt, "rising, time left out", &mut without, bound, 1, row)
}
