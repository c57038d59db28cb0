// A model sheet, whole: its header, its paper number, the rest of its body, no bytes left, then the limits on locations and joint switches.
ghost use Rattle.std.specs.Prelude.{◌≡◌, ◌≤◌, ◌<◌, T, length};
ghost use Rattle.formats.specs.ModelSheet.{limits_fit, limits_test, read_model};
ghost use Rattle.models.specs.Index.{GoodIndex, components_from, model_from, Kept, index_length};
ghost use Rattle.fields.specs.Answers.{got_as};
ghost use Rattle.model_sheets.specs.Limits.{Small, Standing, OnlyCounts, CountedAfter};
ghost use Rattle.model_sheets.specs.Opening.{read_opening, opening_from};

use fields::header::{finished, header, read_paper};
use fields::{Cause, Next, Refusal};
use formats::Limits;
use joint_switches::joints::location_count;
use joint_switches::totals::{event_totals, joint_total};
use models::body::body_into;
use models::layout::{FIRST_TOTAL, Index, JOINTS_AT, LOCATIONS_AT, PAPER_AT, VERSION_AT};

// Keeps the version and the paper number, in two halves, in an index.
fn keep_opening(version: u32, paper: u32, index: &mut [u16])
    requires { (index_length ≤ length index.old) × (version < 256) }
    ensures index_after { opening_from index.new ≡ record { version = version; paper = paper } }
    ensures kept { Kept 0 index_length index.old index.new }
{
    index[VERSION_AT] = version as u16;
    index[PAPER_AT] = (paper / 65536) as u16;
    index[PAPER_AT + 1] = (paper % 65536) as u16;
}

// The header and the paper number, kept in an index: the place after them, which is n's byte. After a refusal the index is free.
fn opening_into(s: &[u8], index: &mut Index) -> Next
    ensures result_after { got_as (opening_from index.new) result ≡ read_opening s.now 0 }
    ensures kept { Kept 0 index_length index.old index.new }
{
    let (version, at) = header(s, 1)?;
    let (paper, body) = read_paper(s, at, version)?;
    keep_opening(version, paper, index);
    Ok(body)
}

// Keeps the counts in an index.
fn keep_counts(totals: [u32; 16], joints: u32, locations: u32, index: &mut [u16])
    requires { (index_length ≤ length index.old) × Small totals joints locations }
    ensures standing { Standing totals joints locations index.new }
    ensures only_counts { OnlyCounts index.old index.new }
{
    for e in 0..16 {
        index[FIRST_TOTAL + e] = totals[e] as u16;
    }
    index[JOINTS_AT] = joints as u16;
    index[LOCATIONS_AT] = locations as u16;
}

// Whether the model is within the stated limits: 7 and 8, at the place of n's byte. If it is, the counts are kept in its index.
fn within_limits(s: &[u8], index: &mut Index, body: usize, next: usize, limits: Limits) -> Next
    requires good_index { GoodIndex s.now index.old }
    requires t { T (limits_fit limits) }
    ensures result_value { got_as tt result ≡ limits_test limits (components_from s.now index.old) body s.now next }
    ensures only_counts { OnlyCounts index.old index.new × CountedAfter s.now index.new result }
{
    let locations = location_count(s, index);
    if limits.locations < locations {
        return Err(Refusal(Cause::Locations, body));
    }
    let totals = event_totals(s, index);
    let joints = joint_total(s, index, totals);
    if limits.joints < joints {
        return Err(Refusal(Cause::Joints, body));
    }
    keep_counts(totals, joints, locations, index);
    Ok(next)
}

// A model sheet, read under stated limits into a lent index, which then has its counts too. After a refusal the index is free.
pub fn model_into(s: &[u8], index: &mut Index, limits: Limits) -> Next
    requires { T (limits_fit limits) }
    ensures result_after { got_as (model_from s.now index.new) result ≡ read_model limits s.now }
    ensures kept { Kept 0 index_length index.old index.new }
    ensures counted_after { CountedAfter s.now index.new result }
{
    let body = opening_into(s, index)?;
    let version = u32::from(index[VERSION_AT]);
    let end = body_into(s, body, version, index)?;
    let next = finished(s, end)?;
    within_limits(s, index, body, next, limits)
}
