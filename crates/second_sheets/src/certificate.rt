// The certificate's fields: its regions, kept by the places of their rows, then how a proof begins and each of its entries.
ghost use Rattle.std.specs.Prelude.{cond, ◌≡◌, ◌*◌, ◌-◌, ◌^◌, ◌≤◌, length};
ghost use Rattle.formats.specs.Reading.{many};
ghost use Rattle.formats.specs.Rows.{read_condition};
ghost use Rattle.models.specs.Index.{Kept};
ghost use Rattle.formats.specs.Certificate.{read_entry};
ghost use Rattle.fields.specs.Answers.{got_field, got_as};
ghost use Rattle.second_sheets.specs.CertificateAnswers.{regions_from, regions_for, read_head, got_entry};

use crate::ranges::{MOST_ENTRIES, MOST_FACTOR, MOST_REGION_ROWS, Regions};
use crate::{Entry, Head};
use fields::conditions::condition;
use fields::fields::{byte, byte_below, byte_within, word_within};
use fields::{Cause, Next, Read, Refusal};

// So many regions of rows with n coefficients. Of each, the place of its first row and its row count are kept.
fn regions_into(
    s: &[u8],
    at: usize,
    version: u32,
    n: usize,
    count: usize,
    regions: &mut [u16],
) -> Next
    requires { (length s.now ≤ 32768) × ((n ≤ 8) × ((count ≤ 64) × (128 ≤ length regions.old))) }
    ensures result_after { got_as (regions_from s.now version n regions.new count) result ≡ many count (read_condition version 16 n) s.now at }
    ensures kept { Kept 0 (2 * count) regions.old regions.new }
{
    let mut place = at;
    for l in 0..count {
        let (rows, next) = condition(s, place, version, MOST_REGION_ROWS, n)?;
        let i = 2 * l;
        regions[i] = (place + 1) as u16;
        regions[i + 1] = rows as u16;
        place = next;
    }
    Ok(place)
}

// The regions of a certificate for so many locations, kept at two numbers each: the place of the first row, and how many rows. Numbers
// past those of the locations stay as they are; after a refusal the others are of no use.
pub fn read_regions(
    s: &[u8],
    at: usize,
    version: u32,
    n: usize,
    locations: u32,
    regions: &mut Regions,
) -> Next
    requires { (length s.now ≤ 32768) × ((n ≤ 8) × (locations ≤ 64)) }
    ensures result_after { got_as (regions_from s.now version n regions.new locations) result ≡ regions_for locations version n s.now at }
    ensures kept { Kept 0 (2 * locations) regions.old regions.new }
{
    let (count, next) = byte(s, at)?;
    if count != locations {
        return Err(Refusal(Cause::Range, at));
    }
    regions_into(s, next, version, n, locations as usize, regions)
}

// The largest k that a proof may have: 0 where its k must be 0.
fn largest_k(zero: bool) -> u32
    ensures { result ≡ cond zero 0 (2 ^ 24 - 1) }
{
    if zero { 0 } else { MOST_FACTOR }
}

// How a proof begins: its k, which must be 0 where `zero` says so, and how many entries follow.
pub fn proof_head(s: &[u8], at: usize, zero: bool) -> Read<Head>
    ensures { got_field result ≡ read_head zero s.now at }
{
    let (k, next) = word_within(s, at, 0, largest_k(zero))?;
    let (count, after) = byte_within(s, next, 0, MOST_ENTRIES)?;
    Ok((Head { k, count }, after))
}

// An entry of a proof from so many hypotheses: a hypothesis that is at least `least`, and its multiplier.
pub fn entry(s: &[u8], at: usize, hypotheses: u32, least: u32) -> Read<Entry>
    ensures { got_entry result ≡ read_entry hypotheses least s.now at }
{
    let (hypothesis, next) = byte_below(s, at, hypotheses)?;
    if hypothesis < least {
        return Err(Refusal(Cause::Order, at));
    }
    let (multiplier, after) = word_within(s, next, 1, MOST_FACTOR)?;
    Ok((
        Entry {
            hypothesis,
            multiplier,
        },
        after,
    ))
}
