// The records of the joint list, in batches. The list goes by slots: a slot is an event in a location, sixteen to a location. A place in
// the list is a slot and how many joint switches, from there on, are passed over. A slot's joint switches are listed once, and each record
// of a batch is packed in one word.
ghost use Rattle.std.specs.Prelude.{◌≡◌, ◌++◌, ◌*◌, ◌≤◌, ◌<◌, length};
ghost use Rattle.formats.specs.Locations.{location_count};
ghost use Rattle.models.specs.Index.{components_from};
ghost use Rattle.papers.specs.Paper.{Accepted};
ghost use Rattle.joint_lists.specs.Records.{records_from};
ghost use Rattle.joint_lists.specs.Batches.{unpacked_of, record_by, records_in, records_with, Tells, Further};

use crate::{Batch, Filled};
use joint_switches::joints::modes_at;
use joint_switches::slots::{NO_WAYS, Way, landing_at, list_slot};
use joint_switches::{Landing, Slot};
use models::layout::{FIRST_TOTAL, Index, LOCATIONS_AT};
use rules::Joint;

// A record in one word, a byte for each of its numbers.
fn packed(at: u32, landing: Landing) -> u64
    requires { (at < 1024) × (landing.target < 256) }
    ensures { unpacked_of result ≡ record_by at landing }
{
    let source = (at / 16) as u8;
    let event = (at % 16) as u8;
    let [a, b, c, d] = landing.switches;
    let target = landing.target as u8;
    u64::from_le_bytes([source, event, a, b, c, d, target, 0])
}

// The record that is packed in a word.
pub fn unpacked(word: u64) -> Joint
    ensures { result ≡ unpacked_of word }
{
    let [source, event, a, b, c, d, target, _] = word.to_le_bytes();
    Joint {
        source,
        event,
        switches: [a, b, c, d],
        target,
    }
}

// Packs the records of a slot that is listed, from a place in it on, into the words from the first free one on, and tells where that ends.
fn fill(
    model: &[u8],
    index: &Index,
    slot: Slot,
    ways: &[Way],
    from: Filled,
    words: &mut [u64],
) -> Filled
    requires tells { Tells model.now index.now from.slot slot ways.now }
    requires slot_bound { (from.slot < 16 * location_count (components_from model.now index.now)) × (from.slot < 1024) }
    requires from_bound { (from.count < 64) × (length words.old ≡ 64) }
    ensures further { Further from.slot from.count result }
    ensures result_after { records_with model.now index.now words.new result ≡ records_with model.now index.now words.old from }
{
    let at = from.slot;
    let mut count = from.count;
    for x in from.x..slot.count {
        if 64 <= count {
            return Filled { count, slot: at, x };
        }
        words[count] = packed(at, landing_at(index, slot, ways, x));
        count += 1;
    }
    Filled {
        count,
        slot: at + 1,
        x: from.x.saturating_sub(slot.count),
    }
}

// The same of any slot, which is listed first in the table; the index tells whether its event has a joint switch at all.
fn fill_slot(
    model: &[u8],
    index: &Index,
    from: Filled,
    ways: &mut [Way],
    words: &mut [u64],
) -> Filled
    requires accepted { Accepted model.now index.now }
    requires slot_bound { from.slot < 16 * location_count (components_from model.now index.now) }
    requires from_bound { (from.count < 64) × (length words.old ≡ 64) }
    requires ways_bound { 128 ≤ length ways.old }
    ensures further { Further from.slot from.count result }
    ensures result_after { records_with model.now index.now words.new result ≡ records_with model.now index.now words.old from }
{
    let e = from.slot % 16;
    if index[FIRST_TOTAL + e as usize] == 0 {
        return Filled {
            count: from.count,
            slot: from.slot + 1,
            x: from.x,
        };
    }
    let location = from.slot / 16;
    let modes = modes_at(model, index, location);
    let slot = list_slot(model, index, location, modes, e, ways);
    fill(model, index, slot, ways, from, words)
}

// The first place of the list; nothing is told yet.
pub fn list_start() -> Batch
    ensures { (result.count ≡ 0) × ((result.slot ≡ 0) × (result.x ≡ 0)) }
{
    Batch {
        words: [0; 64],
        count: 0,
        slot: 0,
        x: 0,
    }
}

// The next records, up to 64, and the place after them. No `for` over the slots: a turn passes a slot or stays in it, with the words full.
pub fn next_batch(model: &[u8], index: Index, at: Batch) -> Batch
    requires { Accepted model.now index }
    ensures { (records_from model.now index at.slot at.x ≡ records_in result.words result.count ++ records_from model.now index result.slot result.x) × ((result.count ≤ 64) × (0 < length (records_from model.now index at.slot at.x) → 0 < result.count)) }
{
    let slots = 16 * u32::from(index[LOCATIONS_AT]);
    let mut words = [0u64; 64];
    let mut ways = NO_WAYS;
    let mut place = Filled {
        count: 0,
        slot: at.slot,
        x: at.x,
    };
    while place.slot < slots && place.count < 64 {
        place = fill_slot(model, &index, place, &mut ways, &mut words);
    }
    Batch {
        words,
        count: place.count,
        slot: place.slot,
        x: place.x,
    }
}
