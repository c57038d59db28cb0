// How many joint switches lead into a location, by sums and products over its modes: no joint switch is gone through. The sheet is handed
// over for the contracts.
ghost use Rattle.std.specs.Prelude.{◌≡◌, ℕ, ◌+◌, ◌*◌, ◌≤◌, ◌<◌, length, get_or};
ghost use Rattle.formats.specs.JointTotals.{entering, arrivals, together_into, silent_into, event_into, joints_into};
ghost use Rattle.models.specs.Index.{GoodIndex, components_from, components_in};
ghost use Rattle.models.specs.Counts.{component_at, per_component};
ghost use Rattle.joint_switches.specs.Tables.{Blank, SmallModes};
ghost use Rattle.joint_switches.specs.Numbered.{numbered, ByMode};
ghost use Rattle.joint_switches.specs.Counted.{Counted};

use crate::joints::{component_count, in_scope, product_over};
use crate::numbered::{BY_MODE, count_switches};
use models::layout::{FIRST_TOTAL, Index};

// How many switches lead into each of eight modes with each of sixteen labels, for four components.
pub const ENTERING_LENGTH: usize = 512;

pub type EnteringTable = [u8; ENTERING_LENGTH];

// The switches of all components are counted by the modes that they lead into and their labels, in an empty table. The parts of components
// that there are not are free.
pub fn count_entering(s: &[u8], index: &Index, table: &mut [u8])
    requires good_index { GoodIndex s.now index.now }
    requires in_bounds { (512 ≤ length table.old) × Blank 0 table.old }
    ensures { (k p : ℕ) → k < components_in index.now → p < 128 → get_or table.new (128 * k + p) 0 ≡ numbered 16 (component_at s.now index.now k) p }
{
    count_switches(s, index, BY_MODE, table);
}

// How many switches of a component have this label and lead into this mode. No struct with methods as `Labels` of totals: with one the
// marking of a certificate near all limits took 1 in 100 more instructions.
fn entering_of(s: &[u8], index: &Index, table: &EnteringTable, k: usize, mode: u8, e: u32) -> u32
    requires good_index { GoodIndex s.now index.now × ByMode s.now index.now table.now }
    requires k_bound { (k < components_in index.now) × ((mode < 8) × (e ≤ 15)) }
    ensures { result ≡ entering (component_at s.now index.now k) mode e }
{
    u32::from(table[128 * k + (16 * usize::from(mode) + e as usize)])
}

// In how many ways a component comes into a mode by an event: by its switches if it is in the scope, else in one, by staying.
fn arrivals_of(s: &[u8], index: &Index, table: &EnteringTable, k: usize, mode: u8, e: u32) -> u32
    requires good_index { GoodIndex s.now index.now × ByMode s.now index.now table.now }
    requires k_bound { (k < components_in index.now) × ((mode < 8) × (e ≤ 15)) }
    ensures { result ≡ arrivals (component_at s.now index.now k) mode e }
{
    if in_scope(s, index, k, e) {
        entering_of(s, index, table, k, mode, e)
    } else {
        1
    }
}

// Event 0: a sum over the components.
fn silent_into(s: &[u8], index: &Index, table: &EnteringTable, modes: [u8; 4]) -> u32
    requires good_index { GoodIndex s.now index.now × ByMode s.now index.now table.now }
    requires small_modes { SmallModes index.now modes }
    ensures { result ≡ silent_into (components_from s.now index.now) (per_component index.now modes) }
{
    let mut count: u32 = 0;
    for k in (0..component_count(s, index)).rev() {
        count = entering_of(s, index, table, k, modes[k], 0) + count;
    }
    count
}

// In how many ways the components come into their modes by an event: a product over them.
fn together_into(s: &[u8], index: &Index, table: &EnteringTable, modes: [u8; 4], e: u32) -> u32
    requires good_index { GoodIndex s.now index.now × ByMode s.now index.now table.now }
    requires small_modes { SmallModes index.now modes × (e ≤ 15) }
    ensures { result ≡ together_into (components_from s.now index.now) (per_component index.now modes) e }
{
    product_over(s, index, |k| arrivals_of(s, index, table, k, modes[k], e))
}

// An event from 1: none where the event has no joint switch at all, as the index says.
fn event_into(s: &[u8], index: &Index, table: &EnteringTable, modes: [u8; 4], e: u32) -> u32
    requires good_index { GoodIndex s.now index.now × ByMode s.now index.now table.now }
    requires counted { Counted s.now index.now × SmallModes index.now modes }
    requires le_e { (1 ≤ e) × (e ≤ 15) }
    ensures { result ≡ event_into (components_from s.now index.now) (per_component index.now modes) e }
{
    if index[FIRST_TOTAL + e as usize] == 0 {
        return 0;
    }
    together_into(s, index, table, modes, e)
}

// How many joint switches lead into a location with these modes.
pub fn joints_into(s: &[u8], index: &Index, table: &EnteringTable, modes: [u8; 4]) -> u32
    requires good_index { GoodIndex s.now index.now × ByMode s.now index.now table.now }
    requires counted { Counted s.now index.now × SmallModes index.now modes }
    ensures { result ≡ joints_into (components_from s.now index.now) (per_component index.now modes) }
{
    let mut count = silent_into(s, index, table, modes);
    for e in 1..16 {
        count += event_into(s, index, table, modes, e);
    }
    count
}
