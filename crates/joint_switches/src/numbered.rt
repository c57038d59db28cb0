// The switches of a model counted in a table, by a number that each has: its label, with so many times the mode that it leads into. The
// sheet is handed over for the contracts.
ghost use Rattle.std.specs.Prelude.{◌≡◌, ℕ, ◌+◌, ◌*◌, ◌≤◌, ◌<◌, length, get_or};
ghost use Rattle.formats.specs.Joint.{switch_of};
ghost use Rattle.models.specs.Index.{GoodIndex, Kept, components_in};
ghost use Rattle.models.specs.Counts.{component_at};
ghost use Rattle.joint_switches.specs.Tables.{Blank};
ghost use Rattle.joint_switches.specs.Numbered.{number_of, numbered, NumberedAt};

use crate::joints::{component_count, switch_count};
use models::layout::{
    BLOCK_LENGTH, FIRST_BLOCK, FIRST_SWITCH, Index, LABEL_AT, SWITCH_LENGTH, TARGET_AT,
};

// How switches are numbered: by their label, with so many times the mode that they lead into. Eight modes and sixteen labels have numbers
// below the width of a component's part, and four parts fit a table.
#[derive(Clone, Copy)]
pub struct Numbering {
    pub width: usize,
    pub step: usize,
    pub ghost enough: { 7 * step + 16 ≤ width },
    pub ghost few: { width ≤ 128 },
}

// By labels alone, sixteen places to a component.
pub const BY_LABEL: Numbering = Numbering { width: 16, step: 0 };

// By modes and labels, sixteen places to a mode.
pub const BY_MODE: Numbering = Numbering {
    width: 128,
    step: 16,
};

// Where a switch is counted: so many places to a component, and there by its number.
fn place_of(s: &[u8], index: &Index, k: usize, i: usize, by: Numbering) -> usize
    requires good_index { GoodIndex s.now index.now }
    requires k_bound { (k < components_in index.now) × (i < length (component_at s.now index.now k).switches) }
    ensures { result ≡ by.width * k + number_of by.step (switch_of (component_at s.now index.now k) i) }
{
    let at = FIRST_BLOCK + BLOCK_LENGTH * k + FIRST_SWITCH + SWITCH_LENGTH * i;
    by.width * k
        + (by.step * usize::from(index[at + TARGET_AT]) + usize::from(index[at + LABEL_AT]))
}

// The switches of one component are counted, in a table that has counted none of them.
fn count_part(s: &[u8], index: &Index, k: usize, by: Numbering, table: &mut [u8])
    requires good_index { GoodIndex s.now index.now }
    requires k_bound { (k < components_in index.now) × (4 * by.width ≤ length table.old) }
    requires blank { Blank (by.width * k) table.old }
    ensures numbered_at { NumberedAt by.width by.step s.now index.now k table.new }
    ensures kept { Kept (by.width * k) (by.width * k + by.width) table.old table.new }
{
    for i in 0..switch_count(s, index, k) {
        let place = place_of(s, index, k, i, by);
        table[place] += 1;
    }
}

// The switches of all components are counted, in an empty table. The parts of components that there are not are free.
pub fn count_switches(s: &[u8], index: &Index, by: Numbering, table: &mut [u8])
    requires good_index { GoodIndex s.now index.now }
    requires width_in_bounds { (4 * by.width ≤ length table.old) × Blank 0 table.old }
    ensures { (k p : ℕ) → k < components_in index.now → p < by.width → get_or table.new (by.width * k + p) 0 ≡ numbered by.step (component_at s.now index.now k) p }
{
    for k in 0..component_count(s, index) {
        count_part(s, index, k, by, table);
    }
}
