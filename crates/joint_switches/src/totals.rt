// Joint switches counted by sums and products over the components: no location is gone through. The sheet is handed over for the
// contracts.
ghost use Rattle.std.specs.Prelude.{◌≡◌, map, ◌≤◌, ◌<◌, length};
ghost use Rattle.formats.specs.Joint.{count_up, joints};
ghost use Rattle.formats.specs.JointTotals.{labelled, choices, together_total, silent_total, event_total};
ghost use Rattle.models.specs.Index.{GoodIndex, components_from, components_in};
ghost use Rattle.models.specs.Counts.{component_at};
ghost use Rattle.joint_switches.specs.Numbered.{ByLabel};

use crate::joints::{component_count, in_scope, mode_count, product_over, scope_mask};
use crate::numbered::{BY_LABEL, count_switches};
use models::layout::Index;
use std::array;

// How many switches a component has with each of sixteen labels, for four components.
const LABELS_LENGTH: usize = 64;

type LabelTable = [u8; LABELS_LENGTH];

// An index, with its switches counted by their labels.
#[derive(Clone, Copy)]
struct Labels<'a> {
    s: &'a [u8],
    index: &'a Index,
    table: &'a LabelTable,
    ghost good: { GoodIndex s.now index.now },
    ghost told: { ByLabel s.now index.now table.now },
}

impl Labels<'_> {
    // How many switches of a component have a label.
    fn labelled(&self, k: usize, e: u32) -> u32
        requires { (k < components_in self.now.index.now) × (e ≤ 15) }
        ensures { result ≡ labelled (component_at self.now.s.now self.now.index.now k) e }
    {
        u32::from(self.table[16 * k + e as usize])
    }

    // A component's factor for an event: its switches with that label if it is in the scope, else its modes.
    fn choices(&self, k: usize, e: u32) -> u32
        requires { (k < components_in self.now.index.now) × (e ≤ 15) }
        ensures { result ≡ choices (component_at self.now.s.now self.now.index.now k) e }
    {
        if in_scope(self.s, self.index, k, e) {
            self.labelled(k, e)
        } else {
            mode_count(self.s, self.index, k)
        }
    }

    // In how many ways the members of an event's scope move together, over all locations: a product over the components.
    fn together(&self, e: u32) -> u32
        requires { e ≤ 15 }
        ensures { result ≡ together_total (components_from self.now.s.now self.now.index.now) e }
    {
        product_over(self.s, self.index, |k| self.choices(k, e))
    }

    // How many joint switches event 0 has, over all locations: one component moves, the others are in any of their modes.
    fn silent(&self) -> u32
        ensures { result ≡ silent_total (components_from self.now.s.now self.now.index.now) }
    {
        let mut count: u32 = 0;
        let mut unit: u32 = 1;
        for k in (0..component_count(self.s, self.index)).rev() {
            let modes = mode_count(self.s, self.index, k);
            count = self.labelled(k, 0) * unit + modes * count;
            unit = modes * unit;
        }
        count
    }

    // How many joint switches an event has, over all locations: none where an event from 1 has a scope mask with no ones.
    fn total(&self, e: u32) -> u32
        requires { e ≤ 15 }
        ensures { result ≡ event_total (components_from self.now.s.now self.now.index.now) e }
    {
        if e == 0 {
            return self.silent();
        }
        let mask = scope_mask(self.s, self.index, e);
        if mask.count_ones() == 0 {
            return 0;
        }
        self.together(e)
    }
}

// How many joint switches each event has, over all locations. The switches are counted once by their labels.
pub fn event_totals(s: &[u8], index: &Index) -> [u32; 16]
    requires { GoodIndex s.now index.now }
    ensures { result ≡ map (event_total (components_from s.now index.now)) (count_up 0 16) }
{
    let mut table = [0u8; LABELS_LENGTH];
    count_switches(s, index, BY_LABEL, &mut table);
    let labels = Labels {
        s,
        index,
        table: &table,
    };
    array::from_fn(|e| labels.total(e as u32))
}

// How many joint switches there are: those of all events.
pub fn joint_total(s: &[u8], index: &Index, totals: [u32; 16]) -> u32
    requires good_index { GoodIndex s.now index.now }
    requires totals_value { totals ≡ map (event_total (components_from s.now index.now)) (count_up 0 16) }
    ensures { result ≡ length (joints (components_from s.now index.now)) }
{
    totals.iter().sum()
}
