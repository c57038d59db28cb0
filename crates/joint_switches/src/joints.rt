// Locations and joint switches of a model, by its index. Joint switches are counted, and one is found by its number among those of its
// location and event; they are never listed. The sheet is handed over for the contracts, which speak of the model: no byte of it is read.
ghost use Rattle.std.specs.Prelude.{◌≡◌, ℕ, cond, false, ◌++◌, ◌+◌, ◌-◌, ◌*◌, ◌<◌, ◌≤◌, eqb, length, replicate};
ghost use Rattle.formats.specs.Model.{has_event};
ghost use Rattle.formats.specs.Locations.{location_count, modes_at};
ghost use Rattle.formats.specs.Joint.{stays, switch_of, leaves, scope_mask};
ghost use Rattle.models.specs.Index.{GoodIndex, components_from, components_in};
ghost use Rattle.models.specs.Counts.{component_at};

use models::layout::{
    BLOCK_LENGTH, COMPONENTS_AT, FIRST_BLOCK, FIRST_SWITCH, Index, LABEL_AT, MODE_COUNT_AT,
    SWITCH_COUNT_AT, SWITCH_LENGTH, TARGET_AT,
};
use models::model::has_event;

// How many components there are.
pub fn component_count(s: &[u8], index: &Index) -> usize
    requires { GoodIndex s.now index.now }
    ensures { result ≡ components_in index.now }
{
    usize::from(index[COMPONENTS_AT])
}

// How many modes a component has.
pub fn mode_count(s: &[u8], index: &Index, k: usize) -> u32
    requires good_index { GoodIndex s.now index.now }
    requires k_bound { k < components_in index.now }
    ensures { result ≡ length (component_at s.now index.now k).modes }
{
    u32::from(index[FIRST_BLOCK + BLOCK_LENGTH * k + MODE_COUNT_AT])
}

// How many switches a component has.
pub fn switch_count(s: &[u8], index: &Index, k: usize) -> usize
    requires good_index { GoodIndex s.now index.now }
    requires k_bound { k < components_in index.now }
    ensures { result ≡ length (component_at s.now index.now k).switches }
{
    usize::from(index[FIRST_BLOCK + BLOCK_LENGTH * k + SWITCH_COUNT_AT])
}

// A product over the components, from the last to the first, of what is told of each by its number.
pub(crate) fn product_over<F: Fn(usize) -> u32>(s: &[u8], index: &Index, factor: F) -> u32
    requires good_index { GoodIndex s.now index.now }
    requires callable { (k : ℕ) → k < components_in index.now → F.pre factor k }
    requires small { (k n : ℕ) → k < components_in index.now → F.post factor k n → n ≤ 32 }
    ensures { (product : ℕ → ℕ) → product (components_in index.now) ≡ 1 → ((k n : ℕ) → 0 < k → k ≤ components_in index.now → F.post factor (k - 1) n → n * product k ≡ product (k - 1)) → result ≡ product 0 }
{
    let mut product: u32 = 1;
    for k in (0..component_count(s, index)).rev() {
        product = factor(k) * product;
    }
    product
}

// How many locations there are: the product of the mode counts.
pub fn location_count(s: &[u8], index: &Index) -> u32
    requires { GoodIndex s.now index.now }
    ensures { result ≡ location_count (components_from s.now index.now) }
{
    product_over(s, index, |k| mode_count(s, index, k))
}

// The modes of a location, one per component, and 0 for an absent one. They are the digits of its number, the last component's last.
pub fn modes_at(s: &[u8], index: &Index, location: u32) -> [u8; 4]
    requires good_index { GoodIndex s.now index.now }
    requires location_bound { location < location_count (components_from s.now index.now) }
    ensures { result ≡ modes_at (components_from s.now index.now) location ++ replicate (4 - components_in index.now) 0 }
{
    let mut modes = [0u8; 4];
    let mut left = location;
    for k in (0..component_count(s, index)).rev() {
        let count = mode_count(s, index, k);
        modes[k] = (left % count) as u8;
        left /= count;
    }
    modes
}

// Whether a component's switch has this label and leaves this mode.
pub fn leaves_by(s: &[u8], index: &Index, k: usize, i: usize, mode: u8, e: u32) -> bool
    requires good_index { GoodIndex s.now index.now }
    requires k_bound { k < components_in index.now }
    requires i_in_bounds { i < length (component_at s.now index.now k).switches }
    ensures { result ≡ leaves mode e (switch_of (component_at s.now index.now k) i) }
{
    let place = FIRST_BLOCK + BLOCK_LENGTH * k + FIRST_SWITCH + SWITCH_LENGTH * i;
    u32::from(index[place + LABEL_AT]) == e && index[place] == u16::from(mode)
}

// Whether a component is in the scope of an event.
pub fn in_scope(s: &[u8], index: &Index, k: usize, e: u32) -> bool
    requires good_index { GoodIndex s.now index.now }
    requires k_bound { (k < components_in index.now) × (e ≤ 15) }
    ensures { result ≡ has_event (component_at s.now index.now k).alphabet e }
{
    has_event(u32::from(index[FIRST_BLOCK + BLOCK_LENGTH * k]), e)
}

// The scope mask of an event: a one for each component that has it in its alphabet, component 0 lowest.
pub fn scope_mask(s: &[u8], index: &Index, e: u32) -> u32
    requires good_index { GoodIndex s.now index.now }
    requires e_bound { e ≤ 15 }
    ensures { result ≡ scope_mask (components_from s.now index.now) e }
{
    let mut mask: u32 = 0;
    for k in (0..component_count(s, index)).rev() {
        mask = u32::from(in_scope(s, index, k, e)) + 2 * mask;
    }
    mask
}

// A component's mode after a joint switch. 255 stands for staying, as in the joint list of the C interface.
pub fn mode_after(s: &[u8], index: &Index, k: usize, mode: u8, i: u8) -> u8
    requires good_index { GoodIndex s.now index.now }
    requires k_bound { k < components_in index.now }
    requires i_in_bounds { eqb i stays ≡ false → i < length (component_at s.now index.now k).switches }
    ensures { result ≡ cond (eqb i stays) mode (switch_of (component_at s.now index.now k) i).target }
{
    if i == 255 {
        mode
    } else {
        index[FIRST_BLOCK
            + BLOCK_LENGTH * k
            + FIRST_SWITCH
            + SWITCH_LENGTH * usize::from(i)
            + TARGET_AT] as u8
    }
}
