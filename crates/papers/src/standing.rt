// Where a run or an obligation stands: the modes of its location, what the model's index keeps of them, whether they are start modes and
// whether they fit an unsafe condition's.
ghost use Rattle.std.specs.Prelude.{◌≡◌, ◌||◌, false, ◌+◌, ◌*◌, ◌≤◌, ◌<◌, eqb};
ghost use Rattle.farkas.specs.Lists.{every};
ghost use Rattle.models.specs.Index.{entry, component_place, mode_place, components_from, GoodIndex, switch_place, conditions_in};
ghost use Rattle.models.specs.Counts.{per_component, condition_at};
ghost use Rattle.rules.specs.Runs.{present, modes_fit};
ghost use Rattle.papers.specs.Standing.{KnownModes};

use models::layout::{
    BLOCK_LENGTH, COMPONENTS_AT, FIRST_BLOCK, FIRST_MODE, FIRST_SWITCH, FIRST_UNSAFE, Index,
    JUMP_AT, MODE_LENGTH, SWITCH_LENGTH, UNSAFE_LENGTH,
};

// Whether a component's mode is a start mode.
fn is_start(index: &Index, k: usize, mode: u8) -> bool
    requires { (k < 4) × (mode < 8) }
    ensures { result ≡ eqb (entry index.now (mode_place (component_place k) mode)) 1 }
{
    index[FIRST_BLOCK + BLOCK_LENGTH * k + FIRST_MODE + MODE_LENGTH * (mode as usize)] == 1
}

// Whether every present mode is a start mode.
pub fn all_start(model: &[u8], index: &Index, modes: [u8; 4]) -> bool
    requires { GoodIndex model.now index.now × KnownModes index.now modes }
    ensures { result ≡ every (λ mode. eqb mode.start 1) (present (components_from model.now index.now) (per_component index.now modes)) }
{
    let components = index[COMPONENTS_AT] as usize;
    for k in 0..components {
        if !is_start(index, k, modes[k]) {
            return false;
        }
    }
    true
}

// Whether a mode that is asked for, or 255 for any, fits the present one.
fn mode_fits(asked: u16, mode: u8) -> bool
    ensures { result ≡ (eqb asked 255 || eqb asked mode) }
{
    if asked == 255 {
        return true;
    }
    asked == mode as u16
}

// Whether the modes that an unsafe condition asks for fit the present ones.
pub fn modes_fit(model: &[u8], index: &Index, u: usize, modes: [u8; 4]) -> bool
    requires { GoodIndex model.now index.now × (u < conditions_in index.now) }
    ensures { result ≡ modes_fit (condition_at model.now index.now u).modes (per_component index.now modes) }
{
    let components = index[COMPONENTS_AT] as usize;
    for k in 0..components {
        if !mode_fits(index[FIRST_UNSAFE + UNSAFE_LENGTH * u + k], modes[k]) {
            return false;
        }
    }
    true
}

// Where an index keeps a condition of a mode: so many numbers into the mode's place.
pub fn mode_place(k: usize, mode: u8, offset: usize) -> usize
    requires { (k < 4) × (offset ≤ 5) }
    ensures { result ≡ mode_place (component_place k) mode + offset }
{
    FIRST_BLOCK + BLOCK_LENGTH * k + FIRST_MODE + MODE_LENGTH * (mode as usize) + offset
}

// Where an index keeps the rows of a switch.
pub fn switch_place(k: usize, i: u8) -> usize
    requires { k < 4 }
    ensures { result ≡ switch_place (component_place k) i + 3 }
{
    FIRST_BLOCK + BLOCK_LENGTH * k + FIRST_SWITCH + SWITCH_LENGTH * (i as usize) + JUMP_AT
}
