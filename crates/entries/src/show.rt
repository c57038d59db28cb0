// Beside the marking: where the row of a hypothesis stands, what the hypothesis is, and which obligation has a number.
ghost use Rattle.std.specs.Prelude.{◌≡◌};
ghost use Rattle.rules.specs.Beside.{show_answer};
ghost use Rattle.queries.specs.Finding.{which_obligation, hypothesis_answer};
ghost use Rattle.formats.specs.ModelSheet.{stated};

use formats::Limits;
use queries::show::{show_answer, show_hypothesis, which};
use queries::{Shown, Which};
use rules::Answer;

// The sister of show row: the number, with the row's sheet and offset.
#[unsafe(no_mangle)]
pub extern "C" fn silfoddra_show_row(
    model: &[u8],
    second: &[u8],
    obligation: u32,
    hypothesis: u32,
    locations: u32,
    joints: u32,
) -> Answer
    ensures { result ≡ show_answer (stated locations joints) model.now second.now obligation hypothesis }
{
    let limits = Limits { locations, joints };
    show_answer(model, second, obligation, hypothesis, limits)
}

// A hypothesis: its row's sheet, place and size, its role, and the component or variable that it belongs to.
#[unsafe(no_mangle)]
pub extern "C" fn silfoddra_hypothesis(
    model: &[u8],
    second: &[u8],
    obligation: u32,
    hypothesis: u32,
    locations: u32,
    joints: u32,
) -> Shown
    ensures { result ≡ hypothesis_answer (stated locations joints) model.now second.now obligation hypothesis }
{
    let limits = Limits { locations, joints };
    show_hypothesis(model, second, obligation, hypothesis, limits)
}

// Which obligation has a number: its kind, its location or joint switch, and its line.
#[unsafe(no_mangle)]
pub extern "C" fn silfoddra_which_obligation(
    model: &[u8],
    second: &[u8],
    obligation: u32,
    locations: u32,
    joints: u32,
) -> Which
    ensures { result ≡ which_obligation (stated locations joints) model.now second.now obligation }
{
    let limits = Limits { locations, joints };
    which(model, second, obligation, limits)
}
