// The marker's entries for a desk, a C program that hands over the sheets as bytes and states its limits. include/marker.h has their
// prototypes.
#![tactic(auto)]

pub mod copies;
pub mod show;
pub mod table;
pub mod typed_rows;

ghost use Rattle.std.specs.Prelude.{◌≡◌};
ghost use Rattle.rules.specs.Marking.{mark_certificate, mark_run};
ghost use Rattle.formats.specs.ModelSheet.{stated};

use certificates::certificate::mark_certificate;
use formats::Limits;
use rules::Answer;
use runs::run::mark_run;

// A typed row as it is handed back: the answer, with the row's numbers where it is accepted and zeros where it is refused.
#[repr(C)]
#[derive(Clone, Copy)]
pub struct ReadRow {
    pub answer: Answer,
    pub coefficients: [i32; 8],
    pub bound: i32,
}

// The answer for a certificate beside a model, under the limits that the caller states.
#[unsafe(no_mangle)]
pub extern "C" fn silfoddra_mark_certificate(
    model: &[u8],
    second: &[u8],
    locations: u32,
    joints: u32,
) -> Answer
    ensures { result ≡ mark_certificate (stated locations joints) model.now second.now }
{
    let limits = Limits { locations, joints };
    mark_certificate(model, second, limits)
}

// The answer for a run beside a model, under the limits that the caller states.
#[unsafe(no_mangle)]
pub extern "C" fn silfoddra_mark_run(
    model: &[u8],
    second: &[u8],
    locations: u32,
    joints: u32,
) -> Answer
    ensures { result ≡ mark_run (stated locations joints) model.now second.now }
{
    let limits = Limits { locations, joints };
    mark_run(model, second, limits)
}
