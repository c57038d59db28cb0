// The fair copy of a model (02, order 4).
ghost use Rattle.std.specs.Prelude.{◌≡◌, length};
ghost use Rattle.fair_models.specs.FairCopy.{fair_answer, buffer_after};
ghost use Rattle.formats.specs.ModelSheet.{stated};

use fair_copies::copies::fair_copy;
use formats::Limits;
use rules::Answer;

// Writes the fair copy of a model into a lent buffer, under the limits that the caller states.
#[unsafe(no_mangle)]
pub extern "C" fn silfoddra_fair_copy(
    model: &[u8],
    copy: &mut [u8],
    locations: u32,
    joints: u32,
) -> Answer
    ensures value { result ≡ fair_answer (stated locations joints) model.now (length copy.old) }
    ensures copy_after { copy.new ≡ buffer_after (stated locations joints) model.now copy.old }
{
    let limits = Limits { locations, joints };
    fair_copy(model, copy, limits)
}
