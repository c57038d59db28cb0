// The joint list, written record after record into a table that the desk lends.
ghost use Rattle.std.specs.Prelude.{◌≡◌, length};
ghost use Rattle.rules.specs.Beside.{list_answer, table_after};
ghost use Rattle.formats.specs.ModelSheet.{stated};

use joint_lists::list::{list_begin, record_count};
use joint_lists::records::{list_start, next_batch, unpacked};
use rules::{Answer, Joint};

// The joint list of a model, in order; later records of the table keep their content, and a refusal writes nothing.
#[unsafe(no_mangle)]
pub extern "C" fn silfoddra_joint_list(
    model: &[u8],
    table: &mut [Joint],
    locations: u32,
    joints: u32,
) -> Answer
    ensures { (result ≡ list_answer (stated locations joints) model.now (length table.old)) × (table.new ≡ table_after (stated locations joints) model.now table.old) }
{
    let listing = list_begin(model, table.len(), locations, joints);
    let answer = listing.answer;
    let index = listing.index;
    let count = record_count(answer);
    let mut at = list_start();
    let mut j: usize = 0;
    for i in 0..count {
        if j == at.count {
            at = next_batch(model, index, at);
            j = 0;
        }
        table[i] = unpacked(at.words[j]);
        j += 1;
    }
    answer
}
