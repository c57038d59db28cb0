// A paper whose sheets were read, as certificates and runs both need it: its answers, the modes in which a location stands, the rows of its
// region, and the variables that keep their value in a step.
#![tactic(auto)]

pub mod answers;
pub mod blanks;
pub mod opening;
pub mod regions;
pub mod standing;

ghost use Rattle.papers.specs.Papers.{GoodPaper};

use models::layout::Index;
use second_sheets::ranges::Regions;

// A certificate's paper once its sheets are read: the model and its index, the second sheet and its regions. The index is one of the
// model and has its counts, each region has at most 16 rows, which lie within the second sheet, neither sheet has over 32,768 bytes, and the
// model has at most 64 locations.
#[derive(Clone, Copy)]
pub struct Paper<'a> {
    pub model: &'a [u8],
    pub index: &'a Index,
    pub second: &'a [u8],
    pub regions: &'a Regions,
    pub ghost good: { GoodPaper model.now index.now second.now regions.now },
}
