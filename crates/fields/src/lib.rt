// Part of the layer of sheets.
#![tactic(auto)]

ghost use Rattle.std.specs.Prelude.{◌≡◌};
ghost use Rattle.fields.specs.Causes.{number_of, cause_of};

use farkas::Mismatch;

pub mod conditions;
pub mod fields;
pub mod header;
pub mod versions;

// Why a sheet is refused: the causes of document 01's table and of order 7 that reading and marking find. A body that is cut in a field and
// bytes that are left are one cause there.
#[derive(Clone, Copy, Debug, PartialEq, Eq)]
pub enum Cause {
    Length,
    Version,
    Kind,
    Cut,
    Range,
    Label,
    Locations,
    Joints,
    Order,
    Coefficients,
    Bound,
    Start,
    Step,
    End,
    Pairing,
}

// The number that the table gives a cause.
impl From<Cause> for u32 {
    ghost from_gives = { λ cause number. number ≡ number_of cause };

    fn from(cause: Cause) -> u32 {
        match cause {
            Cause::Length => 1,
            Cause::Version => 2,
            Cause::Kind => 3,
            Cause::Cut => 4,
            Cause::Range => 5,
            Cause::Label => 6,
            Cause::Locations => 7,
            Cause::Joints => 8,
            Cause::Order => 9,
            Cause::Coefficients => 10,
            Cause::Bound => 11,
            Cause::Start => 12,
            Cause::Step => 13,
            Cause::End => 14,
            Cause::Pairing => 18,
        }
    }
}

// The cause that refuses a proof whose test doesn't pass.
impl From<Mismatch> for Cause {
    ghost from_gives = { λ mismatch cause. cause ≡ cause_of mismatch };

    fn from(mismatch: Mismatch) -> Cause {
        match mismatch {
            Mismatch::CoefficientsDiffer => Cause::Coefficients,
            Mismatch::BoundFails => Cause::Bound,
        }
    }
}

// A refusal: its cause, and its place in the sheet.
#[derive(Clone, Copy, Debug, PartialEq, Eq)]
pub struct Refusal(pub Cause, pub usize);

// What reading gives: a value and the place after it, or a refusal.
pub type Read<T> = Result<(T, usize), Refusal>;

// What reading on gives: the place after it, or a refusal.
pub type Next = Result<usize, Refusal>;
