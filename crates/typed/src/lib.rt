// A row typed as text (02, order 1): its coefficients and its bound, or why the text is no row.
// The text is scanned first, so that every cause of 16 comes before any cause of 17; a text that keeps the rules is then worked out.
#![tactic(auto)]

ghost use Rattle.std.specs.Prelude.{◌≡◌};
ghost use Rattle.typed.specs.declared.Unread.TheVariants.{Rules, Value};
ghost use Rattle.typed.specs.Typed.{refusal_number, refusal_place};

mod forms;
mod reading;
pub mod row;
mod scan;
mod signs;
mod working;

use crate::forms::Fault;
use crate::scan::Breach;

// A row that was read; coefficients from n on are 0.
#[derive(Clone, Copy)]
pub struct TypedRow {
    pub coefficients: [i32; 8],
    pub bound: i32,
}

// What a refused text has for its row: zeros.
pub const NO_ROW: TypedRow = TypedRow {
    coefficients: [0; 8],
    bound: 0,
};

// Why a text is no row.
#[derive(Clone, Copy)]
pub enum Unread {
    // The number of variables is out of range.
    Variables,
    // The text breaks the rules, at a place.
    Rules(usize),
    // The text keeps the rules and cannot be worked out, at a place.
    Value(usize),
}

impl Unread {
    // The number that refuses the text.
    pub fn number(self) -> u32
        ensures { result ≡ refusal_number self }
    {
        match self {
            Unread::Variables => 5,
            Unread::Rules(_) => 16,
            Unread::Value(_) => 17,
        }
    }

    // The place in the text.
    pub fn place(self) -> usize
        ensures { result ≡ refusal_place self }
    {
        match self {
            Unread::Variables => 0,
            Unread::Rules(place) | Unread::Value(place) => place,
        }
    }
}

impl From<Breach> for Unread {
    ghost from_gives = { λ e r. r ≡ Rules e.place };

    fn from(e: Breach) -> Unread {
        Unread::Rules(e.place)
    }
}

impl From<Fault> for Unread {
    ghost from_gives = { λ e r. r ≡ Value e.place };

    fn from(e: Fault) -> Unread {
        Unread::Value(e.place)
    }
}
