// How the index of a model sheet is laid out: 1,004 numbers that keep what the sheet's fields say and where its rows stand, then how many
// joint switches each event has. The names are those of specs/Index.antt, which says what each number means. One lent array, not a struct: handed on
// by value twice a turn a struct cost 617 ns, measured, and the array by reference nothing that showed.

// The index, and how many numbers it has.
pub const INDEX_LENGTH: usize = 1004;

pub type Index = [u16; INDEX_LENGTH];

// The first numbers: how many variables, components and unsafe conditions there are; then the variables' owners.
pub const VARIABLES_AT: usize = 0;

pub const COMPONENTS_AT: usize = 1;

pub const CONDITIONS_AT: usize = 2;

pub const FIRST_OWNER: usize = 3;

// Then the sheet's version.
pub const VERSION_AT: usize = 11;

// Then its paper number, in two halves.
pub const PAPER_AT: usize = 12;

// Then, once they are counted, how many joint switches and locations there are.
pub const JOINTS_AT: usize = 14;

pub const LOCATIONS_AT: usize = 15;

// A block for each component: its alphabet, its mode count and its switch count, then its modes, then its switches.
pub const FIRST_BLOCK: usize = 16;

pub const BLOCK_LENGTH: usize = 219;

pub const MODE_COUNT_AT: usize = 1;

pub const SWITCH_COUNT_AT: usize = 2;

pub const FIRST_MODE: usize = 3;

pub const FIRST_SWITCH: usize = 59;

// where the mode count of component 0 stands
pub const FIRST_MODE_COUNT: usize = FIRST_BLOCK + MODE_COUNT_AT;

// A mode: whether it is a start mode, then its initial, invariant and flow rows.
pub const MODE_LENGTH: usize = 7;

pub const INITIAL_AT: usize = 1;

pub const INVARIANT_AT: usize = 3;

pub const FLOW_AT: usize = 5;

// A switch: its source and target, its label, then its jump rows.
pub const SWITCH_LENGTH: usize = 5;

pub const TARGET_AT: usize = 1;

pub const LABEL_AT: usize = 2;

pub const JUMP_AT: usize = 3;

// the jump rows, counted from the label
pub const LABEL_LENGTH: usize = JUMP_AT - LABEL_AT;

// An unsafe condition: the modes that it asks for, then its rows.
pub const FIRST_UNSAFE: usize = 892;

pub const UNSAFE_LENGTH: usize = 6;

pub const UNSAFE_ROWS_AT: usize = 4;

// Rows: the place of the first, and how many there are; a mode's three conditions follow one another so.
pub const COUNT_AT: usize = 1;

pub const SECOND_SPAN: usize = 2;

pub const THIRD_SPAN: usize = 4;

// Last, once they are counted, how many joint switches each event has.
pub const FIRST_TOTAL: usize = 988;
