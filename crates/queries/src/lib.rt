// What is asked of a paper beside its marking: show row, what a hypothesis is, and which obligation has a number.
#![tactic(auto)]

pub mod find;
pub mod rows;
pub mod show;

// Which obligation has a number: 0 and its kind (0 start, 1 flow, 2 unsafe, 3 jump), its location or the number of its joint switch, and
// the number of its region row or unsafe condition, with sheet 1 and its length; or why there is none, then with 0 0 0.
#[repr(C)]
#[derive(Clone, Copy)]
pub struct Which {
    pub number: u32,
    pub sheet: u32,
    pub place: u32,
    pub kind: u32,
    pub subject: u32,
    pub line: u32,
}

// How far a search has come: what it stands at, a location, a group or the number of a joint switch, and how many obligations are still to be
// passed over.
#[derive(Clone, Copy)]
pub struct Spot {
    pub at: u32,
    pub left: u32,
}

// An obligation of a joint switch: the number of the joint switch, the location that it leaves, its event, its number among those of its
// event, and the line.
#[derive(Clone, Copy)]
pub struct JumpLine {
    pub number: u32,
    pub location: u32,
    pub event: u32,
    pub nth: u32,
    pub line: u32,
}

// Where an obligation was found: at a location, in a group, with its line; or at a joint switch.
#[derive(Clone, Copy)]
pub enum Sought {
    AtLocation(u32, u32, u32),
    AtJoint(JumpLine),
}

// Where the row of a hypothesis stands: in the model or in the second sheet, at a place and with a size in bytes; or in no sheet.
#[derive(Clone, Copy)]
pub enum RowFound {
    InModel(u32, u32),
    InSecond(u32, u32),
    Nowhere,
}

// Where the row of a hypothesis stands; its role, which is the form of its line; and its owner.
#[derive(Clone, Copy)]
pub struct Located {
    pub row: RowFound,
    pub role: u32,
    pub owner: u32,
}

// A hypothesis by its number: 0, the sheet of its row (0 the model, 1 the second sheet, 2 none), the place of its first byte, how many bytes it
// has, its role (0 an initial row, 1 a region row, 2 an invariant on x, 3 an unsafe row, 4 an invariant on x', 5 a flow row, 6 the time, 7 a
// jump row, 8 a staying variable's), and the component or variable that it belongs to, or 0; or why it is refused, then with 0 0 0.
#[repr(C)]
#[derive(Clone, Copy)]
pub struct Shown {
    pub number: u32,
    pub sheet: u32,
    pub place: u32,
    pub size: u32,
    pub role: u32,
    pub owner: u32,
}
