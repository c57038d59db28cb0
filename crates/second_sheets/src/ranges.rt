// The ranges of the second sheets' numbers, and how a certificate's regions are kept.

// The most that k, a multiplier, q and a time may be: 2^24 − 1.
pub const MOST_FACTOR: u32 = 16777215;

// The most entries of a proof, steps of a run, rows of a region, and locations.
pub const MOST_ENTRIES: u32 = 128;

pub const MOST_STEPS: u32 = 4095;

pub const MOST_REGION_ROWS: u32 = 16;

// A value of a state lies from −2^27 to 2^27.
pub const MOST_VALUE: i64 = 134217728;

pub const LEAST_VALUE: i64 = -134217728;

// A run's location byte stands so far behind the first byte of q: four bytes of q and two of steps.
pub const LOCATION_OFFSET: usize = 6;

// Two numbers for each of up to 64 locations: the place of its region's first row, and how many rows it has.
pub const REGIONS_LENGTH: usize = 128;

pub type Regions = [u16; REGIONS_LENGTH];
