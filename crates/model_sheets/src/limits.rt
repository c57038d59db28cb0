// The limits that a caller states: the exam's, and whether any two fit.
ghost use Rattle.std.specs.Prelude.{◌≡◌, T};
ghost use Rattle.formats.specs.ModelSheet.{exam_limits, limit_fits, limits_fit};

use formats::Limits;

// How many locations and joint switches a model may have at the exam desk, and at most at any desk.
pub const LOCATIONS: u32 = 64;

pub const JOINTS: u32 = 4096;

// The limits that the exam desk states; they fit.
pub fn exam_limits() -> Limits
    ensures value { result ≡ exam_limits }
    ensures t { T (limits_fit result) }
{
    Limits {
        locations: LOCATIONS,
        joints: JOINTS,
    }
}

// Whether a stated limit fits: it is at least 1 and at most the exam's.
fn limit_fits(limit: u32, exam: u32) -> bool
    ensures { result ≡ limit_fits limit exam }
{
    1 <= limit && limit <= exam
}

// Whether the limits that a caller states fit, each on its own.
pub fn limits_fit(limits: Limits) -> bool
    ensures { result ≡ limits_fit limits }
{
    limit_fits(limits.locations, LOCATIONS) && limit_fits(limits.joints, JOINTS)
}
