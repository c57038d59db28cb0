// Linear forms in eight variables, as typed expressions are worked out to: sums, products and the collecting. Every one of the nine
// numbers lies in s32, or the operator is refused as 17.
ghost use Rattle.std.specs.Prelude.{◌≡◌, ◌+ℤ◌, ◌*ℤ◌, Ok};
ghost use Rattle.typed.specs.Forms.{zero_form, entry_of, joined, multiplied, collected_at};
ghost use Rattle.typed.specs.Forms as forms;

use farkas::multiply_add;

// A coefficient for each of eight variables, and a number.
#[derive(Clone, Copy)]
pub struct Form {
    pub coefficients: [i32; 8],
    pub number: i32,
}

// What was worked out, and the place after it.
#[derive(Clone, Copy)]
pub struct Worked {
    pub form: Form,
    pub next: usize,
}

// What is refused as 17: its place.
#[derive(Clone, Copy)]
pub struct Fault {
    pub place: usize,
}

// The form 0.
pub fn zero_form() -> Form
    ensures { result ≡ zero_form }
{
    Form {
        coefficients: [0; 8],
        number: 0,
    }
}

// x + m * y, if it lies in s32.
fn entry_of(x: i32, m: i32, y: i32) -> Option<i32>
    ensures { result ≡ entry_of (x +ℤ m *ℤ y) }
{
    i32::try_from(multiply_add(i64::from(x), i64::from(m), i64::from(y))).ok()
}

// A right operand joined to the left one, m times, if all nine numbers lie in s32; else the operator at this place is refused.
pub fn join(place: usize, left: Form, m: i32, right: Worked) -> Result<Worked, Fault>
    ensures { result ≡ joined place left m (Ok right) }
{
    let mut coefficients = left.coefficients;
    let from = right.form.coefficients;
    for i in 0..8 {
        coefficients[i] = entry_of(coefficients[i], m, from[i]).ok_or(Fault { place })?;
    }
    let number = entry_of(left.number, m, right.form.number).ok_or(Fault { place })?;
    let form = Form {
        coefficients,
        number,
    };
    Ok(Worked {
        form,
        next: right.next,
    })
}

// Whether a form has a coefficient other than 0.
fn varies(form: Form) -> bool
    ensures { result ≡ forms.varies form }
{
    form.coefficients.iter().any(|c| *c != 0)
}

// A right factor multiplied with the left one, if one of the two is a mere number, at the operator's place.
pub fn multiply(place: usize, left: Form, right: Worked) -> Result<Worked, Fault>
    ensures { result ≡ multiplied place left (Ok right) }
{
    if !varies(left) {
        return join(place, zero_form(), left.number, right);
    }
    if varies(right.form) {
        return Err(Fault { place });
    }
    let times = right.form.number;
    let factor = Worked {
        form: left,
        next: right.next,
    };
    join(place, zero_form(), times, factor)
}

// The right side collected with the left one, at the `<`: coefficients of left minus right, number of right minus left.
pub fn collect(place: usize, left: Form, right: Worked) -> Result<Worked, Fault>
    ensures { result ≡ collected_at place left (Ok right) }
{
    let above = Form {
        number: right.form.number,
        ..left
    };
    let below = Form {
        number: left.number,
        ..right.form
    };
    let side = Worked {
        form: below,
        next: right.next,
    };
    join(place, above, -1, side)
}
