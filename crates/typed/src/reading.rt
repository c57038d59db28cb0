// What a factor is made of, read from the text: blanks, whole numbers, letters, and the end of a bracket.
ghost use Rattle.std.specs.Prelude.{◌≡◌, ◌^◌, ◌≤◌, ◌<◌, Ok};
ghost use Rattle.typed.specs.Forms.{variable_at};
ghost use Rattle.typed.specs.Working.{whole_at, closed_at, digits_at};
ghost use Rattle.typed.specs.Working as working;

use crate::forms::{Fault, Form, Worked};
use crate::signs::{Sign, sign_at, sign_of};

// The first whole number that lies outside s32, 2 ^ 31. Longer runs of digits are held as this one.
const NUMBER_LIMIT: u64 = 2147483648;

// A run of digits as a number, cut at the limit, and the place after it.
#[derive(Clone, Copy)]
pub struct Digits {
    pub value: u64,
    pub next: usize,
}

// The place after the blanks.
pub fn skip(text: &[u8], at: usize) -> usize
    ensures { result ≡ working.skip text.now at }
{
    for place in at..text.len() {
        let Sign::Blank = sign_of(text[place]) else {
            return place;
        };
    }
    at.max(text.len())
}

// The digits from a place on.
fn read_digits(text: &[u8], at: usize) -> Digits
    ensures { result ≡ digits_at text.now at }
{
    let mut value: u64 = 0;
    for place in at..text.len() {
        let Sign::Digit(digit) = sign_of(text[place]) else {
            return Digits { value, next: place };
        };
        value = (value * 10 + u64::from(digit)).min(NUMBER_LIMIT);
    }
    let next = at.max(text.len());
    Digits { value, next }
}

// A letter: one of the first n variables, or refused.
#[tactic(auto, unfolding(crate::specs::Forms::variable_at))]
pub fn variable(n: u8, place: usize, letter: u8) -> Result<Worked, Fault>
    requires { (n ≤ 8) × (place < 2 ^ 63) }
    ensures { result ≡ variable_at n place letter }
{
    if n <= letter {
        return Err(Fault { place });
    }
    let mut coefficients = [0; 8];
    coefficients[usize::from(letter)] = 1;
    let form = Form {
        coefficients,
        number: 0,
    };
    Ok(Worked {
        form,
        next: place + 1,
    })
}

// A whole number, refused at its first digit.
pub fn number(text: &[u8], place: usize) -> Result<Worked, Fault>
    ensures { result ≡ whole_at text.now place }
{
    let digits = read_digits(text, place);
    // By the limit and not by `try_from`: the edit cap_one_too_low must refuse a number that can be typed.
    if NUMBER_LIMIT <= digits.value {
        return Err(Fault { place });
    }
    let form = Form {
        coefficients: [0; 8],
        number: digits.value as i32,
    };
    Ok(Worked {
        form,
        next: digits.next,
    })
}

// The end of a bracket after its expression.
pub fn close_bracket(text: &[u8], inner: &Worked) -> Result<Worked, Fault>
    ensures { result ≡ closed_at text.now (Ok inner.now) }
{
    let place = skip(text, inner.next);
    let Sign::Close = sign_at(text, place) else {
        return Err(Fault { place });
    };
    Ok(Worked {
        next: place + 1,
        form: inner.form,
    })
}
