// A text that keeps the rules, worked out (number 17): readers of expression, term and factor that call each other. A left operand is
// read before its right one, and both before their operator. Each reader skips the blanks before what it reads.
ghost use Rattle.std.specs.Prelude.{◌≡◌, ◌≤◌, length};
ghost use Rattle.typed.specs.Following.{ReadsExpression, ReadsSums, ReadsTerm, ReadsProducts, ReadsFactor};
ghost use Rattle.typed.specs.Working.{row_at};

use crate::forms::{Fault, Worked, collect, join, multiply, zero_form};
use crate::reading::{close_bracket, number, skip, variable};
use crate::signs::{Sign, sense, sign_at};

// A text, and in how many variables it is worked out.
#[derive(Clone, Copy)]
struct Source<'a> {
    text: &'a [u8],
    n: u8,
    ghost few: { n ≤ 8 },
}

impl Source<'_> {
    // An expression from a place on: a term, and what is added to it or taken from it. `term` has its shape one level below, but other signs
    // and another definition: one function for both would ask at each turn which of the two it is. What was read is handed on by reference, and
    // this reader is a part of those that call it: by `?` and by value a form is copied at each level, and brackets took half as long again.
    #[cycle(readers)]
    #[inline(always)]
    fn expression(&self, at: usize) -> Result<Worked, Fault>
        ensures { ReadsExpression self.now.n self.now.text.now at result }
    {
        let left = self.term(at);
        match &left {
            Ok(read) => self.sums(read),
            Err(fault) => Err(*fault),
        }
    }

    // What is added to an expression that was read so far, or taken from it.
    #[cycle(readers)]
    fn sums(&self, left: &Worked) -> Result<Worked, Fault>
        requires { left.now.next ≤ length self.now.text.now }
        ensures { ReadsSums self.now.n self.now.text.now left.now result }
    {
        let place = skip(self.text, left.next);
        let sign = sign_at(self.text, place);
        match sign {
            Sign::Plus | Sign::Minus => {
                let right = self.term(place + 1)?;
                let both = join(place, left.form, sense(sign), right)?;
                self.sums(&both)
            }
            _ => Ok(*left),
        }
    }

    // A term from a place on: a factor, and what it is multiplied with.
    #[cycle(readers)]
    fn term(&self, at: usize) -> Result<Worked, Fault>
        ensures { ReadsTerm self.now.n self.now.text.now at result }
    {
        let left = self.factor(at);
        match &left {
            Ok(read) => self.products(read),
            Err(fault) => Err(*fault),
        }
    }

    // What a term that was read so far is multiplied with.
    #[cycle(readers)]
    fn products(&self, left: &Worked) -> Result<Worked, Fault>
        requires { left.now.next ≤ length self.now.text.now }
        ensures { ReadsProducts self.now.n self.now.text.now left.now result }
    {
        let place = skip(self.text, left.next);
        let Sign::Times = sign_at(self.text, place) else {
            return Ok(*left);
        };
        let right = self.factor(place + 1)?;
        let both = multiply(place, left.form, right)?;
        self.products(&both)
    }

    // A factor from a place on: a number, a letter, a bracket, or a minus and a factor.
    #[cycle(readers)]
    fn factor(&self, at: usize) -> Result<Worked, Fault>
        ensures { ReadsFactor self.now.n self.now.text.now at result }
    {
        let place = skip(self.text, at);
        let sign = sign_at(self.text, place);
        match sign {
            Sign::Digit(_) => number(self.text, place),
            Sign::Letter(letter) => variable(self.n, place, letter),
            Sign::Open => {
                let inner = self.expression(place + 1);
                match &inner {
                    Ok(read) => close_bracket(self.text, read),
                    Err(fault) => Err(*fault),
                }
            }
            Sign::Minus => {
                let right = self.factor(place + 1)?;
                join(place, zero_form(), -1, right)
            }
            _ => Err(Fault { place }),
        }
    }
}

// A whole row: both sides, then the collecting at the `<`.
pub fn work(text: &[u8], n: u8) -> Result<Worked, Fault>
    requires { n ≤ 8 }
    ensures { result ≡ row_at n text.now }
{
    let source = Source { text, n };
    let left = source.expression(0)?;
    let place = skip(text, left.next);
    let right = source.expression(place + 2)?;
    collect(place, left.form, right)
}
