// Whether a text keeps the rules (number 16): one pass over its signs, which stops at the first one that no ending could mend.
ghost use Rattle.std.specs.Prelude.{◌≡◌, ◌^◌, ◌<◌, Some};
ghost use Rattle.typed.specs.Scan.{step, accepted, live};
ghost use Rattle.typed.specs.Scan as scanning;

use crate::signs::{Sign, sign_of};

// What may come next: a factor; more digits, or what follows a factor; what follows a factor; the `=` of `<=`.
#[derive(Clone, Copy)]
pub enum Phase {
    Awaiting,
    Counting,
    Complete,
    Half,
}

// Signs that some ending mends: what may come next, how many brackets are open, and whether `<=` has been passed.
#[derive(Clone, Copy)]
pub struct Live {
    pub phase: Phase,
    pub depth: usize,
    pub right: bool,
}

// A text that breaks the rules: the place.
#[derive(Clone, Copy)]
pub struct Breach {
    pub place: usize,
}

impl Live {
    // The same brackets and side, with what may come next.
    fn then(self, phase: Phase) -> Option<Live>
        ensures { result ≡ live phase self.depth self.right }
    {
        Some(Live { phase, ..self })
    }

    // After a closing bracket.
    fn closed(self) -> Option<Live>
        ensures { result ≡ scanning.closed self.depth self.right }
    {
        let depth = self.depth.checked_sub(1)?;
        Some(Live {
            phase: Phase::Complete,
            depth,
            ..self
        })
    }

    // After the `<` of `<=`: it stands once, outside all brackets.
    fn compared(self) -> Option<Live>
        ensures { result ≡ scanning.compared self.depth self.right }
    {
        if self.depth != 0 {
            return None;
        }
        if self.right {
            None
        } else {
            self.then(Phase::Half)
        }
    }

    // After a factor.
    fn after_factor(self, sign: Sign) -> Option<Live>
        ensures { result ≡ scanning.after_factor self.depth self.right sign }
    {
        match sign {
            Sign::Blank => self.then(Phase::Complete),
            Sign::Plus | Sign::Minus | Sign::Times => self.then(Phase::Awaiting),
            Sign::Close => self.closed(),
            Sign::Less => self.compared(),
            _ => None,
        }
    }

    // After a digit.
    fn in_number(self, sign: Sign) -> Option<Live>
        ensures { result ≡ scanning.in_number self.depth self.right sign }
    {
        match sign {
            Sign::Digit(_) => self.then(Phase::Counting),
            _ => self.after_factor(sign),
        }
    }

    // Where a factor is to begin.
    fn before_factor(self, sign: Sign) -> Option<Live>
        requires { self.depth < 2 ^ 63 }
        ensures { result ≡ scanning.before_factor self.depth self.right sign }
    {
        match sign {
            Sign::Blank | Sign::Minus => self.then(Phase::Awaiting),
            Sign::Digit(_) => self.then(Phase::Counting),
            Sign::Letter(_) => self.then(Phase::Complete),
            Sign::Open => Some(Live {
                phase: Phase::Awaiting,
                depth: self.depth + 1,
                ..self
            }),
            _ => None,
        }
    }

    // One sign further: none where no ending mends the signs so far.
    fn advance(self, sign: Sign) -> Option<Live>
        requires { self.depth < 2 ^ 63 }
        ensures { result ≡ step (Some self) sign }
    {
        match self.phase {
            Phase::Awaiting => self.before_factor(sign),
            Phase::Counting => self.in_number(sign),
            Phase::Complete => self.after_factor(sign),
            Phase::Half => after_less(sign),
        }
    }

    // Whether a text may end here.
    fn accepts(self) -> bool
        ensures { result ≡ accepted (Some self) }
    {
        match self.phase {
            Phase::Awaiting | Phase::Half => false,
            Phase::Counting | Phase::Complete => self.depth == 0 && self.right,
        }
    }
}

// After `<` nothing but `=` stands, with no blank between.
fn after_less(sign: Sign) -> Option<Live>
    ensures { result ≡ scanning.after_less sign }
{
    match sign {
        Sign::Equal => Some(Live {
            phase: Phase::Awaiting,
            depth: 0,
            right: true,
        }),
        _ => None,
    }
}

// Whether the text keeps the rules, or the place where it breaks them.
pub fn scan(text: &[u8]) -> Result<(), Breach>
    ensures { result ≡ scanning.scanned text.now }
{
    let mut live = Live {
        phase: Phase::Awaiting,
        depth: 0,
        right: false,
    };
    for (place, byte) in text.iter().enumerate() {
        live = live.advance(sign_of(*byte)).ok_or(Breach { place })?;
    }
    if live.accepts() {
        Ok(())
    } else {
        Err(Breach { place: text.len() })
    }
}
