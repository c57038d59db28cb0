// The signs of a typed row: each byte is one, and only these have a meaning in it.
ghost use Rattle.std.specs.Prelude.{◌≡◌};
ghost use Rattle.typed.specs.Signs.{sign_of, sign_at};
ghost use Rattle.typed.specs.Turns.{sense_of};

// What a byte stands for: a digit with its value, a letter with its variable, a to h as 0 to 7, or nothing.
#[derive(Clone, Copy)]
pub enum Sign {
    Blank,
    Digit(u8),
    Letter(u8),
    Open,
    Close,
    Plus,
    Minus,
    Times,
    Less,
    Equal,
    Other,
}

// The sign that a byte is.
#[tactic(auto, unfolding(crate::specs::Signs::sign_of))]
pub fn sign_of(byte: u8) -> Sign
    ensures { result ≡ sign_of byte }
{
    match byte {
        b' ' => Sign::Blank,
        b'(' => Sign::Open,
        b')' => Sign::Close,
        b'*' => Sign::Times,
        b'+' => Sign::Plus,
        b'-' => Sign::Minus,
        b'<' => Sign::Less,
        b'=' => Sign::Equal,
        b'0'..=b'9' => Sign::Digit(byte - b'0'),
        b'a'..=b'h' => Sign::Letter(byte - b'a'),
        _ => Sign::Other,
    }
}

// The sign at a place; past the end there is none.
pub fn sign_at(text: &[u8], at: usize) -> Sign
    ensures { result ≡ sign_at text.now at }
{
    match text.get(at) {
        Some(byte) => sign_of(*byte),
        None => Sign::Other,
    }
}

// How often the operand after a plus or a minus is added.
#[tactic(auto, unfolding(crate::specs::Turns::sense_of))]
pub fn sense(sign: Sign) -> i32
    ensures { result ≡ sense_of sign }
{
    match sign {
        Sign::Minus => -1,
        _ => 1,
    }
}
