// Bytes written into a lent buffer, one after the other. What does not fit is left out, and the place after it is told all the same: so the
// length that a text needs is known even where the buffer is too short. Bytes past what is written stay.
#![tactic(auto)]

ghost use Rattle.std.specs.Prelude.{◌≡◌, [], ◌∷◌, ◌+◌, ◌<◌, ◌^◌, length};
ghost use Rattle.buffers.specs.Over.{over, word, half};

// One byte, where there is room for it. The place after it.
// By index: after `get_mut` of a slice only its length is known, and not what it holds.
pub fn put_byte(out: &mut [u8], at: usize, b: u8) -> usize
    requires { at < 2 ^ 62 }
    ensures { (result ≡ at + 1) × (out.new ≡ over out.old at (b ∷ [])) }
{
    if out.len() <= at {
        return at + 1;
    }
    out[at] = b;
    at + 1
}

// Some bytes. The place after them.
pub fn put_bytes(out: &mut [u8], at: usize, bytes: &[u8]) -> usize
    requires { at + length bytes.now < 2 ^ 62 }
    ensures { (result ≡ at + length bytes.now) × (out.new ≡ over out.old at bytes.now) }
{
    for (i, byte) in bytes.iter().enumerate() {
        put_byte(out, at + i, *byte);
    }
    at + bytes.len()
}

// Two bytes, the higher first. The place after them.
pub fn put_half(out: &mut [u8], at: usize, v: u32) -> usize
    requires { at < 2 ^ 61 }
    ensures { (result ≡ at + 2) × (out.new ≡ over out.old at (half v)) }
{
    let [_, _, high, low] = v.to_be_bytes();
    put_bytes(out, at, &[high, low])
}

// Four bytes, the highest first. The place after them.
// A call for each byte: by `put_bytes` a copy into a buffer that is too short takes 3 in 100 instructions more.
pub fn put_word(out: &mut [u8], at: usize, v: u32) -> usize
    requires { at < 2 ^ 61 }
    ensures { (result ≡ at + 4) × (out.new ≡ over out.old at (word v)) }
{
    let [a, b, c, d] = v.to_be_bytes();
    let second = put_byte(out, at, a);
    let third = put_byte(out, second, b);
    let fourth = put_byte(out, third, c);
    put_byte(out, fourth, d)
}
