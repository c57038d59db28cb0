// Numbers of four bytes, as rows have them.
ghost use Rattle.std.specs.Prelude.{◌≡◌, ◌+◌, ◌^◌, ◌≤◌, ◌<◌, nat_abs, length, take, drop};
ghost use Rattle.farkas.specs.Words.{big_endian, signed_at};

// The four bytes at a place that has them, as a number. They are read with the first byte lowest and then turned: of that the compiler makes
// a load and a turn before it decides what to inline, and fourteen instructions of `from_be_bytes`.
pub fn number(s: &[u8], at: usize) -> u32
    requires { at + 4 ≤ length s.now }
    ensures { result ≡ big_endian (take 4 (drop at s.now)) }
{
    u32::from_le_bytes([s[at], s[at + 1], s[at + 2], s[at + 3]]).swap_bytes()
}

// The four bytes at a place that has them, as a signed number. Compiled, they are one load and a turn.
pub fn signed_word(s: &[u8], at: usize) -> i64
    requires { (at + 4 ≤ length s.now) × (length s.now < 2 ^ 20) }
    ensures value { result ≡ signed_at s.now at }
    ensures result_bound { nat_abs result ≤ 2 ^ 31 }
{
    i64::from(number(s, at).cast_signed())
}
