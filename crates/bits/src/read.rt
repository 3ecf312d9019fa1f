// Reading fields, and the end of a string.
ghost use Rattle.std.specs.Prelude.{◌≡◌, ◌*◌, ◌^◌, ◌≤◌, ◌<◌, get_or, drop};
ghost use Rattle.bits.specs.Bits.{bits, leading};
ghost use Rattle.bits.specs.Reading.{is_closed};
ghost use Rattle.bits.specs.Fields.{field_at};

// The byte at i, 0 past the end.
fn byte_at(s: &[u8], i: usize) -> usize
    ensures value { result ≡ get_or s.now i 0 }
    ensures byte { result < 256 }
{
    s.get(i).map_or(0, |&b| usize::from(b))
}

// The 24 bits from byte i on, as a number.
fn window(s: &[u8], i: usize) -> usize
    requires { i < 2 ^ 32 }
    ensures { result ≡ leading 24 0 (drop (i * 8) (bits s.now)) }
{
    byte_at(s, i) * 65536 + byte_at(s, i + 1) * 256 + byte_at(s, i + 2)
}

// The field of `width` bits that starts at the bit `at`, if the bytes do not end inside it.
pub fn field(s: &[u8], at: usize, width: usize) -> Option<usize>
    requires width_bound { width ≤ 12 }
    requires at_bound { at < 2 ^ 32 }
    ensures { result ≡ field_at s.now at width }
{
    if (at + width + 7) / 8 <= s.len() {
        let shown = window(s, at / 8);
        Some((shown >> (24 - at % 8 - width)) % (1 << width))
    } else {
        None
    }
}

// The end: fewer than eight bits are left after the bit `at`, all zero.
pub fn closed(s: &[u8], at: usize) -> bool
    requires { at < 2 ^ 32 }
    ensures { result ≡ is_closed (drop at (bits s.now)) }
{
    s.len() <= (at + 7) / 8 && byte_at(s, at / 8) % (1 << (8 - at % 8)) == 0
}
