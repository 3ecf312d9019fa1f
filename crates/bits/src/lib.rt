// Fields of a string of bytes: reading them, packing them into a buffer, and writing results into lent slices.
#![tactic(auto)]

pub mod read;

ghost use Rattle.std.specs.Prelude.{◌≡◌, ◌+◌, ◌*◌, ◌/◌, ◌^◌, ◌≤◌, ◌<◌, length, take};
ghost use Rattle.bits.specs.Bits.{digits, be16, over};
ghost use Rattle.bits.specs.Fields.{put_bits, ClearFrom, laid_at};

// A number put as a field of `width` bits at the bit `at` of a buffer that is zero from there on.
pub fn put(buf: &mut [u8], at: usize, width: usize, value: usize)
    requires width_bound { width ≤ 20 }
    requires value_bound { value < 2 ^ width }
    requires at_bound { at < 2 ^ 32 }
    requires at_in_bounds { at / 8 + 4 ≤ length buf.old }
    requires clear_from { ClearFrom at buf.old }
    ensures { buf.new ≡ put_bits buf.old at (digits width value) }
{
    let i = at / 8;
    let word = value << (32 - at % 8 - width);
    buf[i] = (buf[i] as usize + word / 16777216) as u8;
    buf[i + 1] = (word / 65536 % 256) as u8;
    buf[i + 2] = (word / 256 % 256) as u8;
    buf[i + 3] = (word % 256) as u8;
}

// The first n bytes of `src` written at the start of `dst`.
pub fn copy_front(src: &[u8], n: usize, dst: &mut [u8])
    requires of_source { n ≤ length src.now }
    requires room { n ≤ length dst.old }
    ensures { dst.new ≡ over (take n src.now) dst.old }
{
    dst[..n].copy_from_slice(&src[..n]);
}

// A number in 16 bits, most significant byte first, written at the place of the number `index` as far as the slice reaches.
pub fn lay16(buf: &mut [u8], index: usize, value: usize)
    requires { index < 2 ^ 16 }
    ensures { buf.new ≡ laid_at (index * 2) (be16 value) buf.old }
{
    let at = index * 2;
    if at + 1 < buf.len() {
        buf[at] = (value / 256 % 256) as u8;
        buf[at + 1] = (value % 256) as u8;
    } else if at < buf.len() {
        buf[at] = (value / 256 % 256) as u8;
    }
}
