// Little-endian numbers in lent bytes, and bytes copied.
#![tactic(auto)]

ghost use Rattle.std.specs.Prelude.{◌≡◌, ◌+◌, ◌^◌, ◌≤◌, ◌<◌, length, take, drop};
ghost use Rattle.endian.specs.LittleEndian.{le_val, le_bytes};
ghost use Rattle.endian.specs.Overwriting.{overwritten};

// A byte as a word.
pub fn wide(x: u8) -> u64
    ensures { (result ≡ x) × (result < 256) }
{
    x as u64
}

// The number in the two bytes from index `at` on.
pub fn le16(s: &[u8], at: usize) -> u64
    requires { at + 2 ≤ length s.now }
    ensures { (result ≡ le_val (take 2 (drop at s.now))) × (result < 2 ^ 16) }
{
    let b0 = wide(s[at]);
    let b1 = wide(s[at + 1]);
    b0 + 256 * b1
}

// The number in the four bytes from index `at` on.
pub fn le32(s: &[u8], at: usize) -> u64
    requires { at + 4 ≤ length s.now }
    ensures { (result ≡ le_val (take 4 (drop at s.now))) × (result < 2 ^ 32) }
{
    let b0 = wide(s[at]);
    let b1 = wide(s[at + 1]);
    let b2 = wide(s[at + 2]);
    let b3 = wide(s[at + 3]);
    b0 + 256 * (b1 + 256 * (b2 + 256 * b3))
}

// The number in the eight bytes from index `at` on.
pub fn le64(s: &[u8], at: usize) -> u64
    requires { at + 8 ≤ length s.now }
    ensures { result ≡ le_val (take 8 (drop at s.now)) }
{
    let low = le32(s, at);
    let high = le32(s, at + 4);
    low + 0x1_0000_0000 * high
}

// The low two bytes of a number, the lower first, at index `at`.
pub fn put16(out: &mut [u8], at: usize, x: u64)
    requires { at + 2 ≤ length out.old }
    ensures { out.new ≡ overwritten out.old at (le_bytes 2 x) }
{
    out[at] = (x % 256) as u8;
    out[at + 1] = (x / 256 % 256) as u8;
}

// The low four bytes of a number.
pub fn put32(out: &mut [u8], at: usize, x: u64)
    requires { at + 4 ≤ length out.old }
    ensures { out.new ≡ overwritten out.old at (le_bytes 4 x) }
{
    put16(out, at, x);
    put16(out, at + 2, x / 0x10000);
}

// The eight bytes of a number.
pub fn put64(out: &mut [u8], at: usize, x: u64)
    requires { at + 8 ≤ length out.old }
    ensures { out.new ≡ overwritten out.old at (le_bytes 8 x) }
{
    put32(out, at, x);
    put32(out, at + 4, x / 0x1_0000_0000);
}

// Two bytes at index i, as a number: one move of each.
fn copy2(dst: &mut [u8], src: &[u8], i: usize)
    requires { (i + 2 ≤ length dst.old) × (i + 2 ≤ length src.now) }
    ensures { dst.new ≡ overwritten dst.old i (take 2 (drop i src.now)) }
{
    let x = le16(src, i);
    put16(dst, i, x);
}

// Four bytes at index i.
fn copy4(dst: &mut [u8], src: &[u8], i: usize)
    requires { (i + 4 ≤ length dst.old) × (i + 4 ≤ length src.now) }
    ensures { dst.new ≡ overwritten dst.old i (take 4 (drop i src.now)) }
{
    let x = le32(src, i);
    put32(dst, i, x);
}

// Eight bytes at index i.
fn copy8(dst: &mut [u8], src: &[u8], i: usize)
    requires { (i + 8 ≤ length dst.old) × (i + 8 ≤ length src.now) }
    ensures { dst.new ≡ overwritten dst.old i (take 8 (drop i src.now)) }
{
    let x = le64(src, i);
    put64(dst, i, x);
}

// Sixteen bytes at index i, both numbers read before they are put.
fn copy16(dst: &mut [u8], src: &[u8], i: usize)
    requires { (i + 16 ≤ length dst.old) × (i + 16 ≤ length src.now) }
    ensures { dst.new ≡ overwritten dst.old i (take 16 (drop i src.now)) }
{
    let low = le64(src, i);
    let high = le64(src, i + 8);
    put64(dst, i, low);
    put64(dst, i + 8, high);
}

// Sixteen bytes or more: sixteen at a time, and the last sixteen, which may overlap those.
fn copy_long(dst: &mut [u8], src: &[u8])
    requires { (16 ≤ length dst.old) × (length src.now ≡ length dst.old) }
    ensures { dst.new ≡ src.now }
{
    let n = dst.len();
    let mut i = 0;
    while 16 < n - i {
        copy16(dst, src, i);
        i += 16;
    }
    copy16(dst, src, n - 16);
}

// Any number of bytes: below sixteen, the first and the last of a width, which may overlap.
pub fn copy_any(dst: &mut [u8], src: &[u8])
    requires { length src.now ≡ length dst.old }
    ensures { dst.new ≡ src.now }
{
    let n = dst.len();
    if 16 <= n {
        copy_long(dst, src);
        return;
    }
    if 8 <= n {
        copy8(dst, src, 0);
        copy8(dst, src, n - 8);
        return;
    }
    if 4 <= n {
        copy4(dst, src, 0);
        copy4(dst, src, n - 4);
        return;
    }
    if 2 <= n {
        copy2(dst, src, 0);
        copy2(dst, src, n - 2);
        return;
    }
    if 1 <= n {
        dst[0] = src[0];
    }
}

// All bytes of one slice into another of its length. An element's bytes, 8, 16, 1, 4 or 2, are moved where this is called; the rest is
// `copy_any`, which has a second caller in `cutting`: what is called from one place alone would be moved there too. Five comparisons in a
// row would be made one jump through a table: a comparison by order stands between.
pub fn copy(dst: &mut [u8], src: &[u8])
    requires { length src.now ≡ length dst.old }
    ensures { dst.new ≡ src.now }
{
    let n = dst.len();
    if n == 8 {
        copy8(dst, src, 0);
        return;
    }
    if n == 16 {
        copy16(dst, src, 0);
        return;
    }
    if n == 1 {
        dst[0] = src[0];
        return;
    }
    if n < 5 {
        if n == 4 {
            copy4(dst, src, 0);
            return;
        }
        if n == 2 {
            copy2(dst, src, 0);
            return;
        }
    }
    copy_any(dst, src);
}
