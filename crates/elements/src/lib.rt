// The elements of a store on a lent machine. What a store's elements have in common is decided once, in an
// access; they are then read by number.
#![tactic(auto)]

mod machine;

ghost use Rattle.std.specs.Prelude.{◌≡◌, ◌+◌, ◌-◌, ◌*◌, ◌/◌, ◌%◌, ◌^◌, ◌<◌, ◌≤◌, false, [], length, pos, ◌*ℤ◌, if◌then◌else◌, nat_eq, slice_index, unsigned_abs};
ghost use Rattle.std.specs.Int.{w64};
ghost use Rattle.std.proofs.Common.{of_z};
ghost use Rattle.encoding.specs.Encoding.{class_for, refused};
ghost use Rattle.elements.specs.Machine.{machine, lent, register, bit_at};
ghost use Rattle.elements.specs.Stores.{signed32, start_of};
ghost use Rattle.elements.specs.Accesses.{scatter_access, quadword_access, strided_of};
ghost use Rattle.elements.specs.Accesses.{offset_bytes, offset_from, address_from, vector_address, vector_active};
ghost use Rattle.elements.specs.Accesses.{strided_active};

use encoding::{Extension, Number, QuadwordFields, ScatterFields, Store, StridedFields};
pub use machine::Machine;

// That an access is sound (`VectorSound`, `StridedSound`) is asked by those who use it, and no ghost field of it: `scatter_access`,
// `quadword_access` and `strided_of` in specs/ make an access of any machine and any fields, refused ones too.

// A scatter or quadword store: offset and base of each address, bytes from element to element, bytes to move, the elements' number,
// and the registers with the offsets, the predicate and the data.
#[derive(Clone, Copy)]
pub struct VectorAccess {
    pub extension: Option<Extension>,
    pub scale: u32,
    pub base: u64,
    pub step: usize,
    pub size: usize,
    pub count: usize,
    pub offsets: usize,
    pub governing: usize,
    pub stored: usize,
}

// A strided store. Of its elements those can be active that lie `gap` bytes apart, the larger of an element's bytes and the counter's
// unit: its first address, the active ones of them, from `low` up to `high`, their distance and their bytes, how many of them a register
// has, and its registers: their number, the first, and the distance from one to the next.
#[derive(Clone, Copy)]
pub struct StridedAccess {
    pub start: u64,
    pub low: usize,
    pub high: usize,
    pub gap: usize,
    pub size: usize,
    pub per: usize,
    pub nreg: usize,
    pub first: usize,
    pub stride: usize,
}

// Of the elements that lie `gap` bytes apart, `per` in a register: those from `low` up to `high`.
#[derive(Clone, Copy)]
pub struct Range {
    pub low: usize,
    pub high: usize,
    pub gap: usize,
    pub per: usize,
}

// Elements and bytes, counted where they are written.
#[derive(Clone, Copy)]
pub struct Counts {
    pub elements: u64,
    pub bytes: u64,
}

impl<'a> Machine<'a> {
    // The machine of these parts. Nothing is asked of them: `z` is a slice here, and so brings the fact of the ghost field.
    pub fn new(vb: usize, x: &'a [u64; 31], sp: u64, z: &'a [u8], p: &'a [u8]) -> Machine<'a>
        ensures { lent result ≡ machine vb x.now sp z.now p.now }
    {
        Machine { vb, x, sp, z, p }
    }
}

// Bit i of a row of bytes.
pub fn bit(s: &[u8], i: usize) -> bool
    requires { i / 8 < length s.now }
    ensures { result ≡ bit_at s.now i }
{
    (s[i / 8] >> (i % 8)) % 2 == 1
}

// General register n; `last` for number 31.
pub fn general(x: &[u64; 31], last: u64, n: u8) -> u64
    requires { n < 32 }
    ensures { result ≡ (if nat_eq n 31 then last else slice_index x.now n) }
{
    if n == 31 { last } else { x[usize::from(n)] }
}

// The bytes of register r of a buffer whose registers have n bytes each.
pub fn register_of(s: &[u8], n: usize, r: usize) -> &[u8]
    requires { r * n + n ≤ length s.now }
    ensures { result.now ≡ register n s.now r }
{
    &s[r * n..][..n]
}

// x * 2^s, modulo 2^64.
pub fn scaled(x: u64, s: u32) -> u64
    requires { s < 64 }
    ensures { result ≡ (x * 2 ^ s) % 2 ^ 64 }
{
    x << s
}

// A number below 2^32, extended by its sign to 64 bits.
fn extended(x: u64) -> u64
    requires { x < 2 ^ 32 }
    ensures { result ≡ signed32 x }
{
    i64::from((x as u32).cast_signed()).cast_unsigned()
}

// The offset whose element starts at byte `at` of its register.
fn offset(extension: Option<Extension>, reg: &[u8], at: usize) -> u64
    requires { at + offset_bytes extension ≤ length reg.now }
    ensures { result ≡ offset_from extension reg.now at }
{
    match extension {
        None => endian::le64(reg, at),
        Some(Extension::Uxtw) => endian::le32(reg, at),
        Some(Extension::Sxtw) => extended(endian::le32(reg, at)),
    }
}

// The address of the element whose offset starts at byte `at` of its register.
pub fn address_from(
    base: u64,
    extension: Option<Extension>,
    scale: u32,
    offsets: &[u8],
    at: usize,
) -> u64
    requires extension_in_bounds { at + offset_bytes extension ≤ length offsets.now }
    requires scale_bound { scale < 64 }
    ensures { result ≡ address_from base extension scale offsets.now at }
{
    let o = offset(extension, offsets, at);
    base.wrapping_add(scaled(o, scale))
}

impl VectorAccess {
    // The address of element e.
    pub fn address(self, offsets: &[u8], e: usize) -> u64
        requires extension_in_bounds { e * self.step + offset_bytes self.extension ≤ length offsets.now }
        requires scale_bound { self.scale < 64 }
        ensures { result ≡ vector_address self offsets.now e }
    {
        address_from(
            self.base,
            self.extension,
            self.scale,
            offsets,
            e * self.step,
        )
    }

    // Whether element e is active.
    pub fn is_active(self, governing: &[u8], e: usize) -> bool
        requires step_in_bounds { e * self.step / 8 < length governing.now }
        requires step_bound { e * self.step < 0x10000 }
        ensures { result ≡ vector_active self governing.now e }
    {
        bit(governing, e * self.step)
    }
}

impl StridedAccess {
    // Whether the element is active whose first byte is the i-th of the registers' bytes.
    pub fn is_active(self, i: usize) -> bool
        requires { 0 < self.gap }
        ensures { result ≡ strided_active self i }
    {
        let k = i / self.gap;
        (i % self.gap == 0) & ((self.low <= k) & (k < self.high))
    }

    // The address i bytes behind the first.
    pub fn address(self, i: usize) -> u64
        ensures { result ≡ (self.start + i) % 2 ^ 64 }
    {
        self.start.wrapping_add(i as u64)
    }
}

// base + z * unit, modulo 2^64.
pub fn displaced(base: u64, z: i64, unit: usize) -> u64
    requires { (unsigned_abs z ≤ 64) × (unit ≤ 256) }
    ensures { result ≡ (base + of_z w64 (z *ℤ pos unit)) % 2 ^ 64 }
{
    base.wrapping_add_signed(z * unit as i64)
}

pub fn scatter_access(f: ScatterFields, vb: usize, x: &[u64; 31], sp: u64) -> VectorAccess
    requires { (refused (Store.Scatter f) ≡ false) × (vb ≤ 256) }
    ensures { result ≡ scatter_access (machine vb x.now sp [] []) (class_for (Store.Scatter f)) f }
{
    let base = general(x, sp, f.rn);
    let extension = f.extension;
    let step = encoding::number_for(f.class, Number::Step) as usize;
    let size = encoding::number_for(f.class, Number::Size) as usize;
    let scale = encoding::number_for(f.class, Number::Scale);
    VectorAccess {
        base,
        extension,
        scale,
        step,
        size,
        count: vb / step,
        offsets: usize::from(f.zm),
        governing: usize::from(f.pg),
        stored: usize::from(f.zt),
    }
}

pub fn quadword_access(f: QuadwordFields, vb: usize, x: &[u64; 31]) -> VectorAccess
    requires { (refused (Store.Quadword f) ≡ false) × (vb ≤ 256) }
    ensures { result ≡ quadword_access (machine vb x.now 0 [] []) (class_for (Store.Quadword f)) f }
{
    let base = general(x, 0, f.rm);
    let quadword = encoding::number_for(f.class, Number::Step) as usize;
    let size = encoding::number_for(f.class, Number::Size) as usize;
    VectorAccess {
        base,
        extension: None,
        scale: 0,
        step: quadword,
        size,
        count: vb / quadword,
        offsets: usize::from(f.zn),
        governing: usize::from(f.pg),
        stored: usize::from(f.zt),
    }
}

// The first address of a strided store.
pub fn start_of(f: StridedFields, vb: usize, x: &[u64; 31], sp: u64) -> u64
    requires { (refused (Store.Strided f) ≡ false) × (vb ≤ 256) }
    ensures { result ≡ start_of (machine vb x.now sp [] []) (class_for (Store.Strided f)) f.rn f.rm f.multiple % 2 ^ 64 }
{
    let start = general(x, sp, f.rn);
    if encoding::number_for(f.class, Number::RmValues) == 1 {
        return displaced(start, i64::from(f.multiple), vb);
    }
    let index = general(x, 0, f.rm);
    let scale = encoding::number_for(f.class, Number::Scale);
    start.wrapping_add(scaled(index, scale))
}

// From one register of a strided store to the next: 8 for two, 4 for four.
fn stride_of(nreg: u32) -> usize
    ensures { result ≡ (if nat_eq nreg 2 then 8 else 4) }
{
    if nreg == 2 { 8 } else { 4 }
}

// A strided store's access, by its first address and its range. The callers find those two, so that this is little and inlined.
pub fn strided_access(f: StridedFields, start: u64, range: Range) -> StridedAccess
    requires { refused (Store.Strided f) ≡ false }
    ensures { result ≡ strided_of (class_for (Store.Strided f)) f start range }
{
    let nreg = encoding::number_for(f.class, Number::Nreg);
    let size = encoding::number_for(f.class, Number::Size) as usize;
    StridedAccess {
        start,
        low: range.low,
        high: range.high,
        gap: range.gap,
        size,
        per: range.per,
        nreg: nreg as usize,
        first: usize::from(f.first),
        stride: stride_of(nreg),
    }
}
