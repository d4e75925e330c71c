// A strided store's counter: which elements are active under it.
#![tactic(auto)]

ghost use Rattle.std.specs.Prelude.{◌≡◌, false, [], ◌+◌, ◌-◌, ◌*◌, ◌^◌, ◌≤◌, ◌<◌, length};
ghost use Rattle.encoding.specs.Encoding.{class_for, refused};
ghost use Rattle.elements.specs.Machine.{machine};
ghost use Rattle.elements.specs.Counter.{counter_of, lowest_set, highest, count_in};
ghost use Rattle.elements.specs.Accesses.{border_of, low_of, high_of, range_for};

use elements::Range;
use encoding::{Number, Store, StridedFields};

// The counter of a store with this Pc.
fn counter_of(p: &[u8], vb: usize, pc: u8) -> u64
    requires { (pc < 8) × (16 ≤ vb) × (vb ≤ 256) × (length p.now ≡ 2 * vb) }
    ensures { result ≡ counter_of (machine vb [] 0 [] p.now) pc }
{
    endian::le16(elements::register_of(p, vb / 8, 8 + usize::from(pc)), 0)
}

// The index of a counter's lowest set bit among its low four.
pub fn lowest_set(v: u64) -> u32
    ensures { (result ≡ lowest_set v) × (result < 4) }
{
    v.trailing_zeros().min(3)
}

// A counter's count, with the index of its lowest set bit: what stands above that, up to bit log2(4 * vb).
pub fn counted(vb: usize, v: u64, shift: u32) -> u64
    requires vb_value { (4 * vb ≡ 2 ^ highest vb) × (vb ≤ 256) }
    requires shift_value { (shift ≡ lowest_set v) × (shift < 4) }
    ensures { result ≡ count_in vb v }
{
    (v & (8 * vb as u64 - 1)) >> (shift + 1)
}

// How many of the elements that lie 2^g bytes apart have a mask bit before the counter's count, with the index of its lowest set bit.
fn border_of(vb: usize, v: u64, shift: u32, g: u32) -> usize
    requires vb_value { (4 * vb ≡ 2 ^ highest vb) × (vb ≤ 256) }
    requires shift_value { (shift ≡ lowest_set v) × (shift < 4) × (g < 4) }
    ensures { result ≡ border_of vb v g }
{
    let units = elements::scaled(counted(vb, v, shift), shift);
    ((units + ((1u64 << g) - 1)) >> g) as usize
}

// The active ones of n under the counter, by its border: from the first number up to the second.
#[tactic(auto, unfolding(elements::specs::Accesses::low_of, elements::specs::Accesses::high_of))]
fn bounds_of(v: u64, border: usize, n: usize) -> (usize, usize)
    ensures { (result.0 ≡ low_of v border n) × (result.1 ≡ high_of v border n) }
{
    if v % 16 == 0 {
        return (0, 0);
    }
    let at = border.min(n);
    if v < 0x8000 { (0, at) } else { (at, n) }
}

// The active elements of a strided store.
pub fn range_for(f: StridedFields, vb: usize, p: &[u8]) -> Range
    requires f_value { refused (Store.Strided f) ≡ false }
    requires le_vb { (16 ≤ vb) × (vb ≤ 256) × (length p.now ≡ 2 * vb) × (4 * vb ≡ 2 ^ highest vb) }
    ensures { result ≡ range_for (machine vb [] 0 [] p.now) (class_for (Store.Strided f)) f }
{
    let counter = counter_of(p, vb, f.pc);
    let shift = lowest_set(counter);
    let g = encoding::number_for(f.class, Number::Exponent).max(shift);
    let border = border_of(vb, counter, shift, g);
    let per = vb >> g;
    let nreg = encoding::number_for(f.class, Number::Nreg) as usize;
    let (low, high) = bounds_of(counter, border, nreg * per);
    Range {
        low,
        high,
        gap: 1 << g,
        per,
    }
}
