// A strided store's active elements, copied one by one out of their registers to memory.
#![tactic(auto)]

ghost use Rattle.std.specs.Prelude.{◌≡◌, ◌+◌, ◌-◌, ◌*◌, ◌≤◌, ◌<◌, length};
ghost use Rattle.elements.specs.Machine.{register};
ghost use Rattle.elements.specs.Accesses.{StridedSound};
ghost use Rattle.copying.specs.Spreading.{Room, Copies, spread};

use elements::{Counts, StridedAccess};

// The bytes of register r of a strided store.
fn row_of(s: StridedAccess, vb: usize, z: &[u8], r: usize) -> &[u8]
    requires strided_sound { StridedSound s vb }
    requires z_len { length z.now ≡ 32 * vb }
    requires r_lt_nreg { r < s.nreg }
    ensures { result.now ≡ register vb z.now (s.first + r * s.stride) }
{
    elements::register_of(z, vb, s.first + r * s.stride)
}

// Copies n elements of `size` bytes, `gap` bytes from one to the next in both slices, from offset `at` on: each one's place in memory is
// lent to the byte writer, and it is counted there, so that what is counted was written.
fn copy_each(memory: &mut [u8], at: usize, src: &[u8], n: usize, gap: usize, size: usize) -> Counts
    requires { Room src.now memory.old at n gap size }
    ensures { Copies src.now memory.old at n gap size result.elements result.bytes memory.new }
{
    let mut elements: u64 = 0;
    let mut bytes: u64 = 0;
    for e in 0..n {
        let from = e * gap;
        let end = from + size;
        let p = at + from;
        let to = p + size;
        endian::copy(&mut memory[p..to], &src[from..end]);
        elements += 1;
        bytes += size as u64;
    }
    Counts { elements, bytes }
}

// The same with constants for gap and size, so that the compiler makes loops of their own for them. They are no const parameters, since the
// last two calls have numbers that are read.
fn copy_elements(
    memory: &mut [u8],
    at: usize,
    src: &[u8],
    n: usize,
    gap: usize,
    size: usize,
) -> Counts
    requires { Room src.now memory.old at n gap size }
    ensures { Copies src.now memory.old at n gap size result.elements result.bytes memory.new }
{
    match (gap, size) {
        (8, 8) => copy_each(memory, at, src, n, 8, 8),
        (1, 1) => copy_each(memory, at, src, n, 1, 1),
        (4, 4) => copy_each(memory, at, src, n, 4, 4),
        (2, 2) => copy_each(memory, at, src, n, 2, 2),
        (_, 1) => copy_each(memory, at, src, n, gap, 1),
        _ => copy_each(memory, at, src, n, gap, size),
    }
}

// Copies the active elements, one register after the other, and counts them. The first one's place is at offset `at`.
pub fn copy_active(s: StridedAccess, vb: usize, z: &[u8], memory: &mut [u8], at: usize) -> Counts
    requires strided_sound { StridedSound s vb }
    requires z_len { length z.now ≡ 32 * vb }
    requires memory_len_bound { (length memory.old ≤ 65536) × (at + (s.high - s.low) * s.gap ≤ length memory.old + (s.gap - s.size)) }
    ensures elements_value { result.elements ≡ s.high - s.low }
    ensures bytes_value { result.bytes ≡ (s.high - s.low) * s.size }
    ensures memory_after { memory.new ≡ spread s vb z.now (s.high - s.low) s.low memory.old at }
{
    let mut elements: u64 = 0;
    let mut bytes: u64 = 0;
    let mut k = s.low;
    for r in 0..s.nreg {
        let to = s.high.min((r + 1) * s.per);
        if to <= k {
            continue;
        }
        let reg = row_of(s, vb, z, r);
        let from = (k - r * s.per) * s.gap;
        let p = at + (k - s.low) * s.gap;
        let counts = copy_elements(memory, p, &reg[from..], to - k, s.gap, s.size);
        elements += counts.elements;
        bytes += counts.bytes;
        k = to;
    }
    Counts { elements, bytes }
}
