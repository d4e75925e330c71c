// The elements of a scatter or quadword store, written in the order of their keys.
#![tactic(auto)]

ghost use Rattle.std.specs.Prelude.{◌≡◌, true, ◌*◌, ◌<◌, ◌≤◌, length};
ghost use Rattle.elements.specs.Accesses.{is_width};
ghost use Rattle.ordering.specs.Keys.{number_of, Each};
ghost use Rattle.writing.specs.Writing.{put_all, Placed};

use elements::Counts;

// The number of a key's element.
fn number_of(k: u32) -> usize
    ensures { (result ≡ number_of k) × (result < 256) }
{
    (k % 256) as usize
}

// Writes the elements of the keys in their order, each to its part of memory, and counts them. Inlined, so that a size that the
// caller knows reaches the loop.
#[inline(always)]
pub fn write_keys(
    keys: &[u32],
    step: usize,
    size: usize,
    stored: &[u8],
    memory: &mut [u8],
) -> Counts
    requires few { (length keys.now ≤ 64) × (size ≤ 256) }
    requires each { Each (λ k. Placed step size (length memory.old) (length stored.now) k) keys.now }
    ensures elements_value { (result.elements ≡ length keys.now) × (result.bytes ≡ length keys.now * size) }
    ensures memory_after { memory.new ≡ put_all step size stored.now keys.now memory.old }
{
    let mut elements: u64 = 0;
    let mut bytes: u64 = 0;
    for k in keys {
        let at = stretches::start_of(*k);
        let from = number_of(*k) * step;
        endian::copy(&mut memory[at..at + size], &stored[from..from + size]);
        elements += 1;
        bytes += size as u64;
    }
    Counts { elements, bytes }
}

// The same with the size as a const parameter: the compiler makes a loop of its own for each, in which `endian::copy` has a known length.
pub fn write_sized<const SIZE: usize>(
    keys: &[u32],
    step: usize,
    stored: &[u8],
    memory: &mut [u8],
) -> Counts
    requires few { (length keys.now ≤ 64) × (SIZE ≤ 256) }
    requires each { Each (λ k. Placed step SIZE (length memory.old) (length stored.now) k) keys.now }
    ensures elements_value { (result.elements ≡ length keys.now) × (result.bytes ≡ length keys.now * SIZE) }
    ensures memory_after { memory.new ≡ put_all step SIZE stored.now keys.now memory.old }
{
    write_keys(keys, step, SIZE, stored, memory)
}

// The same for a size that is known when the program runs, by the loop of that size.
pub fn write_vector(
    keys: &[u32],
    step: usize,
    size: usize,
    stored: &[u8],
    memory: &mut [u8],
) -> Counts
    requires few { length keys.now ≤ 64 }
    requires size_value { (is_width size ≡ true) × (size ≡ 8 → step ≡ 8) × (size ≡ 16 → step ≡ 16) }
    requires each { Each (λ k. Placed step size (length memory.old) (length stored.now) k) keys.now }
    ensures elements_value { (result.elements ≡ length keys.now) × (result.bytes ≡ length keys.now * size) }
    ensures memory_after { memory.new ≡ put_all step size stored.now keys.now memory.old }
{
    match size {
        8 => write_sized::<8>(keys, 8, stored, memory),
        1 => write_sized::<1>(keys, step, stored, memory),
        16 => write_sized::<16>(keys, 16, stored, memory),
        4 => write_sized::<4>(keys, step, stored, memory),
        _ => write_sized::<2>(keys, step, stored, memory),
    }
}
