// Scatter and quadword stores from verdict 7 on: keys, stretches, verdict 12, room, memory, patch.
#![tactic(auto)]

ghost use Rattle.std.specs.Prelude.{◌≡◌, true, ◌&&◌, List, ◌+◌, ◌*◌, ◌<◌, ◌≤◌, eqb, length};
ghost use Rattle.writes.specs.Elements.{Element};
ghost use Rattle.window.specs.Window.{window_ok};
ghost use Rattle.elements.specs.Accesses.{VectorSound};
ghost use Rattle.stretches.specs.Stretches.{joined};
ghost use Rattle.checks.specs.Checking.{Sound, vectors_in};
ghost use Rattle.outcomes.specs.Steps.{StoredUnder, StoredOf};
ghost use Rattle.vectors.specs.Steps.{Ready};

use elements::VectorAccess;
use verdicts::{Done, Refusal, Verdict};

// Doublewords that are one stretch: room, memory, a patch of one run. No array of stretches is made.
fn finish_one(
    keys: &[u32],
    stored: &[u8],
    base: u64,
    memory: &mut [u8],
    patch: &mut [u8],
) -> Verdict
    requires ready { (es : List Element) × Ready base (length memory.old) 8 8 stored.now keys.now es }
    requires one { length (joined 8 keys.now) ≡ 1 }
    ensures { (es : List Element)
        → Ready base (length memory.old) 8 8 stored.now keys.now es
        → StoredOf base 8 memory.old patch.old es result memory.new patch.new }
{
    let n = keys.len();
    if patch.len() < n * 8 + 16 {
        return Err(Refusal::NoRoom);
    }
    let counts = writing::write_sized::<8>(keys, 8, stored, memory);
    let written = cutting::compose_one(base, stretches::start_of(keys[0]), n * 8, memory, patch);
    Ok(Done {
        elements: counts.elements,
        bytes: counts.bytes,
        length: written as u64,
        steps: 1,
    })
}

// Whether the keys are those of doublewords, and one stretch. The size decides by a branch of its own, before the keys are looked at.
fn is_one_of_eights(keys: &[u32], size: usize) -> bool
    ensures { result ≡ (eqb size 8 && eqb (length (joined 8 keys.now)) 1) }
{
    size == 8 && stretches::is_one(keys, 8)
}

// From the keys on: stretches in order, verdict 12, room, memory, patch. One stretch of doublewords shares no byte.
fn finish(
    keys: &[u32],
    v: VectorAccess,
    strict: bool,
    stored: &[u8],
    base: u64,
    memory: &mut [u8],
    patch: &mut [u8],
) -> Verdict
    requires { (es : List Element) × Ready base (length memory.old) v.step v.size stored.now keys.now es }
    ensures { (es : List Element)
        → Ready base (length memory.old) v.step v.size stored.now keys.now es
        → StoredUnder strict base v.size memory.old patch.old es result memory.new patch.new }
{
    if is_one_of_eights(keys, v.size) {
        return finish_one(keys, stored, base, memory, patch);
    }
    let mut room = [0u32; 64];
    let m = stretches::join_in_order(keys, v.size, &mut room);
    let stretches = &room[..m];
    if let Some(k) = overlapping::lowest(strict, keys, stretches) {
        return Err(Refusal::Overlap {
            element: (k % 256) as u64,
            address: base + stretches::start_of(k) as u64,
        });
    }
    if !stretches::has_room(stretches, keys.len() * v.size, patch.len()) {
        return Err(Refusal::NoRoom);
    }
    let counts = writing::write_vector(keys, v.step, v.size, stored, memory);
    let length = cutting::compose(base, stretches, memory, patch);
    Ok(Done {
        elements: counts.elements,
        bytes: counts.bytes,
        length: length as u64,
        steps: m as u64,
    })
}

// A scatter or quadword store from verdict 7 on.
pub fn store_vector(
    v: VectorAccess,
    vb: usize,
    strict: bool,
    z: &[u8],
    p: &[u8],
    base: u64,
    memory: &mut [u8],
    patch: &mut [u8],
) -> Verdict
    requires vector_sound { VectorSound v vb }
    requires sound { Sound vb z.now p.now }
    requires memory_value { window_ok base (length memory.old) ≡ true }
    ensures { StoredUnder strict base v.size memory.old patch.old (vectors_in v vb z.now p.now)
        result memory.new patch.new }
{
    let offsets = elements::register_of(z, vb, v.offsets);
    let governing = elements::register_of(p, vb / 8, v.governing);
    let stored = elements::register_of(z, vb, v.stored);
    let mut keys = [0u32; 64];
    match gathering::gather_vector(v, offsets, governing, base, memory.len() as u64, &mut keys) {
        Err(outside) => {
            let address = window::first_outside(base, memory.len() as u64, outside.address);
            Err(Refusal::Fault {
                element: outside.element,
                address,
            })
        }
        Ok(n) => finish(&keys[..n], v, strict, stored, base, memory, patch),
    }
}
