// Checking a decoded store: verdicts 4 to 6.
ghost use Rattle.std.specs.Prelude.{◌≡◌, true, false, List, ℕ, ◌*◌, ◌/◌, ◌%◌, ◌^◌, ◌≤◌, length};
ghost use Rattle.endian.specs.LittleEndian.{Bytes};
ghost use Rattle.encoding.specs.Encoding.{feature_of, refused};
ghost use Rattle.encoding.specs.declared.Feature.TheVariants.{SME2};
ghost use Rattle.elements.specs.Machine.{lent_with};
ghost use Rattle.elements.specs.Counter.{highest};
ghost use Rattle.elements.specs.Accesses.{VectorSound, vector_elements, StridedSound, strided_elements};
ghost use Rattle.verdicts.specs.Verdicts.{on_stack, some_active, stack};
ghost use Rattle.checks.specs.Checking.{Sound, AccessSound, access_for, elements_in, checked_for};

use super::Access;
use conditions::{is_illegal, is_off, is_stack};
use elements::{Machine, StridedAccess, VectorAccess};
use encoding::{Feature, Store};
use verdicts::{Flags, Refusal};

// Whether some element of a scatter or quadword store is active.
fn some_vector(v: VectorAccess, vb: usize, governing: &[u8]) -> bool
    requires vector_sound { VectorSound v vb }
    requires governing_len { length governing.now ≡ vb / 8 }
    ensures { (offsets stored : List ℕ) → result ≡ some_active (vector_elements v offsets governing.now stored) }
{
    for e in 0..v.count {
        if v.is_active(governing, e) {
            return true;
        }
    }
    false
}

// Whether the stack check refuses a scatter or quadword store. Activity is looked at only where it decides.
fn stack_vector(
    v: VectorAccess,
    vb: usize,
    governing: &[u8],
    on_stack: bool,
    flags: Flags,
    sp: u64,
) -> bool
    requires vector_sound { VectorSound v vb }
    requires governing_len { length governing.now ≡ vb / 8 }
    ensures { (offsets stored : List ℕ) → result ≡ stack flags sp on_stack (vector_elements v offsets governing.now stored) }
{
    if !is_stack(flags, sp, on_stack, true) {
        return false;
    }
    is_stack(flags, sp, on_stack, some_vector(v, vb, governing))
}

// Whether the stack check refuses a strided store.
fn stack_strided(s: StridedAccess, vb: usize, on_stack: bool, flags: Flags, sp: u64) -> bool
    requires { StridedSound s vb }
    ensures { (z : List ℕ) → result ≡ stack flags sp on_stack (strided_elements s vb z) }
{
    is_stack(flags, sp, on_stack, s.low < s.high)
}

// The feature of a store's class.
fn feature_for(store: Store) -> Feature
    ensures { result ≡ feature_of store }
{
    match store {
        Store::Scatter(_) => Feature::SVE,
        Store::Strided(_) => Feature::SME2,
        Store::Quadword(_) => Feature::SVE2p1,
    }
}

// Whether a store's base is SP.
fn is_on_stack(store: Store) -> bool
    ensures { result ≡ on_stack store }
{
    match store {
        Store::Scatter(f) => f.rn == 31,
        Store::Strided(f) => f.rn == 31,
        Store::Quadword(_) => false,
    }
}

// What a store's elements have in common. A counter is read only where VB is a power of two.
fn access_for(store: Store, machine: Machine) -> Access
    requires store_value { refused store ≡ false }
    requires le_vb { (16 ≤ machine.vb) × (machine.vb ≤ 256) × (length machine.p.now ≡ 2 * machine.vb)
        × (feature_of store ≡ SME2 → 4 * machine.vb ≡ 2 ^ highest machine.vb) }
    ensures { (z : List ℕ) → result ≡ access_for (lent_with machine.entry z) store }
{
    let Machine { vb, x, sp, z: _, p } = machine;
    match store {
        Store::Scatter(f) => Access::Vector(elements::scatter_access(f, vb, x, sp)),
        Store::Strided(f) => {
            let start = elements::start_of(f, vb, x, sp);
            let range = counters::range_for(f, vb, p);
            Access::Strided(elements::strided_access(f, start, range))
        }
        Store::Quadword(f) => Access::Vector(elements::quadword_access(f, vb, x)),
    }
}

// Whether the stack check refuses a store, by its access.
fn is_stack_for(access: Access, machine: Machine, on_stack: bool, flags: Flags) -> bool
    requires access_sound { AccessSound access machine.vb }
    requires vb_value { (machine.vb % 16 ≡ 0) × (length machine.p.now ≡ 2 * machine.vb) }
    ensures { (z : List ℕ) → result ≡ stack flags machine.entry.sp on_stack
        (elements_in access machine.entry.vb z machine.entry.p.now) }
{
    let Machine { vb, sp, .. } = machine;
    match access {
        Access::Vector(v) => {
            let governing = elements::register_of(machine.p, vb / 8, v.governing);
            stack_vector(v, vb, governing, on_stack, flags, sp)
        }
        Access::Strided(s) => stack_strided(s, vb, on_stack, flags, sp),
    }
}

// From verdict 4 on, for a decoded store: the same whatever the Z buffer holds, which isn't read.
pub fn check_store(store: Store, flags: Flags, machine: Machine) -> Result<Access, Refusal>
    requires store_value { refused store ≡ false }
    requires le_vb { (16 ≤ machine.vb) × (machine.vb ≤ 256) × (machine.vb % 16 ≡ 0) × (length machine.p.now ≡ 2 * machine.vb)
        × (flags.streaming ≡ true → 4 * machine.vb ≡ 2 ^ highest machine.vb) }
    ensures { (z : List ℕ) → Sound machine.entry.vb z machine.entry.p.now → Bytes z
        → result ≡ checked_for flags (lent_with machine.entry z) store }
{
    let feature = feature_for(store);
    if is_off(flags, feature) {
        return Err(Refusal::Undefined);
    }
    if is_illegal(flags, feature) {
        return Err(Refusal::Illegal);
    }
    let access = access_for(store, machine);
    if is_stack_for(access, machine, is_on_stack(store), flags) {
        return Err(Refusal::Stack);
    }
    Ok(access)
}
