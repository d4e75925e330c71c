// One element of a word's store on a lent machine: of the flags only edition and streaming are looked at, for VB, and no window is judged.
#![tactic(auto)]

ghost use Rattle.std.specs.Prelude.{◌≡◌, false, ◌*◌, ◌^◌, length};
ghost use Rattle.encoding.specs.Encoding.{feature_of, refused};
ghost use Rattle.encoding.specs.declared.Feature.TheVariants.{SME2};
ghost use Rattle.elements.specs.Machine.{lent};
ghost use Rattle.elements.specs.Counter.{highest};
ghost use Rattle.elements.specs.Accesses.{VectorSound, StridedSound};
ghost use Rattle.checks.specs.Checking.{Sound};
ghost use Rattle.inspection.specs.Inspection.{is_strided, length_for, inspected_at, inspected_of};
ghost use Rattle.inspection.specs.Steps.{vector_inspected, strided_inspected};

use elements::{Machine, StridedAccess, VectorAccess};
use encoding::Store;
use verdicts::Flags;

// Refused with 1, 2, or 4 for a word of no class.
#[derive(Clone, Copy)]
pub enum InspectError {
    Length,
    Registers,
    Undefined,
}

// An element: whether it is active, its address, the index of its first byte in the Z buffer and its bytes' number.
#[derive(Clone, Copy)]
pub struct Element {
    pub active: bool,
    pub address: u64,
    pub index: u64,
    pub size: u64,
}

// How many elements the store has, and the one that is asked for, where it isn't past the last.
#[derive(Clone, Copy)]
pub struct Inspected {
    pub count: u64,
    pub element: Option<Element>,
}

// Element e of a scatter or quadword store. It is compared before it is narrowed.
fn inspect_vector(v: VectorAccess, vb: usize, z: &[u8], p: &[u8], e: u64) -> Inspected
    requires vector_sound { VectorSound v vb }
    requires z_len { (length z.now ≡ 32 * vb) × (length p.now ≡ 2 * vb) }
    ensures { result ≡ vector_inspected v vb z.now p.now e }
{
    let count = v.count as u64;
    if count <= e {
        return Inspected {
            count,
            element: None,
        };
    }
    let at = e as usize;
    let offsets = elements::register_of(z, vb, v.offsets);
    let governing = elements::register_of(p, vb / 8, v.governing);
    let active = v.is_active(governing, at);
    let address = v.address(offsets, at);
    let element = Some(Element {
        active,
        address,
        index: (v.stored * vb + at * v.step) as u64,
        size: v.size as u64,
    });
    Inspected { count, element }
}

// Element e of a strided store. It is compared before it is narrowed.
fn inspect_strided(s: StridedAccess, vb: usize, e: u64) -> Inspected
    requires { StridedSound s vb }
    ensures { result ≡ strided_inspected s vb e }
{
    let count = (s.nreg * (vb / s.size)) as u64;
    if count <= e {
        return Inspected {
            count,
            element: None,
        };
    }
    let at = e as usize * s.size;
    let register = s.first + at / vb * s.stride;
    let active = s.is_active(at);
    let address = s.address(at);
    let element = Some(Element {
        active,
        address,
        index: (register * vb + at % vb) as u64,
        size: s.size as u64,
    });
    Inspected { count, element }
}

// Whether a word is a strided store.
fn is_strided(decoded: Option<Store>) -> bool
    ensures { result ≡ is_strided decoded }
{
    matches!(decoded, Some(Store::Strided(_)))
}

// Element e of a decoded store.
fn inspect_store(store: Store, machine: Machine, e: u64) -> Inspected
    requires store_value { (refused store ≡ false) × (feature_of store ≡ SME2 → 4 * machine.vb ≡ 2 ^ highest machine.vb) }
    requires sound { Sound machine.vb machine.z.now machine.p.now }
    ensures { result ≡ inspected_at (lent machine.entry) store e }
{
    let Machine { vb, x, sp, z, p } = machine;
    match store {
        Store::Scatter(f) => inspect_vector(elements::scatter_access(f, vb, x, sp), vb, z, p, e),
        Store::Strided(f) => {
            let start = elements::start_of(f, vb, x, sp);
            let range = counters::range_for(f, vb, p);
            inspect_strided(elements::strided_access(f, start, range), vb, e)
        }
        Store::Quadword(f) => inspect_vector(elements::quadword_access(f, vb, x), vb, z, p, e),
    }
}

// Whether VB is a length for the element of a word. A strided word's is one of the five under both editions.
fn length_for(flags: Flags, vb: usize, decoded: Option<Store>) -> bool
    ensures { result ≡ length_for flags vb decoded }
{
    let ok = conditions::length_ok(vb, flags.early, flags.streaming);
    ok & (!is_strided(decoded) | conditions::one_of_five(vb))
}

// What element e of the word's store is on the lent machine.
pub fn inspect(machine: Machine, flags: Flags, word: u32, e: u64) -> Result<Inspected, InspectError>
    ensures { result ≡ inspected_of flags (lent machine.entry) word e }
{
    let Machine { vb, z, p, .. } = machine;
    let decoded = encoding::decode(word);
    if !length_for(flags, vb, decoded) {
        return Err(InspectError::Length);
    }
    if z.len() != 32 * vb {
        return Err(InspectError::Registers);
    }
    if p.len() != 2 * vb {
        return Err(InspectError::Registers);
    }
    match decoded {
        Some(store) => Ok(inspect_store(store, machine, e)),
        None => Err(InspectError::Undefined),
    }
}
