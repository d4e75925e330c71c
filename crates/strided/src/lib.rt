// Strided stores from verdict 7 on. The active elements lie side by side, or all at one larger distance: memory is tested as a whole, and
// the patch has one run, or one for each of them.
#![tactic(auto)]

ghost use Rattle.std.specs.Prelude.{◌≡◌, true, List, [], ℕ, ◌+◌, ◌-◌, ◌*◌, ◌≤◌, ◌<◌, length};
ghost use Rattle.std.proofs.Math.Option.{none};
ghost use Rattle.window.specs.Window.{window_ok};
ghost use Rattle.elements.specs.Accesses.{StridedSound, strided_elements};
ghost use Rattle.verdicts.specs.Verdicts.{first_outside};
ghost use Rattle.outcomes.specs.Steps.{StoredOf};
ghost use Rattle.strided.specs.Searching.{SearchedAs};
ghost use Rattle.strided.specs.Runs.{run_count, run_size};

use cutting::Spaced;
use elements::StridedAccess;
use verdicts::{Done, Outside, Refusal, Verdict};

// The bytes from a store's first address to its first active element's.
fn lead(s: StridedAccess) -> usize
    requires { s.low * s.gap ≤ 1024 }
    ensures { result ≡ s.low * s.gap }
{
    s.low * s.gap
}

// The bytes from the first active element's first to the last one's last.
fn span(s: StridedAccess) -> usize
    requires { (s.low < s.high) × ((s.high - 1 - s.low) * s.gap + s.size ≤ 1024) }
    ensures { result ≡ (s.high - 1 - s.low) * s.gap + s.size }
{
    (s.high - 1 - s.low) * s.gap + s.size
}

// Whether all active elements lie in the window, or else the lowest that doesn't, by a walk.
fn walk(s: StridedAccess, vb: usize, base: u64, room: u64) -> Result<(), Outside>
    requires { StridedSound s vb }
    ensures { (z : List ℕ) → length z ≡ 32 * vb → SearchedAs base room (strided_elements s vb z) result }
{
    for k in s.low..s.high {
        let at = k * s.gap;
        let address = s.address(at);
        if !window::inside(base, room, address, s.size as u64) {
            return Err(Outside {
                element: (at / s.size) as u64,
                address,
            });
        }
    }
    Ok(())
}

// The same, by a test of them all first.
fn find_outside(s: StridedAccess, vb: usize, base: u64, room: u64) -> Result<(), Outside>
    requires { StridedSound s vb × (window_ok base room ≡ true) }
    ensures { (z : List ℕ) → length z ≡ 32 * vb → SearchedAs base room (strided_elements s vb z) result }
{
    if s.high <= s.low {
        return Ok(());
    }
    let address = s.address(lead(s));
    if window::inside(base, room, address, span(s) as u64) {
        return Ok(());
    }
    walk(s, vb, base, room)
}

// A store with nothing active: an empty patch.
fn store_none(base: u64, memory: &[u8], patch: &mut [u8]) -> Verdict
    requires { window_ok base (length memory.now) ≡ true }
    ensures { (size : ℕ)
        → StoredOf base size memory.now patch.old [] result memory.now patch.new }
{
    if patch.len() < 4 {
        return Err(Refusal::NoRoom);
    }
    let composed = cutting::compose_spaced(
        base,
        Spaced {
            first: 0,
            gap: 1,
            size: 1,
            count: 0,
        },
        memory,
        patch,
    );
    Ok(Done {
        elements: 0,
        bytes: 0,
        length: composed.length as u64,
        steps: composed.steps as u64,
    })
}

// How many runs there are, and how many bytes each has: one for all where elements lie side by side, else one for each of them.
#[derive(Clone, Copy)]
struct Runs {
    count: usize,
    size: usize,
}

fn runs_of(s: StridedAccess, n: usize) -> Runs
    requires { n * s.size ≤ 1024 }
    ensures { (result.count ≡ run_count s n) × (result.size ≡ run_size s n) }
{
    if s.gap == s.size {
        return Runs {
            count: 1,
            size: n * s.size,
        };
    }
    Runs {
        count: n,
        size: s.size,
    }
}

// Elements that all lie in the window: room, memory, patch.
fn finish(
    s: StridedAccess,
    vb: usize,
    z: &[u8],
    base: u64,
    memory: &mut [u8],
    patch: &mut [u8],
) -> Verdict
    requires strided_sound { StridedSound s vb × (s.low < s.high) }
    requires z_len { length z.now ≡ 32 * vb }
    requires memory_value { (window_ok base (length memory.old) ≡ true)
        × (first_outside base (length memory.old) (strided_elements s vb z.now) ≡ none) }
    ensures { StoredOf base s.size memory.old patch.old (strided_elements s vb z.now) result
        memory.new patch.new }
{
    let runs = runs_of(s, s.high - s.low);
    let count = runs.count;
    let size = runs.size;
    if patch.len() < count * (12 + size) + 4 {
        return Err(Refusal::NoRoom);
    }
    let at = (s.address(lead(s)) - base) as usize;
    let counts = copying::copy_active(s, vb, z, memory, at);
    let composed = cutting::compose_spaced(
        base,
        Spaced {
            first: at,
            gap: s.gap,
            size,
            count,
        },
        memory,
        patch,
    );
    Ok(Done {
        elements: counts.elements,
        bytes: counts.bytes,
        length: composed.length as u64,
        steps: composed.steps as u64,
    })
}

// A strided store from verdict 7 on.
pub fn store_strided(
    s: StridedAccess,
    vb: usize,
    z: &[u8],
    base: u64,
    memory: &mut [u8],
    patch: &mut [u8],
) -> Verdict
    requires strided_sound { StridedSound s vb }
    requires z_len { length z.now ≡ 32 * vb }
    requires memory_value { window_ok base (length memory.old) ≡ true }
    ensures { StoredOf base s.size memory.old patch.old (strided_elements s vb z.now) result
        memory.new patch.new }
{
    match find_outside(s, vb, base, memory.len() as u64) {
        Err(outside) => {
            let address = window::first_outside(base, memory.len() as u64, outside.address);
            Err(Refusal::Fault {
                element: outside.element,
                address,
            })
        }
        Ok(()) => {
            if s.high <= s.low {
                return store_none(base, memory, patch);
            }
            finish(s, vb, z, base, memory, patch)
        }
    }
}
