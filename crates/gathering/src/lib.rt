// The keys of the active elements of a scatter or quadword store, or the lowest active element outside the window.
#![tactic(auto)]

ghost use Rattle.std.specs.Prelude.{◌≡◌, ℕ, ◌+◌, ◌-◌, ◌*◌, ◌/◌, ◌%◌, ◌<◌, ◌≤◌, true, List, length, if◌then◌else◌};
ghost use Rattle.window.specs.Window.{window_ok};
ghost use Rattle.elements.specs.Accesses.{VectorSound, vector_elements};
ghost use Rattle.stretches.specs.Stretches.{key_of};
ghost use Rattle.gathering.specs.Gathering.{GatheredAs};

use elements::VectorAccess;
use encoding::Extension;
use verdicts::Outside;

// An offset in the window, a number of bytes and an element's number as one number.
fn key(offset: u64, size: usize, e: usize) -> u32
    requires { (1 ≤ size) × (size ≤ 256) × (e < 256) }
    ensures { result ≡ key_of (offset % 65536) size e }
{
    (offset % 65536 * 65536) as u32 + ((size - 1) * 256 + e) as u32
}

// Every element's key is put, and the count goes on by the element's bit: a key of an inactive one is overwritten by the next,
// or stays behind the last, where nobody reads it. Inlined, so that the constants of each caller reach the loop.
#[inline(always)]
fn gather(
    v: VectorAccess,
    offsets: &[u8],
    governing: &[u8],
    base: u64,
    room: u64,
    keys: &mut [u32],
) -> Result<usize, Outside>
    requires { VectorSound v (length offsets.now) × (length governing.now ≡ length offsets.now / 8)
        × (v.count ≤ length keys.old) × (window_ok base room ≡ true) }
    ensures { (stored : List ℕ) → length stored ≡ length offsets.now
        → GatheredAs base room v.size (vector_elements v offsets.now governing.now stored)
        keys.new result }
{
    let limit = window::limit_of(room, v.size as u64);
    let mut n = 0;
    for e in 0..v.count {
        let address = v.address(offsets, e);
        let offset = address.wrapping_sub(base);
        let on = v.is_active(governing, e);
        let past = window::is_past(base, limit, address);
        if on & past {
            return Err(Outside {
                element: e as u64,
                address,
            });
        }
        keys[n] = key(offset, v.size, e);
        n += usize::from(on);
    }
    Ok(n)
}

// The access, with constants for its extension and step.
fn fixed(v: VectorAccess, extension: Option<Extension>, step: usize) -> VectorAccess
    requires { (extension ≡ v.extension) × (step ≡ v.step) }
    ensures { result ≡ v }
{
    VectorAccess {
        extension,
        step,
        ..v
    }
}

// The active elements' keys are the array's first n entries where all of them lie in the window; else the lowest that doesn't is named.
// The compiler makes a loop of its own for each extension and step: one loop for all takes up to half as much again.
pub fn gather_vector(
    v: VectorAccess,
    offsets: &[u8],
    governing: &[u8],
    base: u64,
    room: u64,
    keys: &mut [u32],
) -> Result<usize, Outside>
    requires { VectorSound v (length offsets.now) × (length governing.now ≡ length offsets.now / 8)
        × (v.count ≤ length keys.old) × (window_ok base room ≡ true) }
    ensures { (stored : List ℕ) → length stored ≡ length offsets.now
        → GatheredAs base room v.size (vector_elements v offsets.now governing.now stored)
        keys.new result }
{
    match v.extension {
        None => match v.step {
            8 => {
                let v = fixed(v, None, 8);
                gather(v, offsets, governing, base, room, keys)
            }
            _ => {
                let v = fixed(v, None, 16);
                gather(v, offsets, governing, base, room, keys)
            }
        },
        Some(extension) => match (extension, v.step) {
            (Extension::Uxtw, 8) => {
                let v = fixed(v, Some(Extension::Uxtw), 8);
                gather(v, offsets, governing, base, room, keys)
            }
            (Extension::Uxtw, _) => {
                let v = fixed(v, Some(Extension::Uxtw), 4);
                gather(v, offsets, governing, base, room, keys)
            }
            (Extension::Sxtw, 8) => {
                let v = fixed(v, Some(Extension::Sxtw), 8);
                gather(v, offsets, governing, base, room, keys)
            }
            (Extension::Sxtw, _) => {
                let v = fixed(v, Some(Extension::Sxtw), 4);
                gather(v, offsets, governing, base, room, keys)
            }
        },
    }
}
