// The merged call: checks 1 to 7, 12 and 8 in that order, then memory and patch buffer are written together.
#![tactic(auto)]

ghost use Rattle.elements.specs.Machine.{lent};
ghost use Rattle.outcomes.specs.Storing.{Stored};

use checks::Access;
use elements::Machine;
use verdicts::{Flags, Verdict};

// Runs the store that a word is on the lent machine and window, and makes its patch at the front of `patch`.
pub fn store(
    machine: Machine,
    flags: Flags,
    base: u64,
    memory: &mut [u8],
    word: u32,
    patch: &mut [u8],
) -> Verdict
    ensures { Stored flags (lent machine.entry) base memory.old word patch.old result memory.new patch.new }
{
    let Machine { vb, z, p, .. } = machine;
    match checks::check(machine, flags, base, memory.len() as u64, word)? {
        Access::Vector(v) => {
            vectors::store_vector(v, vb, flags.strict, z, p, base, memory, patch)
        }
        // No two elements of a strided store share a byte, so that strict changes nothing.
        Access::Strided(s) => strided::store_strided(s, vb, z, base, memory, patch),
    }
}
