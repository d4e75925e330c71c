// Checks 1 to 6 of a store over a lent machine and a window.
#![tactic(auto)]

mod stores;

ghost use Rattle.std.specs.Prelude.{◌≡◌};
ghost use Rattle.elements.specs.Machine.{lent};
ghost use Rattle.checks.specs.Checking.{CheckedAs};

use elements::{Machine, StridedAccess, VectorAccess};
use verdicts::{Flags, Refusal};

// What a store's elements have in common: a scatter or quadword store's, or a strided one's.
#[derive(Clone, Copy)]
pub enum Access {
    Vector(VectorAccess),
    Strided(StridedAccess),
}

// Checks 1 to 6, the refusal that is due or the store's access, for the store that a word is, with a window of `length` bytes at `base`.
pub fn check(
    machine: Machine,
    flags: Flags,
    base: u64,
    length: u64,
    word: u32,
) -> Result<Access, Refusal>
    ensures { CheckedAs flags (lent machine.entry) base length word result }
{
    let Machine { vb, z, p, .. } = machine;
    if !conditions::length_ok(vb, flags.early, flags.streaming) {
        return Err(Refusal::Length);
    }
    if (z.len() != 32 * vb) | (p.len() != 2 * vb) {
        return Err(Refusal::Registers);
    }
    if !window::window_ok(base, length) {
        return Err(Refusal::Window);
    }
    match encoding::decode(word) {
        Some(store) => stores::check_store(store, flags, machine),
        None => Err(Refusal::Undefined),
    }
}
