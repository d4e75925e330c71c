// Two functions make the calls that demand 3 speaks of, and promise its sentences: they follow from the contracts of `store` and `apply`
// alone.
#![tactic(auto)]

mod call;

ghost use Rattle.outcomes.specs.Storing.{Stored};
ghost use Rattle.replaying.specs.Calls.{machine_of, AppliedIf, Replayed, Compared};

pub use call::Call;
use verdicts::Verdict;

impl Call<'_> {
    // Makes the store over the window of `memory` at the address `base`.
    fn store(self, base: u64, memory: &mut [u8], patch: &mut [u8]) -> Verdict
        ensures { Stored self.entry.flags (machine_of self.entry) base memory.old self.entry.word
            patch.old result memory.new patch.new }
    {
        storing::store(self.machine, self.flags, base, memory, self.word, patch)
    }
}

// Applies a patch, and answers whether that was done.
fn is_applied(base: u64, memory: &mut [u8], patch: &[u8]) -> bool
    ensures { AppliedIf base memory.old patch.now result memory.new }
{
    patch::apply(base, memory, patch).is_ok()
}

// Makes a store over the window of `memory`, the same store over that of `other`, and applies the first one's patch to that of `target`:
// whether that was done.
pub fn replay(
    call: Call<'_>,
    base: u64,
    memory: &mut [u8],
    other: &mut [u8],
    target: &mut [u8],
    patch: &mut [u8],
    scratch: &mut [u8],
) -> bool
    ensures { Replayed call.entry.flags (machine_of call.entry) base
        memory.old other.old target.old call.entry.word patch.old scratch.old result
        memory.new other.new target.new patch.new scratch.new }
{
    let verdict = call.store(base, memory, patch);
    let _ = call.store(base, other, scratch);
    match verdict {
        Ok(done) => is_applied(base, target, &patch[..done.length as usize]),
        Err(_) => false,
    }
}

// Makes two stores over windows at one address: whether both are done and their patches are the same bytes.
pub fn same_patches(
    base: u64,
    call: Call<'_>,
    memory: &mut [u8],
    patch: &mut [u8],
    call1: Call<'_>,
    memory1: &mut [u8],
    patch1: &mut [u8],
) -> bool
    ensures { Compared base
        call.entry.flags (machine_of call.entry) memory.old call.entry.word
        call1.entry.flags (machine_of call1.entry) memory1.old call1.entry.word
        patch.old patch1.old result
        memory.new memory1.new patch.new patch1.new }
{
    let verdict = call.store(base, memory, patch);
    let verdict1 = call1.store(base, memory1, patch1);
    match (verdict, verdict1) {
        (Ok(done), Ok(done1)) => {
            &patch[..done.length as usize] == &patch1[..done1.length as usize]
        }
        _ => false,
    }
}
