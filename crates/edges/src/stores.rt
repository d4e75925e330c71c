// Document 01's other cases at the edges, run on a machine with VB 16: Z1 holds 01 .. 08 in its element 0.
use elements::Machine;
use verdicts::{Flags, Verdict};

// Every extension there, streaming with FA64, no SP check.
fn flags() -> Flags {
    Flags {
        sve: true,
        sme2: true,
        sve2p1: true,
        streaming: true,
        fa64: true,
        sp_check: false,
        sp_check_none_active: false,
        strict: false,
        early: false,
    }
}

// Class 4 from Z1 with the offset in element 0 of Z2, which is active, and X0 as base.
pub(crate) fn scatter(
    start: u64,
    offset: u8,
    base: u64,
    memory: &mut [u8],
    patch: &mut [u8],
) -> Verdict {
    let mut z = [0u8; 512];
    z[16..24].copy_from_slice(&[1, 2, 3, 4, 5, 6, 7, 8]);
    z[32] = offset;
    let mut p = [0u8; 32];
    p[0] = 1;
    let mut x = [0u64; 31];
    x[0] = start;
    let machine = Machine::new(16, &x, 0, &z, &p);
    storing::store(machine, flags(), base, memory, 0xe582a001, patch)
}

// Class 10 from Z0 and Z8 at 1000h, the window's base, under the counter in P8.
pub(crate) fn strided(counter: u16, memory: &mut [u8], patch: &mut [u8]) -> Verdict {
    let mut z = [0u8; 512];
    z[0] = 0xa0;
    z[8] = 0xa1;
    z[128] = 0xa2;
    z[136] = 0xa3;
    let mut p = [0u8; 32];
    p[16..18].copy_from_slice(&counter.to_le_bytes());
    let mut x = [0u64; 31];
    x[0] = 0x1000;
    let machine = Machine::new(16, &x, 0, &z, &p);
    storing::store(machine, flags(), x[0], memory, 0xa1606000, patch)
}
