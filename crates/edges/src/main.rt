// Document 01's patches and damaged ones, judged and applied, and its other cases at the edges, run. Each line is one call and its
// answer; stdout holds what is expected.
#![tactic(auto)]

mod answers;
mod large;
mod stores;

use answers::{Application, Bytes, Judgement, Outcome, Output};
use std::fmt;
use std::fmt::Write;

// "NAME: judge N bytes: " and the judgement.
fn judged(out: &mut Output, name: &str, bytes: &[u8]) -> fmt::Result {
    let judgement = Judgement(patch::judge(bytes));
    writeln!(out, "{name}: judge {} bytes: {judgement}", bytes.len())
}

// "NAME: apply N bytes to L at W: " and what that was, or why not.
fn applied(
    out: &mut Output,
    name: &str,
    base: u64,
    memory: &mut [u8],
    bytes: &[u8],
) -> fmt::Result {
    let application = Application(patch::apply(base, memory, bytes));
    writeln!(
        out,
        "{name}: apply {} bytes to {} at {base:x}h: {application}",
        bytes.len(),
        memory.len()
    )
}

// The bytes of a window.
fn shown(out: &mut Output, memory: &[u8]) -> fmt::Result {
    writeln!(out, "{}", Bytes(memory))
}

// The paper's whole example over a window that holds it.
fn example(out: &mut Output) -> fmt::Result {
    let s =
        b"\x50\x52\x00\x10\x00\x00\x00\x00\x00\x00\x02\x00\xa1\xa3\x50\x52\x05\x10\x00\x00\x00\x00\x00\x00\x01\x00\xa4\x50\x45\x02\x00";
    judged(out, "example", s)?;
    let mut m = [0xeeu8; 8];
    applied(out, "example", 0x1000, &mut m, s)?;
    shown(out, &m)
}

// Windows that end right behind it, end before its last byte, and start behind its first.
fn windows(out: &mut Output) -> fmt::Result {
    let s =
        b"\x50\x52\x00\x10\x00\x00\x00\x00\x00\x00\x02\x00\xa1\xa3\x50\x52\x05\x10\x00\x00\x00\x00\x00\x00\x01\x00\xa4\x50\x45\x02\x00";
    let mut low = [0u8; 6];
    applied(out, "last byte of the window", 0x1000, &mut low, s)?;
    shown(out, &low)?;
    let mut short = [0u8; 5];
    applied(out, "window ends before run 1", 0x1000, &mut short, s)?;
    shown(out, &short)?;
    let mut late = [0u8; 8];
    applied(out, "window starts inside run 0", 0x1001, &mut late, s)?;
    shown(out, &late)
}

// No run at all.
fn empty(out: &mut Output) -> fmt::Result {
    let s = b"\x50\x45\x00\x00";
    judged(out, "empty", s)?;
    let mut none: [u8; 0] = [];
    applied(out, "empty, no window", 0, &mut none, s)?;
    applied(
        out,
        "empty, no window at the top",
        0xffff_ffff_ffff_ffff,
        &mut none,
        s,
    )
}

// The window at the top of the address space, and a run that ends there.
fn top(out: &mut Output) -> fmt::Result {
    let s = b"\x50\x52\xfe\xff\xff\xff\xff\xff\xff\xff\x02\x00\x01\x02\x50\x45\x01\x00";
    judged(out, "top", s)?;
    let mut taken = [0u8; 16];
    applied(out, "top", 0xffff_ffff_ffff_fff0, &mut taken, s)?;
    shown(out, &taken)?;
    let mut refused = [0u8; 17];
    applied(
        out,
        "top, one byte more",
        0xffff_ffff_ffff_fff0,
        &mut refused,
        s,
    )?;
    judged(
        out,
        "past 2^64",
        b"\x50\x52\xff\xff\xff\xff\xff\xff\xff\xff\x02\x00\x01\x02\x50\x45\x01\x00",
    )
}

// Strings that are no patches: judged, and refused with 9 before any byte is placed.
fn damaged(out: &mut Output) -> fmt::Result {
    judged(out, "no bytes", b"")?;
    judged(out, "cut trailer", b"\x50\x45\x00")?;
    judged(out, "one byte more", b"\x50\x45\x00\x00\x00")?;
    judged(
        out,
        "wrong mark",
        b"\x50\x53\x00\x10\x00\x00\x00\x00\x00\x00\x01\x00\x07\x50\x45\x01\x00",
    )?;
    judged(
        out,
        "wrong count",
        b"\x50\x52\x00\x10\x00\x00\x00\x00\x00\x00\x01\x00\x07\x50\x45\x02\x00",
    )
}

fn more_damaged(out: &mut Output) -> fmt::Result {
    judged(
        out,
        "big-endian count",
        b"\x50\x52\x00\x10\x00\x00\x00\x00\x00\x00\x01\x00\x07\x50\x45\x00\x01",
    )?;
    judged(
        out,
        "big-endian length",
        b"\x50\x52\x00\x10\x00\x00\x00\x00\x00\x00\x00\x01\x07\x50\x45\x01\x00",
    )?;
    judged(
        out,
        "length zero",
        b"\x50\x52\x00\x10\x00\x00\x00\x00\x00\x00\x00\x00\x50\x45\x01\x00",
    )?;
    judged(
        out,
        "cut payload",
        b"\x50\x52\x00\x10\x00\x00\x00\x00\x00\x00\x09\x00\x07\x50\x45\x01\x00",
    )?;
    judged(
        out,
        "no trailer",
        b"\x50\x52\x00\x10\x00\x00\x00\x00\x00\x00\x01\x00\x07",
    )
}

// Two runs of one byte that touch; that overlap, stand in descending order, or leave a gap of one.
fn two_runs(out: &mut Output) -> fmt::Result {
    let touching =
        b"\x50\x52\x00\x10\x00\x00\x00\x00\x00\x00\x01\x00\x07\x50\x52\x01\x10\x00\x00\x00\x00\x00\x00\x01\x00\x08\x50\x45\x02\x00";
    judged(out, "touching", touching)?;
    let mut m = [0xeeu8; 4];
    applied(out, "touching", 0x1000, &mut m, touching)?;
    shown(out, &m)
}

fn in_order(out: &mut Output) -> fmt::Result {
    judged(
        out,
        "overlapping",
        b"\x50\x52\x00\x10\x00\x00\x00\x00\x00\x00\x01\x00\x07\x50\x52\x00\x10\x00\x00\x00\x00\x00\x00\x01\x00\x08\x50\x45\x02\x00",
    )?;
    judged(
        out,
        "descending",
        b"\x50\x52\x04\x10\x00\x00\x00\x00\x00\x00\x01\x00\x07\x50\x52\x00\x10\x00\x00\x00\x00\x00\x00\x01\x00\x08\x50\x45\x02\x00",
    )?;
    let apart =
        b"\x50\x52\x00\x10\x00\x00\x00\x00\x00\x00\x01\x00\x07\x50\x52\x02\x10\x00\x00\x00\x00\x00\x00\x01\x00\x08\x50\x45\x02\x00";
    judged(out, "gap of one", apart)?;
    let mut m = [0xeeu8; 4];
    applied(out, "gap of one", 0x1000, &mut m, apart)?;
    shown(out, &m)
}

// The largest patch; one run more, and one byte more.
fn largest(out: &mut Output) -> fmt::Result {
    let mut s = [0u8; 7172];
    large::runs(&mut s, 512, 2);
    judged(out, "largest", &s)?;
    let mut m = [0u8; 1536];
    applied(out, "largest", 0x2000, &mut m, &s)?;
    writeln!(
        out,
        "{:x}h is the sum of the window's bytes",
        large::sum(&m)
    )
}

fn too_large(out: &mut Output) -> fmt::Result {
    let mut more = [0u8; 6673];
    large::runs(&mut more, 513, 1);
    judged(out, "513 runs", &more)?;
    let mut long = [0u8; 1041];
    large::runs(&mut long, 1, 1025);
    judged(out, "1,025 bytes", &long)
}

// One store: "NAME: " and its outcome, and what it leaves of the window and the patch buffer.
fn scattered(
    out: &mut Output,
    name: &str,
    start: u64,
    offset: u8,
    base: u64,
    memory: &mut [u8],
    patch: &mut [u8],
) -> fmt::Result {
    let outcome = Outcome(stores::scatter(start, offset, base, memory, patch));
    writeln!(out, "{name}: {outcome}")?;
    shown(out, memory)?;
    shown(out, patch)
}

fn strided(
    out: &mut Output,
    name: &str,
    counter: u16,
    memory: &mut [u8],
    patch: &mut [u8],
) -> fmt::Result {
    let outcome = Outcome(stores::strided(counter, memory, patch));
    writeln!(out, "{name}: {outcome}")?;
    shown(out, memory)?;
    shown(out, patch)
}

// A counter of all elements.
fn all_active(out: &mut Output) -> fmt::Result {
    let mut m = [0xeeu8; 32];
    let mut p = [0xddu8; 50];
    strided(out, "counter 8008h", 0x8008, &mut m, &mut p)
}

// A counter of none with no window, in a buffer with room for its patch and in one without.
fn none_active(out: &mut Output) -> fmt::Result {
    let mut m: [u8; 0] = [];
    let mut p = [0xddu8; 6];
    strided(out, "counter 8000h, no window", 0x8000, &mut m, &mut p)?;
    let mut short = [0xddu8; 3];
    strided(
        out,
        "counter 8000h, three bytes of room",
        0x8000,
        &mut m,
        &mut short,
    )
}

// A doubleword at the end of a window of 16 bytes, and one byte further.
fn last_byte(out: &mut Output) -> fmt::Result {
    let mut m = [0xeeu8; 16];
    let mut p = [0xddu8; 25];
    scattered(
        out,
        "doubleword at 1008h",
        0x1000,
        8,
        0x1000,
        &mut m,
        &mut p,
    )?;
    scattered(
        out,
        "doubleword at 1009h",
        0x1000,
        9,
        0x1000,
        &mut m,
        &mut p,
    )
}

// A window up to 2^64, and one byte more.
fn at_the_top(out: &mut Output) -> fmt::Result {
    let top = 0xffff_ffff_ffff_fff0;
    let mut p = [0xddu8; 24];
    let mut m = [0xeeu8; 16];
    scattered(out, "window up to 2^64", top, 8, top, &mut m, &mut p)?;
    let mut more = [0xeeu8; 17];
    scattered(out, "window over 2^64", top, 8, top, &mut more, &mut p)
}

fn run(out: &mut Output) -> fmt::Result {
    example(out)?;
    windows(out)?;
    empty(out)?;
    top(out)?;
    damaged(out)?;
    more_damaged(out)?;
    two_runs(out)?;
    in_order(out)?;
    largest(out)?;
    too_large(out)?;
    all_active(out)?;
    none_active(out)?;
    last_byte(out)?;
    at_the_top(out)
}

fn main() {
    let _ = run(&mut Output);
}
