// The machine lent to a store: VB in bytes, the general registers and SP, and the Z and P buffers.
ghost use Rattle.std.specs.Prelude.{ℕ, ◌<◌, get_or};

#[derive(Clone, Copy)]
pub struct Machine<'a> {
    pub vb: usize,
    pub x: &'a [u64; 31],
    pub sp: u64,
    pub z: &'a [u8],
    pub p: &'a [u8],
    // What is read of a slice says that it holds bytes, and what is read of a struct's field doesn't.
    ghost bytes: { (i : ℕ) → get_or z.now i 0 < 256 },
}
