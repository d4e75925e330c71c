// A reader of a patch: it keeps hold of the lent bytes and its place. Its methods are thin; the work is done by functions of a slice and a
// cursor. `next_run` and `payload_of` serve callers that have these.
#![tactic(auto)]

ghost use Rattle.std.specs.Prelude.{◌≡◌, ◌+◌, ◌≤◌, length};
ghost use Rattle.reading.specs.Reader.{step_at, Stands, from};
ghost use Rattle.reader.specs.Parts.{PartAt};

use reading::{Cursor, Step};

#[derive(Clone, Copy)]
pub struct Reader<'a> {
    pub patch: &'a [u8],
    pub cursor: Cursor,
}

impl<'a> Reader<'a> {
    // A reader at the start of the bytes.
    pub fn open(patch: &'a [u8]) -> Reader<'a>
        ensures { (result.patch ≡ patch.entry) × (result.cursor ≡ from 0) }
    {
        let cursor = Cursor::start(0);
        Reader { patch, cursor }
    }

    // What stands at the reader's place, in a string that was judged.
    pub fn step(self) -> Step
        requires { Stands self.patch.now self.cursor }
        ensures { Some result ≡ step_at self.entry.patch.now self.entry.cursor }
    {
        reading::step_on(self.patch, self.cursor)
    }

    // The same bytes at another place.
    pub fn moved(self, cursor: Cursor) -> Reader<'a>
        ensures { (result.patch ≡ self.entry.patch) × (result.cursor ≡ cursor) }
    {
        Reader { cursor, ..self }
    }

    // A run's payload, as that part of the caller's patch.
    pub fn payload(self, at: usize, n: usize) -> &'a [u8]
        requires { at + n ≤ length self.patch.now }
        ensures { PartAt self.entry.patch at n result }
    {
        part(self.patch, at, n)
    }
}

// A part of the bytes.
pub fn part(s: &[u8], at: usize, n: usize) -> &[u8]
    requires { at + n ≤ length s.now }
    ensures { PartAt s.entry at n result }
{
    &s[at..at + n]
}

// One step at a place, through a reader, for a caller with plain parameters.
pub fn next_run(patch: &[u8], c: Cursor) -> Step
    requires { Stands patch.now c }
    ensures { Some result ≡ step_at patch.now c }
{
    Reader::open(patch).moved(c).step()
}

// A run's payload, through a reader.
pub fn payload_of(patch: &[u8], at: usize, n: usize) -> &[u8]
    requires { at + n ≤ length patch.now }
    ensures { PartAt patch.entry at n result }
{
    Reader::open(patch).payload(at, n)
}
