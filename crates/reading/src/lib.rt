// Reading a patch that other bytes may follow: what stands at an index, one step, and all steps to the trailer.
#![tactic(auto)]

ghost use Rattle.std.specs.Prelude.{◌≡◌};
ghost use Rattle.reading.specs.Reader.{head_at, admits, past, step_at, Stands, from, read_at, Passes};
ghost use Rattle.reading.specs.Stops.{stop_of, reading};

pub const MAX_RUNS: usize = 512;

pub const MAX_BYTES: usize = 1024;

// What stands at an index, by its mark: a run whose bytes are all there, or a trailer with its number of runs.
#[derive(Debug, Clone, Copy, PartialEq, Eq)]
pub enum Head {
    Start { start: u64, len: usize },
    Trailer { count: usize },
}

// Where the reader stands, with the runs and payload bytes behind it and the last address that they write. Numbers that judging answers
// together don't stand side by side: one wide load of both would wait for their two stores.
#[derive(Debug, Clone, Copy, PartialEq, Eq)]
pub struct Cursor {
    pub runs: usize,
    pub last: u64,
    pub bytes: usize,
    pub at: usize,
}

impl Cursor {
    // At an index, with nothing behind it.
    pub fn start(at: usize) -> Cursor
        ensures { result ≡ from at }
    {
        Cursor {
            at,
            runs: 0,
            bytes: 0,
            last: 0,
        }
    }

    // Behind the run of `len` bytes that stands at the cursor.
    fn past(self, start: u64, len: usize) -> Cursor
        requires { Passes self start len }
        ensures { result ≡ past self start len }
    {
        Cursor {
            at: self.at + 12 + len,
            runs: self.runs + 1,
            bytes: self.bytes + len,
            last: start + (len as u64 - 1),
        }
    }
}

// What one step finds: a run with its bytes at `from`, or the trailer.
#[derive(Debug, Clone, Copy, PartialEq, Eq)]
pub enum Step {
    Next {
        start: u64,
        from: usize,
        len: usize,
        next: Cursor,
    },
    End {
        end: usize,
    },
}

// A patch that was read: where its trailer stands and where it ends, with its runs and payload bytes.
#[derive(Debug, Clone, Copy, PartialEq, Eq)]
pub struct Whole {
    pub at: usize,
    pub end: usize,
    pub runs: usize,
    pub bytes: usize,
}

// How many runs are whole and acceptable, and the index where what follows them can't be accepted.
#[derive(Debug, Clone, Copy, PartialEq, Eq)]
pub struct Broken {
    pub runs: usize,
    pub at: usize,
}

fn head_at(s: &[u8], at: usize) -> Option<Head>
    ensures { result ≡ head_at s.now at }
{
    if s.len() < at {
        return None;
    }
    let left = s.len() - at;
    if left < 4 {
        return None;
    }
    if s[at] != 0x50 {
        return None;
    }
    if s[at + 1] == 0x45 {
        return Some(Head::Trailer {
            count: endian::le16(s, at + 2) as usize,
        });
    }
    if s[at + 1] != 0x52 {
        return None;
    }
    if left < 12 {
        return None;
    }
    let len = endian::le16(s, at + 10) as usize;
    if left - 12 < len {
        return None;
    }
    Some(Head::Start {
        start: endian::le64(s, at + 2),
        len,
    })
}

// Whether a run may come next: not empty, within the sizes, not past 2^64, and a gap after the one before.
fn admitted(c: Cursor, start: u64, len: usize) -> bool
    ensures { result ≡ admits c start len }
{
    let runs = c.runs;
    let bytes = c.bytes;
    let last = c.last;
    if len < 1 {
        return false;
    }
    if runs >= MAX_RUNS {
        return false;
    }
    if bytes > MAX_BYTES {
        return false;
    }
    if len > MAX_BYTES - bytes {
        return false;
    }
    if len as u64 - 1 > 0xffff_ffff_ffff_ffff - start {
        return false;
    }
    if runs == 0 {
        return true;
    }
    if last > 0xffff_ffff_ffff_fffd {
        return false;
    }
    if start < last + 2 {
        return false;
    }
    true
}

// One step of reading; none where what stands at the cursor can't be accepted.
pub fn step_at(s: &[u8], c: Cursor) -> Option<Step>
    ensures { result ≡ step_at s.now c }
{
    match head_at(s, c.at)? {
        Head::Trailer { count } => {
            if count == c.runs {
                Some(Step::End { end: c.at + 4 })
            } else {
                None
            }
        }
        Head::Start { start, len } => {
            if admitted(c, start, len) {
                Some(Step::Next {
                    start,
                    from: c.at + 12,
                    len,
                    next: c.past(start, len),
                })
            } else {
                None
            }
        }
    }
}

// The same step where there is one, as of a string that was judged: the mark alone is looked at.
pub fn step_on(s: &[u8], c: Cursor) -> Step
    requires { Stands s.now c }
    ensures { Some result ≡ step_at s.now c }
{
    let at = c.at;
    let mark = s[at + 1];
    if mark == 0x45 {
        return Step::End { end: at + 4 };
    }
    let start = endian::le64(s, at + 2);
    let len = endian::le16(s, at + 10) as usize;
    Step::Next {
        start,
        from: at + 12,
        len,
        next: c.past(start, len),
    }
}

// All steps from index `at` on: to the trailer, or to what can't be accepted.
pub fn walk(s: &[u8], at: usize) -> Result<Cursor, Cursor>
    ensures { result ≡ stop_of (read_at s.now at) }
{
    let mut c = Cursor::start(at);
    loop {
        match step_at(s, c) {
            None => {
                return Err(c);
            }
            Some(Step::End { end: _ }) => {
                return Ok(c);
            }
            Some(
                Step::Next {
                    start: _,
                    from: _,
                    len: _,
                    next,
                },
            ) => {
                c = next;
            }
        }
    }
}

// The patch that starts at index `at`.
pub fn read(s: &[u8], at: usize) -> Result<Whole, Broken>
    ensures { result ≡ reading (read_at s.now at) }
{
    match walk(s, at) {
        Ok(c) => Ok(Whole {
            at: c.at,
            end: c.at + 4,
            runs: c.runs,
            bytes: c.bytes,
        }),
        Err(c) => Err(Broken {
            runs: c.runs,
            at: c.at,
        }),
    }
}
