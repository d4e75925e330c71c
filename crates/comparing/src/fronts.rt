// Where each of two patches stands while both are walked, and which bytes come next.
ghost use Rattle.std.specs.Prelude.{◌≡◌, ◌-◌, ◌≤◌};
ghost use Rattle.writes.specs.Sizes.{max_runs};
ghost use Rattle.comparing.specs.Merging.{Ends, Fit, Fronted, Skipped, Cut};

use reading::{Cursor, Step};

// What is left of a run: the address of its next byte, that byte's index and how many there are; and the cursor behind the run. With
// none left there is no run behind it.
#[derive(Clone, Copy)]
pub struct Front {
    pub address: u64,
    pub at: usize,
    pub left: usize,
    pub cursor: Cursor,
}

// The next `len` addresses, from `address` on: how many of the first's bytes and of the second's stand there, all or none.
#[derive(Clone, Copy)]
pub struct Stretch {
    pub address: u64,
    pub len: usize,
    pub one: usize,
    pub two: usize,
}

// The run that the cursor comes to.
pub(crate) fn front_at(s: &[u8], c: Cursor) -> Front
    requires { (c.runs ≤ max_runs) × Ends s.now c }
    ensures { Fronted s.now c result }
{
    match reader::next_run(s, c) {
        Step::Next {
            start,
            from,
            len,
            next,
        } => Front {
            address: start,
            at: from,
            left: len,
            cursor: next,
        },
        Step::End { end: _ } => Front {
            address: 0,
            at: 0,
            left: 0,
            cursor: c,
        },
    }
}

// Behind the next k bytes.
pub(crate) fn skip(s: &[u8], f: Front, k: usize) -> Front
    requires { Fit s.now f × (k ≤ f.left) }
    ensures { Skipped s.now f k result }
{
    let left = f.left;
    let cursor = f.cursor;
    if k < left {
        return Front {
            address: f.address + k as u64,
            at: f.at + k,
            left: left - k,
            cursor,
        };
    }
    front_at(s, cursor)
}

// The lower of two numbers.
fn least(n: usize, d: u64) -> usize
    ensures { result ≡ n - (n - d) }
{
    if d < n as u64 {
        return d as usize;
    }
    n
}

// Which bytes come next; none when nothing is left.
pub(crate) fn next_stretch(f: Front, g: Front) -> Stretch
    ensures { Cut f g result }
{
    let a = f.address;
    let b = g.address;
    let n = f.left;
    let m = g.left;
    if m == 0 {
        return Stretch {
            address: a,
            len: n,
            one: n,
            two: 0,
        };
    }
    if n == 0 {
        return Stretch {
            address: b,
            len: m,
            one: 0,
            two: m,
        };
    }
    if a < b {
        let k = least(n, b - a);
        return Stretch {
            address: a,
            len: k,
            one: k,
            two: 0,
        };
    }
    if b < a {
        let k = least(m, a - b);
        return Stretch {
            address: b,
            len: k,
            one: 0,
            two: k,
        };
    }
    let k = least(n, m as u64);
    Stretch {
        address: a,
        len: k,
        one: k,
        two: k,
    }
}
