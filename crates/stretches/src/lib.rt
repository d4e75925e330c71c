// Stretches of bytes in a window: elements joined where each starts where the one before ends, and the runs that stretches make.
#![tactic(auto)]

ghost use Rattle.std.specs.Prelude.{◌≡◌, ◌∷◌, ◌+◌, ◌<◌, ◌≤◌, eqb, leb, length, take};
ghost use Rattle.ordering.specs.Keys.{sorted};
ghost use Rattle.stretches.specs.Intervals.{total};
ghost use Rattle.stretches.specs.Stretches.{start_of, end_of, merged, Grew, joined, ascends, Sized, sum};

// Where a stretch starts, and where it ends, as offsets in the window. A stretch stays a number, as keys do: it grows by a sum and is
// sorted as it is, and the lists of the contracts (`sorted`, `joined`, `merged`) are of numbers.
pub fn start_of(k: u32) -> usize
    ensures { (result ≡ start_of k) × (result < 65536) }
{
    (k / 65536) as usize
}

pub fn end_of(k: u32) -> usize
    ensures { (result ≡ end_of k) × (result < 65793) }
{
    start_of(k) + (k / 256 % 256) as usize + 1
}

// A run of a patch: where it starts and ends, and the stretches behind it.
#[derive(Clone, Copy)]
pub struct Reach<'a> {
    pub start: usize,
    pub end: usize,
    pub rest: &'a [u32],
}

// The run that a stretch starts: those behind it that meet or touch it are taken in. With an iterator over the runs a store takes longer:
// class 4, VB 256, sorted, 1.15 times hand in place of 1.01.
pub fn grown<'a>(first: u32, behind: &'a [u32]) -> Reach<'a>
    ensures { Grew (first ∷ behind.now) result.start result.end result.rest.now }
{
    let start = start_of(first);
    let mut end = end_of(first);
    let mut rest = behind;
    while let Some((k, behind)) = rest.split_first() {
        if end < start_of(*k) {
            break;
        }
        end = end.max(end_of(*k));
        rest = behind;
    }
    Reach { start, end, rest }
}

// Whether keys are one stretch: there are some, and each starts where the one before ends.
pub fn is_one(keys: &[u32], size: usize) -> bool
    requires { size ≤ 256 }
    ensures { result ≡ eqb (length (joined size keys.now)) 1 }
{
    !keys.is_empty()
        && keys
            .windows(2)
            .all(|w| start_of(w[0]) + size == start_of(w[1]))
}

// How many stretches keys make, and whether those ascend.
#[derive(Clone, Copy)]
struct JoinedKeys {
    count: usize,
    ascending: bool,
}

// Joins keys each of which starts where the one before ends: a stretch has its first element's key, with the bytes of all. The entries
// behind the stretches are left free; nobody reads them.
fn join(keys: &[u32], size: usize, stretches: &mut [u32]) -> JoinedKeys
    requires { Sized keys.now size × (length keys.now ≤ length stretches.old) }
    ensures { (result.count ≤ length keys.now) × (take result.count stretches.new ≡ joined size keys.now)
        × (result.ascending ≡ ascends size keys.now) }
{
    let Some((first, behind)) = keys.split_first() else {
        return JoinedKeys {
            count: 0,
            ascending: true,
        };
    };
    let mut last = *first;
    let mut s = last;
    stretches[0] = s;
    let mut m: usize = 1;
    let mut ascending = true;
    for k in behind {
        let meets = start_of(last) + size == start_of(*k);
        last = *k;
        if meets {
            s += (size * 256) as u32;
            stretches[m - 1] = s;
            continue;
        }
        ascending &= s < *k;
        s = *k;
        stretches[m] = s;
        m += 1;
    }
    JoinedKeys {
        count: m,
        ascending,
    }
}

// Joins keys, and puts the stretches in ascending order where they don't ascend. Answers how many there are. The entries behind them are
// left free; nobody reads them.
pub fn join_in_order(keys: &[u32], size: usize, stretches: &mut [u32]) -> usize
    requires { Sized keys.now size × (length keys.now ≤ length stretches.old) }
    ensures { (result ≤ length keys.now) × (take result stretches.new ≡ sorted (joined size keys.now)) }
{
    let j = join(keys, size, stretches);
    if !j.ascending {
        ordering::order(&mut stretches[..j.count]);
    }
    j.count
}

// The patch's length.
fn long(stretches: &[u32]) -> usize
    requires { length stretches.now ≤ 64 }
    ensures { result ≡ total (merged stretches.now) + 4 }
{
    let mut to = 0;
    let mut left = stretches;
    while let Some((first, behind)) = left.split_first() {
        let run = grown(*first, behind);
        to += 12 + (run.end - run.start);
        left = run.rest;
    }
    to + 4
}

// Whether a buffer of `room` bytes has room for the patch: surely where each stretch could be a run, else by its length.
pub fn has_room(stretches: &[u32], bytes: usize, room: usize) -> bool
    requires { (length stretches.now ≤ 64) × (sum stretches.now ≤ bytes) × (bytes ≤ 256) }
    ensures { result ≡ leb (total (merged stretches.now) + 4) room }
{
    stretches.len() * 12 + bytes + 4 <= room || long(stretches) <= room
}
