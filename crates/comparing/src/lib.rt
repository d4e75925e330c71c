// Comparing two patches (document 02 (v)): both are walked side by side through readers, run by run.
#![tactic(auto)]

mod fronts;
mod parts;

ghost use Rattle.std.specs.Prelude.{◌≡◌, ◌*◌, ◌≤◌, length};
ghost use Rattle.patch.specs.Placing.{set_of};
ghost use Rattle.comparing.specs.Comparing.{IsPatch, ComparedTo};
ghost use Rattle.comparing.specs.Merging.{differences, put, lacking, Patches, Started};

use fronts::{Front, front_at, next_stretch, skip};
use parts::{differing, list_part};
use reading::Cursor;

// Why two patches aren't compared: verdict 8 with the number of entries needed, or verdict 9 and which of the two strings is no patch, the
// first when both aren't.
#[derive(Debug, Clone, Copy, PartialEq, Eq)]
pub enum CompareError {
    NoRoom { needed: usize },
    FirstBad,
    SecondBad,
}

// Numbers of a list that has room for what differs between any two patches: three an entry, at most 1,024 bytes on each side. With fewer
// the entries are counted before they are listed.
const ALWAYS_ROOM: usize = 6144;

fn first_front(s: &[u8]) -> Front
    requires { IsPatch s.now }
    ensures { Started s.now result }
{
    front_at(s, Cursor::start(0))
}

// The number of entries.
fn count(first: &[u8], second: &[u8]) -> usize
    requires { Patches first.now second.now }
    ensures { result ≡ length (differences (set_of first.now) (set_of second.now)) }
{
    let mut f = first_front(first);
    let mut g = first_front(second);
    let mut n: usize = 0;
    loop {
        let k = next_stretch(f, g);
        if k.len == 0 {
            return n;
        }
        let p = reader::payload_of(first, f.at, k.one);
        let q = reader::payload_of(second, g.at, k.two);
        let d = differing(p, q, k.len);
        f = skip(first, f, k.one);
        g = skip(second, g, k.two);
        n += d;
    }
}

// How many entries there are, where a list of so many numbers is too short for them.
fn lacks(first: &[u8], second: &[u8], numbers: usize) -> Option<usize>
    requires { Patches first.now second.now }
    ensures { result ≡ lacking numbers (length (differences (set_of first.now) (set_of second.now))) }
{
    if ALWAYS_ROOM <= numbers {
        return None;
    }
    let n = count(first, second);
    if numbers < 3 * n { Some(n) } else { None }
}

// All entries, put into the list from its front on. Answers the index behind them.
fn fill(list: &mut [u64], first: &[u8], second: &[u8]) -> usize
    requires { Patches first.now second.now
        × (3 * length (differences (set_of first.now) (set_of second.now)) ≤ length list.old) }
    ensures value { result ≡ 3 * length (differences (set_of first.now) (set_of second.now)) }
    ensures list_after { list.new ≡ put 0 list.old (differences (set_of first.now) (set_of second.now)) }
{
    let mut f = first_front(first);
    let mut g = first_front(second);
    let mut at: usize = 0;
    loop {
        let k = next_stretch(f, g);
        if k.len == 0 {
            return at;
        }
        let p = reader::payload_of(first, f.at, k.one);
        let q = reader::payload_of(second, g.at, k.two);
        f = skip(first, f, k.one);
        g = skip(second, g, k.two);
        at = list_part(list, at, k.address, p, q, k.len);
    }
}

// Lists each address where two patches differ, and answers how many those are.
pub fn compare(first: &[u8], second: &[u8], list: &mut [u64]) -> Result<usize, CompareError>
    ensures { ComparedTo first.now second.now list.old result list.new }
{
    if patch::judge(first).is_err() {
        return Err(CompareError::FirstBad);
    }
    if patch::judge(second).is_err() {
        return Err(CompareError::SecondBad);
    }
    if let Some(needed) = lacks(first, second, list.len()) {
        return Err(CompareError::NoRoom { needed });
    }
    let end = fill(list, first, second);
    Ok(end / 3)
}
