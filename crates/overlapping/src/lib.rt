// Elements that share a byte: whether two stretches do, and the lowest key that shares one with a lower key.
#![tactic(auto)]

ghost use Rattle.std.specs.Prelude.{◌≡◌, not, ◌&&◌, if◌then◌else◌};
ghost use Rattle.stretches.specs.Stretches.{start_of, end_of};
ghost use Rattle.overlapping.specs.Overlaps.{parted, meets, meets_any, first_meeting};

// Whether two of the stretches, by ascending start, share a byte: one of them starts before the one before it ends.
pub fn some_overlap(stretches: &[u32]) -> bool
    ensures { result ≡ not (parted 0 stretches.now) }
{
    let mut end = 0;
    for k in stretches {
        if stretches::start_of(*k) < end {
            return true;
        }
        end = stretches::end_of(*k);
    }
    false
}

// Whether the bytes of two keys meet.
fn meet(j: u32, k: u32) -> bool
    ensures { result ≡ meets (start_of j) (end_of j) (start_of k) (end_of k) }
{
    (stretches::start_of(j) < stretches::end_of(k))
        & (stretches::start_of(k) < stretches::end_of(j))
}

// Whether k shares a byte with one of the keys.
fn shares_one(keys: &[u32], k: u32) -> bool
    ensures { result ≡ meets_any (start_of k) (end_of k) keys.now }
{
    keys.iter().any(|j| meet(k, *j))
}

// The lowest of the keys that shares a byte with a lower one, where one does.
pub fn first_meeting(keys: &[u32]) -> Option<u32>
    ensures { result ≡ first_meeting keys.now }
{
    for (e, k) in keys.iter().enumerate() {
        if shares_one(&keys[..e], *k) {
            return Some(*k);
        }
    }
    None
}

// The same, where it is asked for. A pass over the keys' stretches tells whether there is one.
pub fn lowest(strict: bool, keys: &[u32], stretches: &[u32]) -> Option<u32>
    ensures { result ≡ (if strict && not (parted 0 stretches.now) then first_meeting keys.now else None) }
{
    if strict && some_overlap(stretches) {
        first_meeting(keys)
    } else {
        None
    }
}
