// One element of a store as a number and five answers: active, address, the index of its first byte in the Z buffer, its bytes'
// number, and how many elements the store has.
ghost use Rattle.std.specs.Prelude.{◌≡◌};
ghost use Rattle.inspection.specs.Inspection.{inspected_number, inspected_answers};

use inspection::{InspectError, Inspected};

pub fn number_of(r: Result<Inspected, InspectError>) -> u64
    ensures { result ≡ inspected_number r }
{
    match r {
        Ok(_) => 0,
        Err(InspectError::Length) => 1,
        Err(InspectError::Registers) => 2,
        Err(InspectError::Undefined) => 4,
    }
}

pub fn answers_of(r: Result<Inspected, InspectError>) -> [u64; 5]
    ensures { result ≡ inspected_answers r }
{
    let Ok(Inspected { count, element }) = r else {
        return [0; 5];
    };
    match element {
        Some(e) => [u64::from(e.active), e.address, e.index, e.size, count],
        None => [0, 0, 0, 0, count],
    }
}
