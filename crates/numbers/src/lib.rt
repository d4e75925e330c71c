// Flags as bits, and a verdict as a number and six answers.
#![tactic(auto)]

ghost use Rattle.std.specs.Prelude.{◌≡◌};
ghost use Rattle.verdicts.specs.Verdicts.{refusal_number, number, detail};
ghost use Rattle.outcomes.specs.Storing.{numbers};
ghost use Rattle.numbers.specs.Flags.{flags_of};

use verdicts::{Done, Flags, Refusal, Verdict};

pub fn flags_of(n: u64) -> Flags
    ensures { result ≡ flags_of n }
{
    Flags {
        sve: n % 2 == 1,
        sme2: n / 2 % 2 == 1,
        sve2p1: n / 4 % 2 == 1,
        streaming: n / 8 % 2 == 1,
        fa64: n / 16 % 2 == 1,
        sp_check: n / 32 % 2 == 1,
        sp_check_none_active: n / 64 % 2 == 1,
        strict: n / 128 % 2 == 1,
        early: n / 256 % 2 == 1,
    }
}

fn refusal_number(r: Refusal) -> u64
    ensures { result ≡ refusal_number r }
{
    match r {
        Refusal::Length => 1,
        Refusal::Registers => 2,
        Refusal::Window => 3,
        Refusal::Undefined => 4,
        Refusal::Illegal => 5,
        Refusal::Stack => 6,
        Refusal::Fault { .. } => 7,
        Refusal::Overlap { .. } => 12,
        Refusal::NoRoom => 8,
    }
}

// Element and address of a refusal's detail.
fn detail_of(r: Refusal) -> [u64; 2]
    ensures { result ≡ detail r }
{
    match r {
        Refusal::Fault { element, address } => [element, address],
        Refusal::Overlap { element, address } => [element, address],
        _ => [0, 0],
    }
}

// A verdict's number. `answer` gets element and address of the detail, active elements, bytes, the patch's length, steps. One match for
// both, so that the verdict stays in registers.
pub fn answered(v: Verdict, answer: &mut [u64; 6]) -> u64
    ensures value { result ≡ number v }
    ensures answer_after { answer.new ≡ numbers v }
{
    match v {
        Ok(
            Done {
                elements,
                bytes,
                length,
                steps,
            },
        ) => {
            *answer = [0, 0, elements, bytes, length, steps];
            0
        }
        Err(refusal) => {
            let [element, address] = detail_of(refusal);
            *answer = [element, address, 0, 0, 0, 0];
            refusal_number(refusal)
        }
    }
}
