// The interface for C and Rust: thin functions over the proved crates. The result is the verdict's number; other numbers go into
// an array that the caller lends.
#![tactic(auto)]

mod inspecting;

ghost use Rattle.std.specs.Prelude.{◌≡◌};
ghost use Rattle.encoding.specs.Answers.{decoded_number, decoded_numbers, encoded_number};
ghost use Rattle.encoding.specs.Decoding.{decode_of};
ghost use Rattle.elements.specs.Machine.{machine};
ghost use Rattle.inspection.specs.Inspection.{inspected_of, inspected_number, inspected_answers};
ghost use Rattle.patch.specs.Answers.{applied_number, applied_numbers, judged_number, judged_numbers};
ghost use Rattle.patch.specs.Judging.{judged};
ghost use Rattle.codec.specs.Codec.{encode_given, encoded_answers};
ghost use Rattle.patch.specs.Applying.{AppliedTo};
ghost use Rattle.comparing.specs.Answers.{compared_number, compared_numbers};
ghost use Rattle.comparing.specs.Comparing.{ComparedTo};
ghost use Rattle.verdicts.specs.Verdicts.{number};
ghost use Rattle.outcomes.specs.Storing.{Stored, numbers};
ghost use Rattle.numbers.specs.Flags.{flags_of};
ghost use Rattle.starshackle.specs.Interface.{Answers};

use comparing::CompareError;
use elements::Machine;
use numbers::{answered, flags_of};
use patch::{ApplyError, NoPatch, Size};

// What a word is: 0 and its store as eight numbers, or 4 and zeros.
#[unsafe(no_mangle)]
pub extern "C" fn starshackle_decode(word: u32, fields: &mut [u64; 8]) -> u64
    ensures { Answers (λ d. d ≡ decode_of word) decoded_number decoded_numbers result fields.new }
{
    match encoding::decode(word) {
        Some(store) => {
            *fields = codec::numbers_of(store);
            0
        }
        None => {
            *fields = [0; 8];
            4
        }
    }
}

// The word that eight numbers give: 0 and the word in the last answer, or 11; the other answers are 0.
#[unsafe(no_mangle)]
pub extern "C" fn starshackle_encode(fields: &[u64; 8], answer: &mut [u64; 5]) -> u64
    ensures { Answers (λ e. e ≡ encode_given fields.now) encoded_number encoded_answers result answer.new }
{
    match codec::encode_given(fields) {
        Some(word) => {
            *answer = [0, 0, 0, 0, word as u64];
            0
        }
        None => {
            *answer = [0; 5];
            11
        }
    }
}

// Runs the store that a word is and makes its patch at the front of `patch`: 0 with active elements, bytes, the patch's length and the
// steps in answers 2 to 5, or a refusal, 7 with the lowest element outside in answer 0 and in answer 1 the address, modulo 2^64, of the
// first of its bytes that isn't in the window, 12 with the lowest element that shares a byte with a lower one and its first address.
#[unsafe(no_mangle)]
pub extern "C" fn starshackle_store(
    vb: usize,
    flags: u64,
    x: &[u64; 31],
    sp: u64,
    z: &[u8],
    p: &[u8],
    base: u64,
    memory: &mut [u8],
    word: u32,
    patch: &mut [u8],
    answer: &mut [u64; 6],
) -> u64
    ensures { Answers
        (λ v. Stored (flags_of flags) (machine vb x.now sp z.now p.now) base
        memory.old word patch.old v memory.new patch.new)
        number numbers result answer.new }
{
    let machine = Machine { vb, x, sp, z, p };
    let v = storing::store(machine, flags_of(flags), base, memory, word, patch);
    answered(v, answer)
}

// What element e of the word's store is: 0 and the element's five answers, or 1, 2 or 4 and zeros. Of the flags only edition and streaming
// count, in 1, which a strided word gets too at a VB that is none of the five.
#[unsafe(no_mangle)]
pub extern "C" fn starshackle_element(
    vb: usize,
    flags: u64,
    x: &[u64; 31],
    sp: u64,
    z: &[u8],
    p: &[u8],
    word: u32,
    e: u64,
    answer: &mut [u64; 5],
) -> u64
    ensures { Answers (λ i. i ≡ inspected_of (flags_of flags) (machine vb x.now sp z.now p.now) word e)
        inspected_number inspected_answers result answer.new }
{
    let machine = Machine { vb, x, sp, z, p };
    let inspected = inspection::inspect(machine, flags_of(flags), word, e);
    *answer = inspecting::answers_of(inspected);
    inspecting::number_of(inspected)
}

// Applies a patch to the window of `memory` at the address `base`: the verdict's number, and the run and address of its detail,
// the runs, the payload bytes, and zero.
#[unsafe(no_mangle)]
pub extern "C" fn starshackle_apply(
    base: u64,
    memory: &mut [u8],
    patch: &[u8],
    answer: &mut [u64; 5],
) -> u64
    ensures { Answers (λ a. AppliedTo base memory.old patch.now a memory.new)
        applied_number applied_numbers result answer.new }
{
    match patch::apply(base, memory, patch) {
        Ok(Size { runs, bytes }) => {
            *answer = [0, 0, runs as u64, bytes as u64, 0];
            0
        }
        Err(ApplyError::Window) => {
            *answer = [0; 5];
            3
        }
        Err(ApplyError::BadPatch) => {
            *answer = [0; 5];
            9
        }
        Err(ApplyError::Outside { run, address }) => {
            *answer = [run as u64, address, 0, 0, 0];
            10
        }
    }
}

// Judges a byte string: 0 with the runs and payload bytes of the patch in answers 2 and 3, or 9 with the number of runs that are
// whole and acceptable from the front in 0 and the index where what follows them can't be accepted in 1.
#[unsafe(no_mangle)]
pub extern "C" fn starshackle_judge(patch: &[u8], answer: &mut [u64; 5]) -> u64
    ensures { Answers (λ j. j ≡ judged patch.now) judged_number judged_numbers result answer.new }
{
    match patch::judge(patch) {
        Ok(Size { runs, bytes }) => {
            *answer = [0, 0, runs as u64, bytes as u64, 0];
            0
        }
        Err(NoPatch { runs, at }) => {
            *answer = [runs as u64, at as u64, 0, 0, 0];
            9
        }
    }
}

// Compares two patches: 0 with the number of entries in answer 2, each three numbers of the list, by ascending address: the address, the
// first's byte and the second's, 256 for "not written"; 8 with the number of entries needed in answer 2 where the list is too short; 9
// where one is no patch, with 0 for the first and 1 for the second in answer 0.
#[unsafe(no_mangle)]
pub extern "C" fn starshackle_compare(
    first: &[u8],
    second: &[u8],
    list: &mut [u64],
    answer: &mut [u64; 5],
) -> u64
    ensures { Answers (λ c. ComparedTo first.now second.now list.old c list.new)
        compared_number compared_numbers result answer.new }
{
    match comparing::compare(first, second, list) {
        Ok(entries) => {
            *answer = [0, 0, entries as u64, 0, 0];
            0
        }
        Err(CompareError::NoRoom { needed }) => {
            *answer = [0, 0, needed as u64, 0, 0];
            8
        }
        Err(CompareError::FirstBad) => {
            *answer = [0; 5];
            9
        }
        Err(CompareError::SecondBad) => {
            *answer = [1, 0, 0, 0, 0];
            9
        }
    }
}
