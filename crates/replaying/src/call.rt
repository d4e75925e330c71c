// What makes a store, but for its windows.
use elements::Machine;
use verdicts::Flags;

// A store but for its window and its patch buffer: the machine, its flags and the instruction word.
#[derive(Clone, Copy)]
pub struct Call<'a> {
    pub machine: Machine<'a>,
    pub flags: Flags,
    pub word: u32,
}
