// Flags, refusals and verdicts. What decides them is in specs/.
#![tactic(auto)]

#[derive(Clone, Copy)]
pub struct Flags {
    pub sve: bool,
    pub sme2: bool,
    pub sve2p1: bool,
    pub streaming: bool,
    pub fa64: bool,
    pub sp_check: bool,
    // SP is checked with nothing active too.
    pub sp_check_none_active: bool,
    // A store of which two active elements share a byte is refused.
    pub strict: bool,
    // Bit 8 at the interface: the machine follows the early edition of Arm's SVE supplement (document 02 (vi)), else the late one.
    pub early: bool,
}

// Document 01's refusals 1 to 8, and document 02 (viii)'s, 12, which stands before 8.
#[derive(Clone, Copy)]
pub enum Refusal {
    Length,
    Registers,
    Window,
    Undefined,
    Illegal,
    Stack,
    // The lowest active element with a byte outside the window, and the address, modulo 2^64, of the first of its bytes that isn't in it.
    Fault { element: u64, address: u64 },
    // The lowest active element that shares a byte with a lower active element, and its first address.
    Overlap { element: u64, address: u64 },
    NoRoom,
}

// The lowest active element with a byte outside the window, and its first address.
#[derive(Clone, Copy)]
pub struct Outside {
    pub element: u64,
    pub address: u64,
}

// A store that is done: its active elements, the bytes that they move, the length of its patch, and its steps.
#[derive(Clone, Copy)]
pub struct Done {
    pub elements: u64,
    pub bytes: u64,
    pub length: u64,
    pub steps: u64,
}

// What a store answers.
pub type Verdict = Result<Done, Refusal>;
