// What the calls answer, in words: a wrapper for each type of another crate that a line shows.
use patch::{ApplyError, NoPatch, Size};
use std::fmt;
use verdicts::{Done, Refusal, Verdict};

// Standard output. The runtime's own printing rests on more of the system than `write`: its errno and strerror_r.
#[derive(Clone, Copy)]
pub(crate) struct Output;

impl fmt::Write for Output {
    fn write_str(&mut self, s: &str) -> fmt::Result {
        io::write_all(1, s.as_bytes());
        Ok(())
    }
}

// How many runs and payload bytes a patch has, or how many runs were acceptable and where what follows them isn't.
#[derive(Clone, Copy)]
pub(crate) struct Judgement(pub(crate) Result<Size, NoPatch>);

impl fmt::Display for Judgement {
    fn fmt<W: fmt::Write>(&self, f: &mut fmt::Formatter<W>) -> fmt::Result {
        match self.0 {
            Ok(Size { runs, bytes }) => write!(f, "{runs} runs, {bytes} bytes"),
            Err(NoPatch { runs, at }) => {
                write!(f, "{runs} runs, then no patch from byte {at} on")
            }
        }
    }
}

// What was applied, or the verdict's number with its detail.
#[derive(Clone, Copy)]
pub(crate) struct Application(pub(crate) Result<Size, ApplyError>);

impl fmt::Display for Application {
    fn fmt<W: fmt::Write>(&self, f: &mut fmt::Formatter<W>) -> fmt::Result {
        match self.0 {
            Ok(Size { runs, bytes }) => write!(f, "{runs} runs, {bytes} bytes, done"),
            Err(ApplyError::Window) => write!(f, "3 window"),
            Err(ApplyError::BadPatch) => write!(f, "9 bad patch"),
            Err(ApplyError::Outside { run, address }) => {
                write!(
                    f,
                    "{run} is the lowest run outside, at {address:x}h: 10 outside"
                )
            }
        }
    }
}

// What a store moved and how long its patch is, or the verdict's number with its detail.
#[derive(Clone, Copy)]
pub(crate) struct Outcome(pub(crate) Verdict);

impl fmt::Display for Outcome {
    fn fmt<W: fmt::Write>(&self, f: &mut fmt::Formatter<W>) -> fmt::Result {
        match self.0 {
            Ok(
                Done {
                    elements,
                    bytes,
                    length,
                    steps,
                },
            ) => write!(
                f,
                "{elements} elements, {bytes} bytes, a patch of {length} bytes, {steps} steps, done"
            ),
            Err(refusal) => write!(f, "{}", Cause(refusal)),
        }
    }
}

// A refusal's number, behind its detail.
#[derive(Clone, Copy)]
struct Cause(Refusal);

impl fmt::Display for Cause {
    fn fmt<W: fmt::Write>(&self, f: &mut fmt::Formatter<W>) -> fmt::Result {
        match self.0 {
            Refusal::Length => write!(f, "1 length"),
            Refusal::Registers => write!(f, "2 registers"),
            Refusal::Window => write!(f, "3 window"),
            Refusal::Undefined => write!(f, "4 undefined"),
            Refusal::Illegal => write!(f, "5 illegal"),
            Refusal::Stack => write!(f, "6 stack"),
            Refusal::Fault { element, address } => write!(
                f,
                "{element} is the lowest element outside, its first byte there at {address:x}h: 7 fault"
            ),
            Refusal::Overlap { element, address } => write!(
                f,
                "{element} is the lowest element that shares a byte with a lower one, at {address:x}h: 12 overlap"
            ),
            Refusal::NoRoom => write!(f, "8 no room"),
        }
    }
}

// Bytes in hexadecimal, a space before each.
#[derive(Clone, Copy)]
pub(crate) struct Bytes<'a>(pub(crate) &'a [u8]);

impl fmt::Display for Bytes<'_> {
    fn fmt<W: fmt::Write>(&self, f: &mut fmt::Formatter<W>) -> fmt::Result {
        for b in self.0 {
            write!(f, " {b:02x}")?;
        }
        Ok(())
    }
}
