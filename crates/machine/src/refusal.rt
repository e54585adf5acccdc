// Why a run is turned down or stops: document 01, "Run answers". Each reason's number there is its value here.
ghost use Rattle.std.specs.Prelude.{◌≡◌, Some};
ghost use Rattle.machine.specs.Numbers.{number_of, sentence_of};

use std::error::Error;
use std::fmt;

#[derive(Clone, Copy, Debug, PartialEq, Eq, Hash)]
pub enum Refusal {
    // A file that is not 512 bytes, or no words or too many.
    Sizes = 2,
    // A counter or a stack entry past the last address, or too many return addresses.
    State = 3,
    // Too many instructions for one run.
    Length = 4,
    // The counter stands at or past the lent words.
    PastWords = 5,
    // The word is none of Table 29-1's.
    Undefined = 6,
    // CALL with eight return addresses.
    StackFull = 7,
    // A return with none.
    StackEmpty = 8,
    // INCFSZ or DECFSZ that would write PCL.
    CountedPcl = 9,
}

impl From<Refusal> for u8 {
    ghost from_gives = { λ r n. n ≡ number_of r };

    fn from(refusal: Refusal) -> u8 {
        refusal as u8
    }
}

// By hand, since what a derive of thiserror prints has no contract.
impl fmt::Display for Refusal {
    ghost output = { λ refusal. Some (sentence_of refusal) };

    fn fmt<W: fmt::Write>(&self, f: &mut fmt::Formatter<W>) -> fmt::Result {
        match self {
            Refusal::Sizes => write!(
                f,
                "the file is not 512 bytes, or no words or over 8,192 are lent"
            ),
            Refusal::State => write!(
                f,
                "the counter or a stack entry is over 8,191, or the depth over 8"
            ),
            Refusal::Length => write!(f, "more than 1,000,000 instructions are asked for"),
            Refusal::PastWords => write!(f, "the counter is at or past the lent words"),
            Refusal::Undefined => write!(f, "the word at the counter is undefined"),
            Refusal::StackFull => write!(f, "a CALL at depth 8"),
            Refusal::StackEmpty => write!(f, "a return at depth 0"),
            Refusal::CountedPcl => write!(f, "INCFSZ or DECFSZ would write PCL"),
        }
    }
}

impl Error for Refusal {}
