// What a call turns down, and the number that document 01 gives it. 70 is ours.
ghost use Rattle.std.specs.Prelude.{◌≡◌, Some};
ghost use Rattle.decoder.specs.Answers.{number_of, sentence_of};

use std::error::Error;
use std::fmt;

#[derive(Clone, Copy, Debug, PartialEq, Eq, Hash)]
pub enum Refusal {
    // A word that no row of Table 29-1 fits.
    Undefined = 6,
    // An operand above its field.
    TooLarge = 10,
    // A text's buffer under TEXT_ROOM bytes.
    ShortText = 11,
    // A listing's buffer under LISTING_ROOM bytes.
    ShortListing = 70,
}

impl From<Refusal> for u8 {
    ghost from_gives = { λ refusal n. n ≡ number_of refusal };

    fn from(refusal: Refusal) -> u8 {
        refusal as u8
    }
}

// By hand, since what a derive of thiserror prints has no contract.
impl fmt::Display for Refusal {
    ghost output = { λ refusal. Some (sentence_of refusal) };

    fn fmt<W: fmt::Write>(&self, f: &mut fmt::Formatter<W>) -> fmt::Result {
        match self {
            Refusal::Undefined => write!(f, "the word is none of Table 29-1's"),
            Refusal::TooLarge => write!(f, "an operand is too large for its field"),
            Refusal::ShortText => write!(f, "the buffer is too short for a text"),
            Refusal::ShortListing => write!(f, "the buffer is too short for a listing"),
        }
    }
}

impl Error for Refusal {}
