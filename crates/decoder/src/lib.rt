// Words, instructions and text: Table 29-1 of the maker's manual. The decoder, the encoder, the
// one-line disassembler and the listing. Every call takes every input.
#![tactic(auto)]

mod decoding;
mod encoding;
mod instruction;
mod listing;
mod refusal;
mod table;
mod text;

pub use decoding::decode;
pub use encoding::encode;
pub use instruction::{Dest, Instruction, Operands};
pub use listing::{LISTING_ROOM, LONGEST_INPUT, list};
pub use refusal::Refusal;
pub use text::{TEXT_ROOM, disassemble};
