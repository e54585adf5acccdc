// An example: one instruction, what is set before it, and the values that the manual prints after it.
use crate::after::{After, Value};
use crate::before::Before;
use decoder::Instruction;
use std::io;

// The words lent to a run: room for the highest address in an example, 0x08F6.
const WORDS: usize = 0x0900;

#[derive(Clone, Copy, Debug)]
pub struct Example {
    instruction: Instruction,
    before: Before,
    shown: &'static [Value],
}

impl Example {
    pub fn new(instruction: Instruction, before: Before, shown: &'static [Value]) -> Self {
        Example {
            instruction,
            before,
            shown,
        }
    }

    // The instruction is run among words that are NOP.
    pub fn show(&self, rt: &impl Print) -> io::Result<()> {
        let word = word_of(self.instruction);
        let mut words = [0; WORDS];
        if let Some(here) = words.get_mut(usize::from(self.before.state.counter)) {
            *here = word;
        }
        After::run(&words, 1, self.before).show(rt, word, self.shown)
    }
}

// The instruction's word. None of the examples' operands is too large; 0x3FFF is a word of no example, so that a refusal
// would be seen.
pub fn word_of(i: Instruction) -> u16 {
    decoder::encode(i).unwrap_or(0x3FFF)
}
