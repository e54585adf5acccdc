// The machine: its state, the registers, one instruction, and a run of n of them.
// Document 01, "Registers" to "Run answers". Every public call takes every input.
#![tactic(auto)]

mod control;
mod flags;
mod place;
mod refusal;
mod registers;
mod results;
mod running;
mod stack;
mod state;
mod step;

pub use refusal::Refusal;
pub use running::{Finish, Ran, run};
pub use state::State;
