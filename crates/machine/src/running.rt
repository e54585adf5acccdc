// A run: document 01, "Run answers".
ghost use Rattle.std.specs.Prelude.{◌≡◌, ◌≤◌, length};
ghost use Rattle.machine.specs.Step.{step_of};
ghost use Rattle.machine.specs.Run.{entries_fit, state_fits, steps_of, run_of};
ghost use Rattle.machine.specs.Numbers.{end_number};
ghost use Rattle.machine.specs.Answers.{Runs};
ghost use Rattle.machine.specs.Inner.{Within, Steps, state_of, test_of, test_answer, told_by, left_by};

use crate::refusal::Refusal;
use crate::stack::Stack;
use crate::state::{Core, File, State};
use crate::step::{End, Stepped, step};

// How a run ends that nothing stops: all n are done, or the last one done is SLEEP.
#[derive(Clone, Copy, Debug, PartialEq, Eq, Hash)]
pub enum Finish {
    All = 0,
    Asleep = 1,
}

// A run's result: the state after it, the instructions done, their cycles, and how it ends.
#[derive(Clone, Copy, Debug, PartialEq, Eq, Hash)]
pub struct Ran {
    pub state: State,
    pub done: u32,
    pub cycles: u32,
    pub end: Result<Finish, Refusal>,
}

impl Ran {
    // Document 01's number.
    pub fn number(self) -> u8
        ensures { result ≡ end_number self.end }
    {
        match self.end {
            Ok(finish) => finish as u8,
            Err(refusal) => u8::from(refusal),
        }
    }
}

// n instructions from the state on: 2, 3 and 4 are tried first, then 5 to 9 at each instruction.
pub fn run(words: &[u16], file: &mut [u8], state: State, n: u32) -> Ran
    ensures { Runs words.now file.old state n result file.new }
{
    match admitted(words, file, state, n) {
        Ok(ran) => ran,
        Err(refusal) => Ran {
            state,
            done: 0,
            cycles: 0,
            end: Err(refusal),
        },
    }
}

// The run, where no test turns it down.
#[tactic(auto, using(crate::proofs::Tested::wrong_bytes, crate::proofs::Tested::turned_down))]
fn admitted(words: &[u16], file: &mut [u8], state: State, n: u32) -> Result<Ran, Refusal>
    ensures { record { ran = told_by state result; file = file.new } ≡ run_of words.now file.old state n }
{
    let cells = file
        .as_mut_array::<{ State::BYTES }>()
        .ok_or(Refusal::Sizes)?;
    tested(words.len(), state, n)?;
    // An array goes through a variable, here and below: straight from a field the borrow checker does not cover it.
    let entries = state.stack;
    let mut stack = Stack {
        entries,
        depth: usize::from(state.depth),
    };
    let core = Core {
        w: state.w,
        counter: usize::from(state.counter),
    };
    let r = go(core, &mut stack, words, cells, n);
    let stack_after = stack.entries;
    Ok(Ran {
        state: State {
            w: r.core.w,
            counter: r.core.counter as u16,
            depth: stack.depth as u8,
            stack: stack_after,
        },
        done: r.done,
        cycles: r.cycles,
        end: r.end,
    })
}

// The tests 2, 3 and 4 of a run on 512 bytes, in that order.
#[tactic(auto, unfolding(crate::specs::Inner::test_of, crate::specs::Run::sizes_fit))]
fn tested(words: usize, state: State, n: u32) -> Result<(), Refusal>
    ensures { test_answer result ≡ test_of words 512 state n }
{
    if words == 0 || words > State::WORDS {
        return Err(Refusal::Sizes);
    }
    if !state_fits(state) {
        return Err(Refusal::State);
    }
    if n > State::LONGEST {
        return Err(Refusal::Length);
    }
    Ok(())
}

#[tactic(auto, unfolding(crate::specs::Run::state_fits))]
fn state_fits(state: State) -> bool
    ensures { result ≡ state_fits state }
{
    state.counter <= State::LAST && state.depth <= State::PLACES && entries_fit(state.stack)
}

// Whether no stack entry is past the last address.
fn entries_fit(stack: [u16; 8]) -> bool
    ensures { result ≡ entries_fit stack }
{
    stack.iter().all(|&entry| entry <= State::LAST)
}

// What the loop leaves beside the stack and the file. A `Ran` would have the stack within.
#[derive(Clone, Copy)]
pub(crate) struct Gone {
    pub(crate) core: Core,
    pub(crate) done: u32,
    pub(crate) cycles: u32,
    pub(crate) end: Result<Finish, Refusal>,
}

// n instructions, or those before the one that stops the run. SLEEP counts as done; a refused
// instruction does not.
fn go(c: Core, stack: &mut Stack, words: &[u16], file: &mut File, n: u32) -> Gone
    requires { Within (state_of c stack.old) × (n ≤ 1000000) }
    ensures { (left_by result stack.new file.new ≡ steps_of words.now n (state_of c stack.old) file.old) × Within (state_of result.core stack.new) }
{
    let mut core = c;
    let mut cycles: u32 = 0;
    for done in 0..n {
        let r = match turn(core, stack, words, file) {
            Ok(r) => r,
            Err(refusal) => {
                return Gone {
                    core,
                    done,
                    cycles,
                    end: Err(refusal),
                };
            }
        };
        match r.end {
            End::Next => {
                core = r.core;
                cycles += r.cycles;
            }
            End::Skip => {
                core = r.core.past();
                cycles += 2;
            }
            End::Sleep => {
                return Gone {
                    core: r.core,
                    done: done + 1,
                    cycles: cycles + r.cycles,
                    end: Ok(Finish::Asleep),
                };
            }
        }
    }
    Gone {
        core,
        done: n,
        cycles,
        end: Ok(Finish::All),
    }
}

// The instruction at the counter, or why there is none.
#[tactic(auto, using(crate::proofs::Words::past_words, crate::proofs::Words::word_done, crate::proofs::Words::word_undefined, decoder::proofs::Laws::operands_in_range))]
fn turn(c: Core, stack: &mut Stack, words: &[u16], file: &mut File) -> Result<Stepped, Refusal>
    ensures { Steps c stack.old file.old result stack.new file.new (step_of words.now) }
{
    let word = words.get(c.counter).ok_or(Refusal::PastWords)?;
    let i = decoder::decode(*word).map_err(|_| Refusal::Undefined)?;
    step(c, stack, file, i)
}
