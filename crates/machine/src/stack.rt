// The return addresses and how many of the eight places they take: document 01, "The stack has eight places".
ghost use Rattle.std.specs.Prelude.{◌≡◌, ◌+◌, ◌-◌, ◌<◌, ◌≤◌, set, get_or, OnOk, OnErr, IfOk};
ghost use Rattle.machine.specs.declared.refusal.Refusal.TheVariants as refused;

use crate::refusal::Refusal;
use crate::state::State;

// The entries below the depth, the first pushed first. Those at and above it have no effect, but they are part of the
// state and come back, so that this is an array with its depth and not a vector of the entries in use.
#[derive(Drop)]
pub(crate) struct Stack {
    pub(crate) entries: [u16; 8],
    pub(crate) depth: usize,
    ghost deep: { depth ≤ 8 },
}

impl Stack {
    pub(crate) fn push(&mut self, a: u16) -> Result<(), Refusal>
        ensures pushed { OnOk result ((self.old.depth < 8) × (self.new.entries ≡ set self.old.entries self.old.depth a) × (self.new.depth ≡ self.old.depth + 1)) }
        ensures full { OnErr result ((self.old.depth ≡ 8) × (self.new ≡ self.old) × (result ≡ Err refused.StackFull)) }
    {
        if self.depth >= usize::from(State::PLACES) {
            return Err(Refusal::StackFull);
        }
        self.entries[self.depth] = a;
        self.depth += 1;
        Ok(())
    }

    // The last entry below the depth, which stays where it is.
    pub(crate) fn pop(&mut self) -> Result<u16, Refusal>
        ensures popped { IfOk result (λ a. (self.old.depth ≡ self.new.depth + 1) × (self.new.entries ≡ self.old.entries) × (a ≡ get_or self.old.entries self.new.depth 0)) }
        ensures empty { OnErr result ((self.old.depth ≡ 0) × (self.new ≡ self.old) × (result ≡ Err refused.StackEmpty)) }
    {
        if self.depth == 0 {
            return Err(Refusal::StackEmpty);
        }
        self.depth -= 1;
        Ok(self.entries[self.depth])
    }
}
