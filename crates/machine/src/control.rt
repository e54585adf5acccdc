// Where control goes: the next word, past it, a jump, CALL, the returns, and the watchdog's words.
ghost use Rattle.std.specs.Prelude.{◌≡◌, ◌≤◌};
ghost use Rattle.alu.specs.Alu.{to_bit};
ghost use Rattle.machine.specs.Registers.{page_of};
ghost use Rattle.machine.specs.Forms.ReturnKind.{loads, enables};
ghost use Rattle.machine.specs.Step.{called, returned, target, watched};
ghost use Rattle.machine.specs.Inner.{Steps, skipped, next_of, skip_of, jump_of, sleep_of};

use crate::refusal::Refusal;
use crate::registers::{INTCON, PCLATH, STATUS};
use crate::stack::Stack;
use crate::state::{Core, File, after};
use crate::step::{End, Stepped};
use alu::with_bit;

// STATUS with TO set and PD as given.
pub(crate) fn watchdog(file: &mut File, pd: bool)
    ensures { file.new ≡ watched (to_bit pd) file.old }
{
    file[STATUS] = with_bit(with_bit(file[STATUS], 3, pd), 4, true);
}

// PCLATH bits 4 and 3 above k.
pub(crate) fn target(file: &File, k: usize) -> usize
    requires { k ≤ 2047 }
    ensures { result ≡ target (page_of file.now) k }
{
    usize::from(file[PCLATH] % 32 / 8) * 2048 + k
}

// The ways to end a step, and the core past a word.
impl Core {
    pub(crate) fn next(self) -> Stepped
        ensures { result ≡ next_of self }
    {
        Stepped {
            core: self.past(),
            cycles: 1,
            end: End::Next,
        }
    }

    // The run's loop counts a taken skip's cycles.
    pub(crate) fn skip(self, taken: bool) -> Stepped
        ensures { result ≡ skip_of self taken }
    {
        Stepped {
            end: if taken { End::Skip } else { End::Next },
            ..self.next()
        }
    }

    pub(crate) fn jump(self, counter: usize) -> Stepped
        ensures { result ≡ jump_of self counter }
    {
        Stepped {
            core: Core { counter, ..self },
            cycles: 2,
            end: End::Next,
        }
    }

    pub(crate) fn sleep(self) -> Stepped
        ensures { result ≡ sleep_of self }
    {
        Stepped {
            end: End::Sleep,
            ..self.next()
        }
    }

    // CALL: a + 1 is pushed.
    pub(crate) fn call(self, stack: &mut Stack, file: &File, k: usize) -> Result<Stepped, Refusal>
        requires { k ≤ 2047 }
        ensures { Steps self stack.old file.now result stack.new file.now (λ s file. called s file k) }
    {
        // Here and in `admitted`, `as` is proved to lose nothing.
        stack.push(after(self.counter) as u16)?;
        Ok(self.jump(target(file, k)))
    }

    // RETFIE: INTCON bit 7 is set.
    pub(crate) fn retfie(self, stack: &mut Stack, file: &mut File) -> Result<Stepped, Refusal>
        ensures { Steps self stack.old file.old result stack.new file.new (λ s file. returned s file enables s.depth) }
    {
        let to = stack.pop()?;
        file[INTCON] = with_bit(file[INTCON], 7, true);
        Ok(self.jump(usize::from(to)))
    }

    // A return that leaves w in W, whatever the file.
    pub(crate) fn back(self, stack: &mut Stack, w: u8) -> Result<Stepped, Refusal>
        ensures { (file : _) → Steps self stack.old file result stack.new file (λ s file. returned s file (loads w) s.depth) }
    {
        let to = stack.pop()?;
        Ok(Core { w, ..self }.jump(usize::from(to)))
    }

    // The same core at the next word.
    pub(crate) fn past(self) -> Core
        ensures { result ≡ skipped self }
    {
        Core {
            counter: after(self.counter),
            ..self
        }
    }
}
