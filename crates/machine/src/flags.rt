// What an operation gives, and the flags that it leaves in STATUS: document 01, "One instruction". Z, DC and C are
// bits 2, 1 and 0; the flags that an operation does not affect stay.
ghost use Rattle.std.specs.Prelude.{◌≡◌};
ghost use Rattle.alu.specs.Alu.{Result, plain, zeroed};
ghost use Rattle.alu.specs.Answers.{result_of, turn_of};
ghost use Rattle.machine.specs.Registers.{flag};

use crate::registers::STATUS;
use crate::state::File;
use alu::{Sum, Turned, is_zero, with_bit};

// A byte with the flags that its operation affects.
pub(crate) trait Flagged: Copy {
    ghost gives: { Self → Result };

    fn value(self) -> u8
        ensures { result ≡ (gives self).value };

    fn flag(self, file: &mut File)
        ensures { file.new ≡ flag (gives self).flags file.old };
}

// A byte that affects no flag, and one that affects Z alone.
#[derive(Clone, Copy)]
pub(crate) struct Plain(pub(crate) u8);

#[derive(Clone, Copy)]
pub(crate) struct Zeroed(pub(crate) u8);

impl Flagged for Plain {
    ghost gives = { λ r. plain r.0 };

    fn value(self) -> u8 {
        self.0
    }

    fn flag(self, _file: &mut File) {}
}

impl Flagged for Zeroed {
    ghost gives = { λ r. zeroed r.0 };

    fn value(self) -> u8 {
        self.0
    }

    fn flag(self, file: &mut File) {
        file[STATUS] = with_bit(file[STATUS], 2, is_zero(self.0));
    }
}

impl Flagged for Turned {
    ghost gives = { turn_of };

    fn value(self) -> u8 {
        self.value
    }

    fn flag(self, file: &mut File) {
        file[STATUS] = with_bit(file[STATUS], 0, self.carry);
    }
}

impl Flagged for Sum {
    ghost gives = { result_of };

    fn value(self) -> u8 {
        self.value
    }

    fn flag(self, file: &mut File) {
        // The three lowest bits at once, as `flag` has them.
        let s = file[STATUS];
        file[STATUS] = s / 8 * 8
            + u8::from(is_zero(self.value)) * 4
            + u8::from(self.digit) * 2
            + u8::from(self.carry);
    }
}
