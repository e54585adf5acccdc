// Where a result goes, and the flags after it: document 01, "One instruction", STATUS as destination, PCL
// as destination, and INCFSZ and DECFSZ.
ghost use Rattle.std.specs.Prelude.{◌≡◌};
ghost use Rattle.decoder.specs.declared.instruction.Dest.TheVariants.{W};
ghost use Rattle.machine.specs.declared.place.Place.TheVariants.{Nowhere};
ghost use Rattle.machine.specs.Step.{to_dest, to_place, counted};
ghost use Rattle.machine.specs.Inner.{Does, Tries};

use crate::flags::Flagged;
use crate::place::{Operand, Place};
use crate::refusal::Refusal;
use crate::registers::{PCLATH, store};
use crate::state::{Core, File};
use crate::step::Stepped;
use decoder::Dest;

impl Core {
    // A result to W or to its place.
    pub(crate) fn put<R: Flagged>(self, file: &mut File, d: Dest, o: Operand, r: R) -> Stepped
        ensures { Does self file.old result file.new (λ s. to_dest s file.old d o.place (R.gives r)) }
    {
        match d {
            Dest::W => self.to_w(file, r),
            Dest::File => self.to_place(file, o, r),
        }
    }

    // A result to its place: first the byte, then the flags. One for PCL is a jump.
    pub(crate) fn to_place<R: Flagged>(self, file: &mut File, o: Operand, r: R) -> Stepped
        ensures { Does self file.old result file.new (λ s. to_place s file.old o.place (R.gives r)) }
    {
        let v = r.value();
        store(file, o, v);
        let stepped = match o.place {
            Place::Counter => self.jump(usize::from(file[PCLATH] % 32) * 256 + usize::from(v)),
            _ => self.next(),
        };
        r.flag(file);
        stepped
    }

    // A result to W, as of a literal.
    pub(crate) fn to_w<R: Flagged>(self, file: &mut File, r: R) -> Stepped
        ensures { Does self file.old result file.new (λ s. to_dest s file.old W Nowhere (R.gives r)) }
    {
        r.flag(file);
        Core {
            w: r.value(),
            ..self
        }
        .next()
    }

    // A byte counted up or down to W or to its place, and a skip where it is 0. None goes to PCL.
    pub(crate) fn count(
        self,
        file: &mut File,
        d: Dest,
        o: Operand,
        v: u8,
    ) -> Result<Stepped, Refusal>
        ensures { Tries self file.old result file.new (λ s. counted s file.old d o.place v) }
    {
        match (d, o.place) {
            (Dest::W, _) => Ok(Core { w: v, ..self }.skip(v == 0)),
            (Dest::File, Place::Counter) => Err(Refusal::CountedPcl),
            (Dest::File, _) => {
                store(file, o, v);
                Ok(self.skip(v == 0))
            }
        }
    }
}
