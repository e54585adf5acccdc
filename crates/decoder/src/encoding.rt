// Instructions to words. The x bits are written as 0, and an operand that its field does not hold is
// refused. An instruction holds the operands of its row and no others, so there are none to ignore.
ghost use Rattle.std.specs.Prelude.{◌≡◌, cond, leb};
ghost use Rattle.decoder.specs.Table.Answer.{gives, refuses};
ghost use Rattle.decoder.specs.Inner.{fields_of};
ghost use Rattle.decoder.specs.Answers.{Encodes, answer_of};

use crate::instruction::{Instruction, Operands};
use crate::refusal::Refusal;
use crate::table::printed;

// The largest operands that fit their fields. A byte k always does.
const LAST_F: u16 = 127;

const LAST_B: u16 = 7;

const LAST_K11: u16 = 2047;

// The instruction's word.
pub fn encode(i: Instruction) -> Result<u16, Refusal>
    ensures { Encodes i result }
{
    let row = printed(i);
    let bits = place(row.operands)?;
    Ok(row.word + bits)
}

// The operands in their places of a word.
#[tactic(auto, unfolding(crate::specs::Inner::fields_of))]
fn place(operands: Operands) -> Result<u16, Refusal>
    ensures { answer_of result ≡ fields_of operands }
{
    match operands {
        Operands::None => Ok(0),
        Operands::F(f) => fit(usize::from(f), LAST_F),
        Operands::FD(f, d) => Ok(0x80 * u16::from(d) + fit(usize::from(f), LAST_F)?),
        Operands::FB(f, b) => {
            let f = fit(usize::from(f), LAST_F)?;
            let b = fit(usize::from(b), LAST_B)?;
            Ok(0x80 * b + f)
        }
        Operands::K8(k) => Ok(u16::from(k)),
        Operands::K11(k) => fit(k, LAST_K11),
    }
}

// An operand, where its field holds it.
fn fit(operand: usize, last: u16) -> Result<u16, Refusal>
    ensures { answer_of result ≡ cond (leb operand last) (gives operand) (refuses 10) }
{
    if operand > usize::from(last) {
        return Err(Refusal::TooLarge);
    }
    // `as` is proved to lose nothing.
    Ok(operand as u16)
}
