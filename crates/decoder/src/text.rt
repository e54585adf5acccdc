// A word's text, as the listing prints it.
ghost use Rattle.std.specs.Prelude.{◌≡◌, ◌++◌, ◌+◌, ◌≤◌, ◌%◌, length};
ghost use Rattle.arrayvec.specs.ArrayString.{array_string_len};
ghost use Rattle.decoder.specs.Text.{digit, hex, operand_text, text_of};
ghost use Rattle.decoder.specs.Answers.{Disassembles};

use crate::decoding::decode;
use crate::instruction::{Instruction, Operands};
use crate::refusal::Refusal;
use crate::table::printed;
use arrayvec::ArrayString;

// A buffer has room for a text from 14 bytes on.
pub const TEXT_ROOM: usize = 14;

const DIGITS: &[u8; 16] = b"0123456789ABCDEF";

// The word's text at the start of the buffer, and nothing else changed. What comes back is its length.
#[tactic(auto, unfolding(crate::specs::Text::disassemble_of))]
pub fn disassemble(word: u16, text: &mut [u8]) -> Result<usize, Refusal>
    ensures { Disassembles word text.old result text.new }
{
    let i = decode(word)?;
    if text.len() < TEXT_ROOM {
        return Err(Refusal::ShortText);
    }
    let mut shown = ArrayString::<TEXT_ROOM>::new();
    push_text(&mut shown, i);
    text[..shown.len()].copy_from_slice(shown.as_bytes());
    Ok(shown.len())
}

// The instruction's text, behind what is there. It is no Display: what a Formatter has written is known only where it
// answers Ok, and `disassemble` always has its text. It is not inlined, so that there is room in its callers for `decode`.
#[tactic(auto, using(crate::proofs::TextLength::mnemonic_length), unfolding(crate::specs::Text::text_of))]
#[inline(never)]
pub(crate) fn push_text<const N: usize>(text: &mut ArrayString<N>, i: Instruction)
    requires { array_string_len text.old + 13 ≤ N }
    ensures bytes { text.new.bytes ≡ text.old.bytes ++ text_of i }
    ensures short { array_string_len text.new ≤ array_string_len text.old + 13 }
{
    let row = printed(i);
    text.push_str(row.mnemonic);
    push_operands(text, row.operands);
}

// What follows the mnemonic, if anything.
#[tactic(auto, unfolding(crate::specs::Text::operand_text))]
fn push_operands<const N: usize>(text: &mut ArrayString<N>, operands: Operands)
    requires { array_string_len text.old + 7 ≤ N }
    ensures bytes { text.new.bytes ≡ text.old.bytes ++ operand_text operands }
    ensures short { array_string_len text.new ≤ array_string_len text.old + 7 }
{
    match operands {
        Operands::None => {}
        Operands::F(f) => push_operand(text, " 0x", 2, usize::from(f)),
        Operands::FD(f, d) => {
            push_operand(text, " 0x", 2, usize::from(f));
            push_operand(text, ",", 1, usize::from(u16::from(d)));
        }
        Operands::FB(f, b) => {
            push_operand(text, " 0x", 2, usize::from(f));
            push_operand(text, ",", 1, usize::from(b));
        }
        Operands::K8(k) => push_operand(text, " 0x", 2, usize::from(k)),
        Operands::K11(k) => push_operand(text, " 0x", 3, k),
    }
}

// An operand's digits, and what stands before them.
fn push_operand<const N: usize>(text: &mut ArrayString<N>, before: &str, digits: usize, v: usize)
    requires { (array_string_len text.old + length before.now + digits ≤ N) × (digits ≤ 16) }
    ensures bytes { text.new.bytes ≡ text.old.bytes ++ before.now ++ hex digits v }
    ensures len { array_string_len text.new ≡ array_string_len text.old + length before.now + digits }
{
    text.push_str(before);
    push_hex(text, digits, v);
}

// The lower hexadecimal digits of v, as many as are asked for, of its 16; `{:X}` gives as many as v needs, and might
// answer an Err. By a loop, which the compiler unrolls where the number of digits is known; calls of itself it does not.
pub(crate) fn push_hex<const N: usize>(text: &mut ArrayString<N>, digits: usize, v: usize)
    requires { (array_string_len text.old + digits ≤ N) × (digits ≤ 16) }
    ensures bytes { text.new.bytes ≡ text.old.bytes ++ hex digits v }
    ensures len { array_string_len text.new ≡ array_string_len text.old + digits }
{
    for i in 0..digits {
        text.push(hex_digit(v >> (4 * (digits - 1 - i))));
    }
}

// The lowest hexadecimal digit of v, in capitals.
#[tactic(auto, unfolding(crate::specs::Text::digit))]
fn hex_digit(v: usize) -> char
    ensures { result ≡ digit (v % 16) }
{
    char::from(DIGITS[v % 16])
}
