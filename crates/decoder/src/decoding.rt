// Words to instructions, by nested tests on bit groups: the upper six bits, which are the word's first
// two hexadecimal digits, then bit 7, then the lower seven. Each arm has one of the 64 values of the
// upper six, so that the match is one jump, which a caller's own match on the answer can be joined
// with.
ghost use Rattle.std.specs.Prelude.{◌≡◌, ◌<◌, ◌%◌, ◌/◌};
ghost use Rattle.decoder.specs.Table.{field_f, field_d, field_b, field_k8, field_k11};
ghost use Rattle.decoder.specs.Answers.{Decodes};

use crate::instruction::{Dest, Instruction};
use crate::refusal::Refusal;

// What a word means: Table 29-1, for every u16. Above 0x3FFF a word is undefined.
pub fn decode(word: u16) -> Result<Instruction, Refusal>
    ensures { Decodes word result }
{
    let f = file_of(word);
    let d = dest_of(word);
    let b = bit_of(word);
    let k = literal_of(word);
    let a = address_of(word);
    let top = word / 256;
    if top == 0 {
        if word >= 128 {
            return Ok(Instruction::Movwf(f));
        }
        return lowest(word);
    }
    if top == 1 {
        return clear(word, f);
    }
    let i = match top {
        0x02 => Instruction::Subwf(f, d),
        0x03 => Instruction::Decf(f, d),
        0x04 => Instruction::Iorwf(f, d),
        0x05 => Instruction::Andwf(f, d),
        0x06 => Instruction::Xorwf(f, d),
        0x07 => Instruction::Addwf(f, d),
        0x08 => Instruction::Movf(f, d),
        0x09 => Instruction::Comf(f, d),
        0x0A => Instruction::Incf(f, d),
        0x0B => Instruction::Decfsz(f, d),
        0x0C => Instruction::Rrf(f, d),
        0x0D => Instruction::Rlf(f, d),
        0x0E => Instruction::Swapf(f, d),
        0x0F => Instruction::Incfsz(f, d),
        0x10 => Instruction::Bcf(f, b),
        0x11 => Instruction::Bcf(f, b),
        0x12 => Instruction::Bcf(f, b),
        0x13 => Instruction::Bcf(f, b),
        0x14 => Instruction::Bsf(f, b),
        0x15 => Instruction::Bsf(f, b),
        0x16 => Instruction::Bsf(f, b),
        0x17 => Instruction::Bsf(f, b),
        0x18 => Instruction::Btfsc(f, b),
        0x19 => Instruction::Btfsc(f, b),
        0x1A => Instruction::Btfsc(f, b),
        0x1B => Instruction::Btfsc(f, b),
        0x1C => Instruction::Btfss(f, b),
        0x1D => Instruction::Btfss(f, b),
        0x1E => Instruction::Btfss(f, b),
        0x1F => Instruction::Btfss(f, b),
        0x20 => Instruction::Call(a),
        0x21 => Instruction::Call(a),
        0x22 => Instruction::Call(a),
        0x23 => Instruction::Call(a),
        0x24 => Instruction::Call(a),
        0x25 => Instruction::Call(a),
        0x26 => Instruction::Call(a),
        0x27 => Instruction::Call(a),
        0x28 => Instruction::Goto(a),
        0x29 => Instruction::Goto(a),
        0x2A => Instruction::Goto(a),
        0x2B => Instruction::Goto(a),
        0x2C => Instruction::Goto(a),
        0x2D => Instruction::Goto(a),
        0x2E => Instruction::Goto(a),
        0x2F => Instruction::Goto(a),
        0x30 => Instruction::Movlw(k),
        0x31 => Instruction::Movlw(k),
        0x32 => Instruction::Movlw(k),
        0x33 => Instruction::Movlw(k),
        0x34 => Instruction::Retlw(k),
        0x35 => Instruction::Retlw(k),
        0x36 => Instruction::Retlw(k),
        0x37 => Instruction::Retlw(k),
        0x38 => Instruction::Iorlw(k),
        0x39 => Instruction::Andlw(k),
        0x3A => Instruction::Xorlw(k),
        0x3C => Instruction::Sublw(k),
        0x3D => Instruction::Sublw(k),
        0x3E => Instruction::Addlw(k),
        0x3F => Instruction::Addlw(k),
        _ => return Err(Refusal::Undefined),
    };
    Ok(i)
}

// 0x0000 to 0x007F: the words with no operand.
#[tactic(auto, using(crate::proofs::Undefined::no_low_row), unfolding(crate::specs::Table::decode_of, crate::specs::Table::rows_of, crate::specs::Table::rows, crate::specs::Table::fixed))]
fn lowest(word: u16) -> Result<Instruction, Refusal>
    requires { word < 128 }
    ensures { Decodes word result }
{
    let i = match word {
        0x0000 | 0x0020 | 0x0040 | 0x0060 => Instruction::Nop,
        0x0008 => Instruction::Return,
        0x0009 => Instruction::Retfie,
        0x0063 => Instruction::Sleep,
        0x0064 => Instruction::Clrwdt,
        _ => return Err(Refusal::Undefined),
    };
    Ok(i)
}

// 0x0100 to 0x01FF: CLRW, whose lower seven bits are x, and CLRF.
fn clear(word: u16, f: u8) -> Result<Instruction, Refusal>
    requires { (word / 256 ≡ 1) × (f ≡ field_f word) }
    ensures { Decodes word result }
{
    let i = if word < 0x0180 {
        Instruction::Clrw
    } else {
        Instruction::Clrf(f)
    };
    Ok(i)
}

// The fields of a word.
fn file_of(word: u16) -> u8
    ensures { result ≡ field_f word }
{
    (word % 128) as u8
}

fn dest_of(word: u16) -> Dest
    ensures { result ≡ field_d word }
{
    let d = word / 128 % 2;
    if d == 1 { Dest::File } else { Dest::W }
}

fn bit_of(word: u16) -> u8
    ensures { result ≡ field_b word }
{
    (word / 128 % 8) as u8
}

fn literal_of(word: u16) -> u8
    ensures { result ≡ field_k8 word }
{
    (word % 256) as u8
}

fn address_of(word: u16) -> usize
    ensures { result ≡ field_k11 word }
{
    usize::from(word % 2048)
}
