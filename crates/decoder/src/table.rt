// Table 29-1 from an instruction to what the table prints for it.
ghost use Rattle.std.specs.Prelude.{◌≡◌};
ghost use Rattle.decoder.specs.Printed.{printed_of};

use crate::instruction::{Instruction, Operands};

// A row of the table: the mnemonic, the word with its operands and x bits 0, and the operands.
#[derive(Clone, Copy)]
pub(crate) struct Entry {
    pub(crate) mnemonic: &'static str,
    pub(crate) word: u16,
    pub(crate) operands: Operands,
}

impl Entry {
    fn new(mnemonic: &'static str, word: u16, operands: Operands) -> Entry
        ensures { (result.mnemonic.now ≡ mnemonic.now) × (result.word ≡ word) × (result.operands ≡ operands) }
    {
        Entry {
            mnemonic,
            word,
            operands,
        }
    }
}

// The row of an instruction, in the table's order.
pub(crate) fn printed(i: Instruction) -> Entry
    ensures mnemonic { result.mnemonic.now ≡ (printed_of i).mnemonic }
    ensures word { result.word ≡ (printed_of i).word }
    ensures operands { result.operands ≡ (printed_of i).operands }
{
    match i {
        Instruction::Addwf(f, d) => Entry::new("ADDWF", 0b00_0111_0000_0000, Operands::FD(f, d)),
        Instruction::Andwf(f, d) => Entry::new("ANDWF", 0b00_0101_0000_0000, Operands::FD(f, d)),
        Instruction::Clrf(f) => Entry::new("CLRF", 0b00_0001_1000_0000, Operands::F(f)),
        Instruction::Clrw => Entry::new("CLRW", 0b00_0001_0000_0000, Operands::None),
        Instruction::Comf(f, d) => Entry::new("COMF", 0b00_1001_0000_0000, Operands::FD(f, d)),
        Instruction::Decf(f, d) => Entry::new("DECF", 0b00_0011_0000_0000, Operands::FD(f, d)),
        Instruction::Decfsz(f, d) => Entry::new("DECFSZ", 0b00_1011_0000_0000, Operands::FD(f, d)),
        Instruction::Incf(f, d) => Entry::new("INCF", 0b00_1010_0000_0000, Operands::FD(f, d)),
        Instruction::Incfsz(f, d) => Entry::new("INCFSZ", 0b00_1111_0000_0000, Operands::FD(f, d)),
        Instruction::Iorwf(f, d) => Entry::new("IORWF", 0b00_0100_0000_0000, Operands::FD(f, d)),
        Instruction::Movf(f, d) => Entry::new("MOVF", 0b00_1000_0000_0000, Operands::FD(f, d)),
        Instruction::Movwf(f) => Entry::new("MOVWF", 0b00_0000_1000_0000, Operands::F(f)),
        Instruction::Nop => Entry::new("NOP", 0b00_0000_0000_0000, Operands::None),
        Instruction::Rlf(f, d) => Entry::new("RLF", 0b00_1101_0000_0000, Operands::FD(f, d)),
        Instruction::Rrf(f, d) => Entry::new("RRF", 0b00_1100_0000_0000, Operands::FD(f, d)),
        Instruction::Subwf(f, d) => Entry::new("SUBWF", 0b00_0010_0000_0000, Operands::FD(f, d)),
        Instruction::Swapf(f, d) => Entry::new("SWAPF", 0b00_1110_0000_0000, Operands::FD(f, d)),
        Instruction::Xorwf(f, d) => Entry::new("XORWF", 0b00_0110_0000_0000, Operands::FD(f, d)),
        Instruction::Bcf(f, b) => Entry::new("BCF", 0b01_0000_0000_0000, Operands::FB(f, b)),
        Instruction::Bsf(f, b) => Entry::new("BSF", 0b01_0100_0000_0000, Operands::FB(f, b)),
        Instruction::Btfsc(f, b) => Entry::new("BTFSC", 0b01_1000_0000_0000, Operands::FB(f, b)),
        Instruction::Btfss(f, b) => Entry::new("BTFSS", 0b01_1100_0000_0000, Operands::FB(f, b)),
        Instruction::Addlw(k) => Entry::new("ADDLW", 0b11_1110_0000_0000, Operands::K8(k)),
        Instruction::Andlw(k) => Entry::new("ANDLW", 0b11_1001_0000_0000, Operands::K8(k)),
        Instruction::Call(k) => Entry::new("CALL", 0b10_0000_0000_0000, Operands::K11(k)),
        Instruction::Clrwdt => Entry::new("CLRWDT", 0b00_0000_0110_0100, Operands::None),
        Instruction::Goto(k) => Entry::new("GOTO", 0b10_1000_0000_0000, Operands::K11(k)),
        Instruction::Iorlw(k) => Entry::new("IORLW", 0b11_1000_0000_0000, Operands::K8(k)),
        Instruction::Movlw(k) => Entry::new("MOVLW", 0b11_0000_0000_0000, Operands::K8(k)),
        Instruction::Retfie => Entry::new("RETFIE", 0b00_0000_0000_1001, Operands::None),
        Instruction::Retlw(k) => Entry::new("RETLW", 0b11_0100_0000_0000, Operands::K8(k)),
        Instruction::Return => Entry::new("RETURN", 0b00_0000_0000_1000, Operands::None),
        Instruction::Sleep => Entry::new("SLEEP", 0b00_0000_0110_0011, Operands::None),
        Instruction::Sublw(k) => Entry::new("SUBLW", 0b11_1100_0000_0000, Operands::K8(k)),
        Instruction::Xorlw(k) => Entry::new("XORLW", 0b11_1010_0000_0000, Operands::K8(k)),
    }
}
