// An instruction is one value with its operands inside: Table 29-1's 35 rows, in the table's order. f, b
// and a byte k are u8; the eleven-bit k of CALL and GOTO is part of an address, and usize.
ghost use Rattle.std.specs.Prelude.{◌≡◌};
ghost use Rattle.decoder.specs.Printed.{bit_of};

// Where a result goes: d.
#[derive(Clone, Copy, Debug, PartialEq, Eq, Hash)]
pub enum Dest {
    W,
    File,
}

// d's bit: 0 for W and 1 for the file register.
impl From<Dest> for u16 {
    ghost from_gives = { λ d bit. bit ≡ bit_of d };

    fn from(d: Dest) -> u16 {
        d as u16
    }
}

// Hash is left out: over 35 cases it adds some 15 s to the check.
#[derive(Clone, Copy, Debug, PartialEq, Eq)]
pub enum Instruction {
    // byte-oriented file register operations
    Addwf(u8, Dest),
    Andwf(u8, Dest),
    Clrf(u8),
    Clrw,
    Comf(u8, Dest),
    Decf(u8, Dest),
    Decfsz(u8, Dest),
    Incf(u8, Dest),
    Incfsz(u8, Dest),
    Iorwf(u8, Dest),
    Movf(u8, Dest),
    Movwf(u8),
    Nop,
    Rlf(u8, Dest),
    Rrf(u8, Dest),
    Subwf(u8, Dest),
    Swapf(u8, Dest),
    Xorwf(u8, Dest),
    // bit-oriented file register operations: f, b
    Bcf(u8, u8),
    Bsf(u8, u8),
    Btfsc(u8, u8),
    Btfss(u8, u8),
    // literal and control operations
    Addlw(u8),
    Andlw(u8),
    Call(usize),
    Clrwdt,
    Goto(usize),
    Iorlw(u8),
    Movlw(u8),
    Retfie,
    Retlw(u8),
    Return,
    Sleep,
    Sublw(u8),
    Xorlw(u8),
}

// The operands of a row, by the table's letters.
#[derive(Clone, Copy, Debug, PartialEq, Eq, Hash)]
pub enum Operands {
    None,
    F(u8),
    FD(u8, Dest),
    FB(u8, u8),
    K8(u8),
    K11(usize),
}
