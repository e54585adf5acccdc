// The byte-oriented file register operations: the examples of their pages in section 29.5, each with its
// number and operands as printed there.
use crate::after::Value::{C, Fsr, Indf, Pc, Pch, Pcl, Register, W, Z};
use crate::before::{direct, indirect, only_w, register, with_fsr};
use crate::example::Example;
use crate::names::{C_BIT, FSR, INDF, OPTION_REG, PCL, REG, RP0_BIT, STATUS, TO_F, TO_W, Z_BIT};
use decoder::Instruction::{
    Addwf, Andwf, Clrf, Clrw, Comf, Decf, Decfsz, Incf, Incfsz, Iorwf, Movf, Movwf, Nop, Rlf, Rrf,
    Subwf, Swapf, Xorwf,
};

pub fn addwf() -> [Example; 4] {
    [
        // 1: FSR, 0
        Example::new(Addwf(FSR, TO_W), with_fsr(0x17, 0, 0xC2), &[W, Fsr]),
        // 2: INDF, 1
        Example::new(Addwf(INDF, TO_F), indirect(0x17, 0, 0x20), &[W, Fsr, Indf]),
        // 3: PCL, with no d, for which the assembler has 1. PCL before is that of the address after the
        // instruction's. The page says one cycle, and 29.1 two where the counter is changed.
        Example::new(Addwf(PCL, TO_F), only_w(0x10, C_BIT).at(0x0036), &[Pcl, C]),
        Example::new(
            Addwf(PCL, TO_F),
            only_w(0x10, 0).at(0x08F6).latched(0x08),
            &[Pcl, Pch, C],
        ),
    ]
}

pub fn andwf() -> [Example; 3] {
    [
        // 1: FSR, 1
        Example::new(Andwf(FSR, TO_F), with_fsr(0x17, 0, 0xC2), &[W, Fsr]),
        // 2: FSR, 0
        Example::new(Andwf(FSR, TO_W), with_fsr(0x17, 0, 0xC2), &[W, Fsr]),
        // 3: INDF, 1. Printed 0x15; 0x17 AND 0x5A is 0x12.
        Example::new(Andwf(INDF, TO_F), indirect(0x17, 0, 0x5A), &[W, Fsr, Indf]),
    ]
}

pub fn clrf() -> [Example; 2] {
    [
        // 1: FLAG_REG
        Example::new(Clrf(REG), direct(0, 0, 0x5A), &[Register, Z]),
        // 2: INDF
        Example::new(Clrf(INDF), indirect(0, 0, 0xAA), &[Fsr, Indf, Z]),
    ]
}

// 29.3.1: CLRF STATUS leaves 0000 0100b.
pub fn clrf_status() -> [Example; 1] {
    [Example::new(Clrf(STATUS), register(0, 0xFF, STATUS, 0xFF), &[Register])]
}

pub fn clrw() -> [Example; 1] {
    [Example::new(Clrw, only_w(0x5A, 0), &[W, Z])]
}

pub fn comf() -> [Example; 3] {
    [
        // 1: REG1, 0
        Example::new(Comf(REG, TO_W), direct(0, 0, 0x13), &[Register, W]),
        // 2: INDF, 1
        Example::new(Comf(INDF, TO_F), indirect(0, 0, 0xAA), &[Fsr, Indf]),
        // 3: REG1, 1
        Example::new(Comf(REG, TO_F), direct(0, 0, 0xFF), &[Register, Z]),
    ]
}

pub fn decf() -> [Example; 3] {
    [
        // 1: CNT, 1
        Example::new(Decf(REG, TO_F), direct(0, 0, 0x01), &[Register, Z]),
        // 2: INDF, 1
        Example::new(Decf(INDF, TO_F), indirect(0, 0, 0x01), &[Fsr, Indf, Z]),
        // 3: CNT, 0
        Example::new(Decf(REG, TO_W), direct(0, 0, 0x10), &[Register, W, Z]),
    ]
}

pub fn decfsz() -> [Example; 2] {
    [
        // CNT, 1: to CONTINUE, and to HERE + 1
        Example::new(Decfsz(REG, TO_F), direct(0, 0, 0x01), &[Register, Pc]),
        Example::new(Decfsz(REG, TO_F), direct(0, 0, 0x02), &[Register, Pc]),
    ]
}

pub fn incf() -> [Example; 3] {
    [
        // 1: CNT, 1
        Example::new(Incf(REG, TO_F), direct(0, 0, 0xFF), &[Register, Z]),
        // 2: INDF, 1
        Example::new(Incf(INDF, TO_F), indirect(0, 0, 0xFF), &[Fsr, Indf, Z]),
        // 3: CNT, 0
        Example::new(Incf(REG, TO_W), direct(0, 0, 0x10), &[Register, W, Z]),
    ]
}

pub fn incfsz() -> [Example; 2] {
    [
        // CNT, 1: to CONTINUE, and to HERE + 1
        Example::new(Incfsz(REG, TO_F), direct(0, 0, 0xFF), &[Register, Pc]),
        Example::new(Incfsz(REG, TO_F), direct(0, 0, 0x00), &[Register, Pc]),
    ]
}

pub fn iorwf() -> [Example; 4] {
    [
        // 1: RESULT, 0
        Example::new(
            Iorwf(REG, TO_W),
            direct(0x91, Z_BIT, 0x13),
            &[Register, W, Z],
        ),
        // 2: INDF, 1
        Example::new(
            Iorwf(INDF, TO_F),
            indirect(0x17, Z_BIT, 0x30),
            &[W, Fsr, Indf, Z],
        ),
        // 3: RESULT, 1
        Example::new(
            Iorwf(REG, TO_F),
            direct(0x91, Z_BIT, 0x13),
            &[Register, W, Z],
        ),
        Example::new(Iorwf(REG, TO_F), direct(0x00, 0, 0x00), &[Register, W, Z]),
    ]
}

pub fn movf() -> [Example; 4] {
    [
        // 1: FSR, 0
        Example::new(Movf(FSR, TO_W), with_fsr(0x00, Z_BIT, 0xC2), &[W, Z]),
        // 2: INDF, 0. W is printed 0x17, as before; 0x00 is moved to it.
        Example::new(
            Movf(INDF, TO_W),
            indirect(0x17, 0, 0x00),
            &[W, Fsr, Indf, Z],
        ),
        // 3: FSR, 1
        Example::new(Movf(FSR, TO_F), with_fsr(0, Z_BIT, 0x43), &[Fsr, Z]),
        Example::new(Movf(FSR, TO_F), with_fsr(0, 0, 0x00), &[Fsr, Z]),
    ]
}

pub fn movwf() -> [Example; 2] {
    [
        // 1: OPTION_REG, which is in bank 1, at place 0x81
        Example::new(
            Movwf(OPTION_REG),
            register(0x4F, RP0_BIT, 0x81, 0xFF),
            &[Register, W],
        ),
        // 2: INDF
        Example::new(Movwf(INDF), indirect(0x17, 0, 0x00), &[W, Fsr, Indf]),
    ]
}

pub fn nop() -> [Example; 1] {
    [Example::new(Nop, only_w(0, 0), &[Pc])]
}

pub fn rlf() -> [Example; 3] {
    [
        // 1: REG1, 0. 1110 0110 gives 1100 1100.
        Example::new(Rlf(REG, TO_W), direct(0, 0, 0xE6), &[Register, W, C]),
        // 2: INDF, 1. 0011 1010 gives 0111 0101, and 1011 1001 gives 0111 0010. W is x before and printed
        // 0x17 after; it stays, here 0x5A.
        Example::new(
            Rlf(INDF, TO_F),
            indirect(0x5A, C_BIT, 0x3A),
            &[W, Fsr, Indf, C],
        ),
        Example::new(Rlf(INDF, TO_F), indirect(0x5A, 0, 0xB9), &[W, Fsr, Indf, C]),
    ]
}

pub fn rrf() -> [Example; 3] {
    [
        // 1: REG1, 0. 1110 0110 gives 0111 0011.
        Example::new(Rrf(REG, TO_W), direct(0, 0, 0xE6), &[Register, W, C]),
        // 2: INDF, 1. 0011 1010 gives 1001 1101, and 0011 1001 gives 0001 1100. W as in RLF.
        Example::new(
            Rrf(INDF, TO_F),
            indirect(0x5A, C_BIT, 0x3A),
            &[W, Fsr, Indf, C],
        ),
        Example::new(Rrf(INDF, TO_F), indirect(0x5A, 0, 0x39), &[W, Fsr, Indf, C]),
    ]
}

pub fn subwf() -> [Example; 3] {
    [
        // REG1, 1
        Example::new(Subwf(REG, TO_F), direct(2, Z_BIT, 3), &[Register, W, C, Z]),
        Example::new(Subwf(REG, TO_F), direct(2, 0, 2), &[Register, W, C, Z]),
        Example::new(
            Subwf(REG, TO_F),
            direct(2, Z_BIT | C_BIT, 1),
            &[Register, W, C, Z],
        ),
    ]
}

pub fn swapf() -> [Example; 3] {
    [
        // 1: REG, 0
        Example::new(Swapf(REG, TO_W), direct(0, 0, 0xA5), &[Register, W]),
        // 2: INDF, 1
        Example::new(Swapf(INDF, TO_F), indirect(0x17, 0, 0x20), &[W, Fsr, Indf]),
        // 3: REG, 1
        Example::new(Swapf(REG, TO_F), direct(0, 0, 0xA5), &[Register]),
    ]
}

pub fn xorwf() -> [Example; 3] {
    [
        // 1: REG, 1
        Example::new(Xorwf(REG, TO_F), direct(0xB5, 0, 0xAF), &[Register, W]),
        // 2: REG, 0
        Example::new(Xorwf(REG, TO_W), direct(0xB5, 0, 0xAF), &[Register, W]),
        // 3: INDF, 1
        Example::new(Xorwf(INDF, TO_F), indirect(0xB5, 0, 0xAF), &[W, Fsr, Indf]),
    ]
}
