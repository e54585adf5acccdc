// The bit-oriented file register operations: the examples of their pages in section 29.5, each with its
// number and operands as printed there.
use crate::after::Value::{Fsr, Indf, Pc, Register, W};
use crate::before::{direct, indirect};
use crate::example::Example;
use crate::names::{INDF, REG};
use decoder::Instruction::{Bcf, Bsf, Btfsc, Btfss};

pub fn bcf() -> [Example; 2] {
    [
        // 1: FLAG_REG, 7
        Example::new(Bcf(REG, 7), direct(0, 0, 0xC7), &[Register]),
        // 2: INDF, 3
        Example::new(Bcf(INDF, 3), indirect(0x17, 0, 0x2F), &[W, Fsr, Indf]),
    ]
}

pub fn bsf() -> [Example; 2] {
    [
        // 1: FLAG_REG, 7
        Example::new(Bsf(REG, 7), direct(0, 0, 0x0A), &[Register]),
        // 2: INDF, 3
        Example::new(Bsf(INDF, 3), indirect(0x17, 0, 0x20), &[W, Fsr, Indf]),
    ]
}

pub fn btfsc() -> [Example; 2] {
    [
        // 1: FLAG, 4, which is xxx0 xxxx, to TRUE, and xxx1 xxxx, to FALSE. Each x is the opposite of the bit.
        Example::new(Btfsc(REG, 4), direct(0, 0, 0xEF), &[Pc]),
        Example::new(Btfsc(REG, 4), direct(0, 0, 0x10), &[Pc]),
    ]
}

pub fn btfss() -> [Example; 2] {
    [
        // 1: FLAG, 4, as for BTFSC: to FALSE, and to TRUE
        Example::new(Btfss(REG, 4), direct(0, 0, 0xEF), &[Pc]),
        Example::new(Btfss(REG, 4), direct(0, 0, 0x10), &[Pc]),
    ]
}
