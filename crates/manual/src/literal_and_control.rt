// The literal and control operations: the examples of their pages in section 29.5, in the order printed
// there.
use crate::after::After;
use crate::after::Value::{Answer, C, Gie, Pc, Pd, To, Tos, W, Z};
use crate::before::only_w;
use crate::example::{Example, word_of};
use crate::names::{C_BIT, HIGH_LU_TABLE, MYREG, PCL, PD_BIT, THERE, TO_F, Z_BIT};
use decoder::Instruction::{
    Addlw, Addwf, Andlw, Call, Clrwdt, Goto, Iorlw, Movlw, Nop, Retfie, Retlw, Return, Sleep,
    Sublw, Xorlw,
};
use std::io;

pub fn addlw() -> [Example; 4] {
    [
        Example::new(Addlw(0x15), only_w(0x10, 0), &[W]),
        Example::new(Addlw(MYREG), only_w(0x10, 0), &[W]),
        Example::new(Addlw(HIGH_LU_TABLE), only_w(0x10, 0), &[W]),
        // 4: printed ADDLW MYREG again, with the address of PCL
        Example::new(Addlw(PCL), only_w(0x10, 0), &[W]),
    ]
}

pub fn andlw() -> [Example; 3] {
    [
        Example::new(Andlw(0x5F), only_w(0xA3, 0), &[W]),
        Example::new(Andlw(MYREG), only_w(0xA3, 0), &[W]),
        Example::new(Andlw(HIGH_LU_TABLE), only_w(0xA3, 0), &[W]),
    ]
}

pub fn call() -> [Example; 1] {
    [
        // CALL THERE
        Example::new(Call(THERE), only_w(0, 0), &[Tos, Pc]),
    ]
}

// The watchdog's own counter and prescaler are outside the simulator.
pub fn clrwdt() -> [Example; 1] {
    [Example::new(Clrwdt, only_w(0, 0), &[To, Pd])]
}

pub fn goto() -> [Example; 1] {
    [
        // GOTO THERE
        Example::new(Goto(THERE), only_w(0, 0), &[Pc]),
    ]
}

pub fn iorlw() -> [Example; 4] {
    [
        Example::new(Iorlw(0x35), only_w(0x9A, Z_BIT), &[W, Z]),
        // 2: printed 0x9F; 0x9A OR 0x37 is 0xBF
        Example::new(Iorlw(MYREG), only_w(0x9A, Z_BIT), &[W, Z]),
        Example::new(Iorlw(HIGH_LU_TABLE), only_w(0x9A, Z_BIT), &[W, Z]),
        Example::new(Iorlw(0x00), only_w(0x00, 0), &[W, Z]),
    ]
}

pub fn movlw() -> [Example; 3] {
    [
        Example::new(Movlw(0x5A), only_w(0, 0), &[W]),
        Example::new(Movlw(MYREG), only_w(0x10, 0), &[W]),
        Example::new(Movlw(HIGH_LU_TABLE), only_w(0x10, 0), &[W]),
    ]
}

pub fn retfie() -> [Example; 1] {
    [
        // to the address that was on top of the stack
        Example::new(Retfie, only_w(0, 0).called(), &[Pc, Gie]),
    ]
}

// CALL TABLE, ADDWF PCL (printed PC) and RETLW k8, of two cycles each. Here HERE is 0 and TABLE 2, and k1
// to k9 are 0xA1 to 0xA9.
pub fn retlw(rt: &impl Print) -> io::Result<()> {
    let program = [
        Call(0x002),
        Nop,
        Addwf(PCL, TO_F),
        Retlw(0xA1),
        Retlw(0xA2),
        Retlw(0xA3),
        Retlw(0xA4),
        Retlw(0xA5),
        Retlw(0xA6),
        Retlw(0xA7),
        Retlw(0xA8),
        Retlw(0xA9),
    ];
    let words = program.map(word_of);
    let k8 = word_of(Retlw(0xA8));
    After::run(&words, 3, only_w(0x07, 0).at(0)).show(rt, k8, &[W, Pc])
}

pub fn return_to_caller() -> [Example; 1] {
    [
        // to the address that was on top of the stack
        Example::new(Return, only_w(0, 0).called(), &[Pc]),
    ]
}

// The example prints no values: its operation's are shown, and that the run ends by it, answer 1. PD is
// set before.
pub fn sleep() -> [Example; 1] {
    [Example::new(Sleep, only_w(0, PD_BIT), &[To, Pd, Answer])]
}

pub fn sublw() -> [Example; 4] {
    [
        // 1: 0x02
        Example::new(Sublw(0x02), only_w(0x01, Z_BIT), &[W, C, Z]),
        Example::new(Sublw(0x02), only_w(0x02, 0), &[W, C, Z]),
        Example::new(Sublw(0x02), only_w(0x03, Z_BIT | C_BIT), &[W, C, Z]),
        // 2: MYREG
        Example::new(Sublw(MYREG), only_w(0x10, 0), &[W, C]),
    ]
}

pub fn xorlw() -> [Example; 3] {
    [
        Example::new(Xorlw(0xAF), only_w(0xB5, Z_BIT), &[W, Z]),
        // 2: printed 0x18; 0xAF XOR 0x37 is 0x98
        Example::new(Xorlw(MYREG), only_w(0xAF, Z_BIT), &[W, Z]),
        Example::new(Xorlw(HIGH_LU_TABLE), only_w(0xAF, Z_BIT), &[W, Z]),
    ]
}
