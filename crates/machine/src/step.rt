// One instruction: document 01, "One instruction". Each arm of `step` does its whole work on the core,
// the stack and the file; a taken skip's second word is left to the run's loop.
ghost use Rattle.decoder.specs.Printed.{InRange};
ghost use Rattle.machine.specs.Step.{done_by};
ghost use Rattle.machine.specs.Inner.{Steps};

use crate::control::{target, watchdog};
use crate::flags::{Plain, Zeroed};
use crate::refusal::Refusal;
use crate::registers::{STATUS, operand_at};
use crate::stack::Stack;
use crate::state::{Core, File};
use alu::{
    add, and, bit, complement, less_one, or, plus_one, rotate_left, rotate_right, subtract, swap,
    with_bit, xor,
};
use decoder::Instruction;

// How a step ends: the run goes on, goes on past the next word, or ends in SLEEP.
#[derive(Clone, Copy)]
pub(crate) enum End {
    Next,
    Skip,
    Sleep,
}

#[derive(Clone, Copy)]
pub(crate) struct Stepped {
    pub(crate) core: Core,
    // Where the end is Skip, the run's loop takes 2 instead.
    pub(crate) cycles: u32,
    pub(crate) end: End,
}

#[tactic(auto, using(crate::proofs::Ways::skips), unfolding(crate::specs::Step::done_by, crate::specs::Forms::form_of, crate::specs::Step::step_form))]
pub(crate) fn step(
    c: Core,
    stack: &mut Stack,
    file: &mut File,
    i: Instruction,
) -> Result<Stepped, Refusal>
    requires { InRange i }
    ensures { Steps c stack.old file.old result stack.new file.new (done_by i) }
{
    match i {
        Instruction::Addwf(f, d) => {
            let o = operand_at(file, f, c.counter);
            Ok(c.put(file, d, o, add(o.byte, c.w)))
        }
        Instruction::Andwf(f, d) => {
            let o = operand_at(file, f, c.counter);
            Ok(c.put(file, d, o, Zeroed(and(o.byte, c.w))))
        }
        Instruction::Clrf(f) => {
            let o = operand_at(file, f, c.counter);
            Ok(c.to_place(file, o, Zeroed(0)))
        }
        Instruction::Clrw => Ok(c.to_w(file, Zeroed(0))),
        Instruction::Comf(f, d) => {
            let o = operand_at(file, f, c.counter);
            Ok(c.put(file, d, o, Zeroed(complement(o.byte))))
        }
        Instruction::Decf(f, d) => {
            let o = operand_at(file, f, c.counter);
            Ok(c.put(file, d, o, Zeroed(less_one(o.byte))))
        }
        Instruction::Decfsz(f, d) => {
            let o = operand_at(file, f, c.counter);
            c.count(file, d, o, less_one(o.byte))
        }
        Instruction::Incf(f, d) => {
            let o = operand_at(file, f, c.counter);
            Ok(c.put(file, d, o, Zeroed(plus_one(o.byte))))
        }
        Instruction::Incfsz(f, d) => {
            let o = operand_at(file, f, c.counter);
            c.count(file, d, o, plus_one(o.byte))
        }
        Instruction::Iorwf(f, d) => {
            let o = operand_at(file, f, c.counter);
            Ok(c.put(file, d, o, Zeroed(or(o.byte, c.w))))
        }
        Instruction::Movf(f, d) => {
            let o = operand_at(file, f, c.counter);
            Ok(c.put(file, d, o, Zeroed(o.byte)))
        }
        Instruction::Movwf(f) => {
            let o = operand_at(file, f, c.counter);
            Ok(c.to_place(file, o, Plain(c.w)))
        }
        Instruction::Nop => Ok(c.next()),
        Instruction::Rlf(f, d) => {
            let o = operand_at(file, f, c.counter);
            let turn = rotate_left(o.byte, file[STATUS]);
            Ok(c.put(file, d, o, turn))
        }
        Instruction::Rrf(f, d) => {
            let o = operand_at(file, f, c.counter);
            let turn = rotate_right(o.byte, file[STATUS]);
            Ok(c.put(file, d, o, turn))
        }
        Instruction::Subwf(f, d) => {
            let o = operand_at(file, f, c.counter);
            Ok(c.put(file, d, o, subtract(o.byte, c.w)))
        }
        Instruction::Swapf(f, d) => {
            let o = operand_at(file, f, c.counter);
            Ok(c.put(file, d, o, Plain(swap(o.byte))))
        }
        Instruction::Xorwf(f, d) => {
            let o = operand_at(file, f, c.counter);
            Ok(c.put(file, d, o, Zeroed(xor(o.byte, c.w))))
        }
        Instruction::Bcf(f, b) => {
            let o = operand_at(file, f, c.counter);
            Ok(c.to_place(file, o, Plain(with_bit(o.byte, b, false))))
        }
        Instruction::Bsf(f, b) => {
            let o = operand_at(file, f, c.counter);
            Ok(c.to_place(file, o, Plain(with_bit(o.byte, b, true))))
        }
        Instruction::Btfsc(f, b) => {
            let o = operand_at(file, f, c.counter);
            Ok(c.skip(!bit(o.byte, b)))
        }
        Instruction::Btfss(f, b) => {
            let o = operand_at(file, f, c.counter);
            Ok(c.skip(bit(o.byte, b)))
        }
        Instruction::Addlw(k) => Ok(c.to_w(file, add(k, c.w))),
        Instruction::Andlw(k) => Ok(c.to_w(file, Zeroed(and(k, c.w)))),
        Instruction::Call(k) => c.call(stack, file, k),
        Instruction::Clrwdt => {
            watchdog(file, true);
            Ok(c.next())
        }
        Instruction::Goto(k) => Ok(c.jump(target(file, k))),
        Instruction::Iorlw(k) => Ok(c.to_w(file, Zeroed(or(k, c.w)))),
        Instruction::Movlw(k) => Ok(c.to_w(file, Plain(k))),
        Instruction::Retfie => c.retfie(stack, file),
        Instruction::Retlw(k) => c.back(stack, k),
        Instruction::Return => c.back(stack, c.w),
        Instruction::Sleep => {
            watchdog(file, false);
            Ok(c.sleep())
        }
        Instruction::Sublw(k) => Ok(c.to_w(file, subtract(k, c.w))),
        Instruction::Xorlw(k) => Ok(c.to_w(file, Zeroed(xor(k, c.w)))),
    }
}
