// Bad input, and what comes back: each call's number and what is left in the buffer it was lent. The
// file stdout has what must be printed, written from document 01 by hand.
#![tactic(auto)]

mod runs;

use decoder::{Dest, Instruction, Refusal, decode, disassemble, encode, list};
use std::fmt::Display;
use std::io;

fn main(rt: HostRuntime) -> io::Result<()> {
    decodes(&rt)?;
    encodes(&rt)?;
    // An undefined word answers 6 also where the buffer is too short.
    disassembles(&rt, 0x0065, &mut [b'.'; 13])?;
    // 13 bytes answer 11, and keep what they held.
    disassembles(&rt, 0x0008, &mut [b'.'; 13])?;
    // The longest text in a larger buffer: the bytes behind it are kept.
    disassembles(&rt, 0x0BA0, &mut [b'.'; 16])?;
    lists_to_a_short_buffer(&rt)?;
    runs::answers(&rt)
}

// 6 for TRIS, for the first and last words behind XORLW, and for what has more than 14 bits; 0, for a
// word with an instruction, on either side of them.
fn decodes(rt: &impl Print) -> io::Result<()> {
    for word in [
        0x0065, 0x3B00, 0x3BFF, 0x4000, 0xFFFF, 0x0064, 0x3AFF, 0x3C00, 0x3FFF,
    ] {
        show(rt, decode(word).map(|_| 0))?;
    }
    Ok(())
}

// 10 for f above 127, b above 7 and an eleven-bit k above 2,047; a word for the largest that fit.
fn encodes(rt: &impl Print) -> io::Result<()> {
    for instruction in [
        Instruction::Addwf(128, Dest::W),
        Instruction::Clrf(255),
        Instruction::Btfss(127, 8),
        Instruction::Btfss(128, 7),
        Instruction::Call(2048),
        Instruction::Btfss(127, 7),
        Instruction::Call(2047),
    ] {
        show(rt, encode(instruction))?;
    }
    Ok(())
}

fn disassembles(rt: &impl Print, word: u16, text: &mut [u8]) -> io::Result<()> {
    show(rt, disassemble(word, text))?;
    show_text(rt, text)
}

fn lists_to_a_short_buffer(rt: &impl Print) -> io::Result<()> {
    let mut text = [b'.'; 20];
    show(rt, list(&[2, 0, 1, 0, 0x64, 0], &mut text))?;
    show_text(rt, &text)
}

// What a call gives, or the number of its refusal.
fn show<T: Display + Drop>(rt: &impl Print, answer: Result<T, Refusal>) -> io::Result<()> {
    match answer {
        Ok(value) => println!(rt; "{value}"),
        Err(refusal) => println!(rt; "{}", u8::from(refusal)),
    }
}

// A text is bytes, not a str, so it is written and not formatted.
fn show_text(rt: &impl Print, text: &[u8]) -> io::Result<()> {
    rt.write_all(text)?;
    println!(rt)
}
