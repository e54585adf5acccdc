// What a run leaves, and the line that is written of it: the text of its instruction, the values that the
// manual prints after it, and the cycles.
use crate::before::Before;
use crate::names::{C_BIT, FSR, GIE_BIT, INTCON, PD_BIT, STATUS, TO_BIT, Z_BIT};
use machine::Ran;
use std::io;

// A value that an example shows.
#[derive(Clone, Copy, Debug)]
pub enum Value {
    W,
    // The register that the example works on: f.
    Register,
    Fsr,
    // That register again, where FSR points to it: (FSR).
    Indf,
    C,
    Z,
    Pc,
    Pcl,
    Pch,
    Tos,
    To,
    Pd,
    Gie,
    // The run's answer.
    Answer,
}

#[derive(Clone, Copy, Debug)]
pub struct After {
    ran: Ran,
    file: [u8; 512],
    // The place of the register that the example works on.
    place: u8,
}

impl After {
    // n instructions of a program are run.
    pub fn run(words: &[u16], n: u32, before: Before) -> Self {
        let mut file = before.file();
        let ran = machine::run(words, &mut file, before.state, n);
        After {
            ran,
            file,
            place: before.place,
        }
    }

    // `named` is the word whose text begins the line.
    pub fn show(&self, rt: &impl Print, named: u16, shown: &[Value]) -> io::Result<()> {
        // The text in 14 columns: the longest has 13.
        let mut text = [b' '; 14];
        // Each named word is defined, and the text has room.
        let _ = decoder::disassemble(named, &mut text);
        rt.write_all(&text)?;
        for value in shown {
            self.show_value(rt, *value)?;
        }
        println!(rt; " cycles {}", self.ran.cycles)
    }

    fn show_value(&self, rt: &impl Print, value: Value) -> io::Result<()> {
        let state = self.ran.state;
        match value {
            Value::W => print!(rt; " W 0x{:02X}", state.w),
            Value::Register => print!(rt; " f 0x{:02X}", self.byte(self.place)),
            Value::Fsr => print!(rt; " FSR 0x{:02X}", self.byte(FSR)),
            Value::Indf => print!(rt; " (FSR) 0x{:02X}", self.byte(self.place)),
            Value::C => print!(rt; " C {}", self.bit(STATUS, C_BIT)),
            Value::Z => print!(rt; " Z {}", self.bit(STATUS, Z_BIT)),
            Value::Pc => print!(rt; " PC 0x{:04X}", state.counter),
            Value::Pcl => print!(rt; " PCL 0x{:02X}", state.counter % 256),
            Value::Pch => print!(rt; " PCH 0x{:02X}", state.counter / 256),
            Value::Tos => match self.top() {
                Some(top) => print!(rt; " TOS 0x{top:04X}"),
                None => print!(rt; " TOS none"),
            },
            Value::To => print!(rt; " TO {}", self.bit(STATUS, TO_BIT)),
            Value::Pd => print!(rt; " PD {}", self.bit(STATUS, PD_BIT)),
            Value::Gie => print!(rt; " GIE {}", self.bit(INTCON, GIE_BIT)),
            Value::Answer => print!(rt; " answer {}", self.ran.number()),
        }
    }

    fn byte(&self, place: u8) -> u8 {
        self.file[usize::from(place)]
    }

    // A bit as the 0 or 1 that is printed.
    fn bit(&self, place: u8, bit: u8) -> u8 {
        u8::from(self.byte(place) & bit != 0)
    }

    // The top of the stack, of which no example uses more than one place.
    fn top(&self) -> Option<u16> {
        let state = self.ran.state;
        if state.depth == 1 {
            Some(state.stack[0])
        } else {
            None
        }
    }
}
