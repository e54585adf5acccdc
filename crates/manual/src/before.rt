// What an example sets before its instruction. What it does not name is blank; but a flag that it shows
// after, and that is x or not named before, starts as the opposite. The instruction stands at HERE, but
// where the example says what PCL is.
use crate::names::{FSR, HERE, PCLATH, REG, STATUS, TOS};
use machine::State;

// FSR in every example that goes through it. IRP is 0, so this is also the byte's place in the file.
const POINTER: u8 = 0xC2;

#[derive(Clone, Copy, Debug)]
pub struct Before {
    pub state: State,
    status: u8,
    fsr: u8,
    pclath: u8,
    // The register that the example works on: its place in the file, which is in bank 0 or 1, and its byte.
    pub place: u8,
    byte: u8,
}

// W and STATUS alone.
pub fn only_w(w: u8, status: u8) -> Before {
    direct(w, status, 0)
}

// The byte is in REG.
pub fn direct(w: u8, status: u8, byte: u8) -> Before {
    register(w, status, REG, byte)
}

// The byte is in FSR.
pub fn with_fsr(w: u8, status: u8, byte: u8) -> Before {
    Before {
        fsr: byte,
        ..register(w, status, FSR, byte)
    }
}

// The byte is where FSR points.
pub fn indirect(w: u8, status: u8, byte: u8) -> Before {
    Before {
        fsr: POINTER,
        ..register(w, status, POINTER, byte)
    }
}

// The byte is at a place of the file.
pub fn register(w: u8, status: u8, place: u8, byte: u8) -> Before {
    Before {
        state: State {
            w,
            counter: HERE,
            ..State::blank()
        },
        status,
        fsr: 0,
        pclath: 0,
        place,
        byte,
    }
}

impl Before {
    // The instruction stands at another address.
    pub fn at(self, counter: u16) -> Self {
        let state = State {
            counter,
            ..self.state
        };
        Before { state, ..self }
    }

    // The stack has one address.
    pub fn called(self) -> Self {
        let state = State {
            depth: 1,
            stack: [TOS, 0, 0, 0, 0, 0, 0, 0],
            ..self.state
        };
        Before { state, ..self }
    }

    pub fn latched(self, pclath: u8) -> Self {
        Before { pclath, ..self }
    }

    pub fn file(self) -> [u8; 512] {
        let mut file = State::blank_file();
        file[usize::from(STATUS)] = self.status;
        file[usize::from(FSR)] = self.fsr;
        file[usize::from(PCLATH)] = self.pclath;
        file[usize::from(self.place)] = self.byte;
        file
    }
}
