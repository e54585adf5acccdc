// The manual's names. Where section 29.5 gives no address for one, this file chooses it.
use decoder::Dest;

// d: 0, the result goes to W, and 1, to f.
pub const TO_W: Dest = Dest::W;

pub const TO_F: Dest = Dest::File;

// Registers, by their f.
pub const INDF: u8 = 0x00;

pub const OPTION_REG: u8 = 0x01;

pub const PCL: u8 = 0x02;

pub const STATUS: u8 = 0x03;

pub const FSR: u8 = 0x04;

pub const PCLATH: u8 = 0x0A;

pub const INTCON: u8 = 0x0B;

// REG, and also REG1, FLAG_REG, FLAG, CNT and RESULT: chosen.
pub const REG: u8 = 0x20;

// Bits of STATUS, in their places.
pub const C_BIT: u8 = 0x01;

pub const Z_BIT: u8 = 0x04;

pub const PD_BIT: u8 = 0x08;

pub const TO_BIT: u8 = 0x10;

pub const RP0_BIT: u8 = 0x20;

// A bit of INTCON, in its place.
pub const GIE_BIT: u8 = 0x80;

// The literals MYREG and HIGH (LU_TABLE): printed 0x37, and 0x9375 of which this is the high byte.
pub const MYREG: u8 = 0x37;

pub const HIGH_LU_TABLE: u8 = 0x93;

// Addresses of words: chosen. FALSE, and HERE + 1, is the word behind HERE; TRUE, and CONTINUE, is the one
// behind that.
pub const HERE: u16 = 0x0010;

pub const THERE: usize = 0x0234;

// The address on top of the stack: chosen.
pub const TOS: u16 = 0x0345;
