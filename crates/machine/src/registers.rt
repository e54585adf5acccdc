// The register map: document 01, "Registers".
ghost use Rattle.std.specs.Prelude.{◌≡◌, ◌*◌, ◌/◌, ◌%◌, ◌≤◌, ◌<◌, get_or};
ghost use Rattle.machine.specs.Registers.{address_of, place_of, place_at, read_at, write_at, cell_of};
ghost use Rattle.machine.specs.Inner.{Found};

use crate::place::{Operand, Place};
use crate::state::File;

pub(crate) const STATUS: usize = 0x03;

pub(crate) const FSR: usize = 0x04;

pub(crate) const PCLATH: usize = 0x0A;

pub(crate) const INTCON: usize = 0x0B;
// From FIRST_PLAIN to 0x6F a register is a plain byte of its bank; from FIRST_SHARED on all banks share it.
const FIRST_PLAIN: usize = 0x0C;

const FIRST_SHARED: usize = 0x70;

// The operand f of an instruction at the counter.
pub(crate) fn operand_at(file: &File, f: u8, counter: usize) -> Operand
    requires { f ≤ 127 }
    ensures { Found file.now f counter result }
{
    let place = place_at(file, f);
    Operand {
        place,
        byte: load(file, place, counter),
    }
}

// The place of the register f: first the plain ones, which are most. That it lies inside the file is said here and at
// `load`, since the operand that says it from then on is made of both.
#[tactic(auto, using(crate::proofs::Places::plain_register, crate::proofs::Places::upper_register, crate::proofs::Places::inside))]
fn place_at(file: &File, f: u8) -> Place
    requires { f ≤ 127 }
    ensures { (result ≡ place_at file.now f) × (cell_of result < 512) }
{
    let q = usize::from(f);
    if q >= FIRST_PLAIN {
        return if q < FIRST_SHARED {
            Place::Cell(bank(file) + q)
        } else {
            Place::Cell(q)
        };
    }
    led_to(address(file, f))
}

// The nine-bit address of f: direct by RP1 and RP0, or where f is 0 indirect by IRP and FSR.
#[tactic(auto, unfolding(crate::specs::Registers::address_of))]
fn address(file: &File, f: u8) -> usize
    ensures { result ≡ address_of file.now f }
{
    if f == 0 {
        usize::from(file[STATUS]) / 128 * 256 + usize::from(file[FSR])
    } else {
        bank(file) + usize::from(f)
    }
}

// Where the bank of RP1 and RP0 begins.
fn bank(file: &File) -> usize
    ensures { result ≡ get_or file.now STATUS 0 / 32 % 4 * 128 }
{
    usize::from(file[STATUS]) / 32 % 4 * 128
}

// Where any address leads.
#[tactic(auto, using(crate::proofs::Places::plain_place, crate::proofs::Places::upper_place), unfolding(crate::specs::Registers::place_of, crate::specs::Registers::shared))]
fn led_to(a: usize) -> Place
    ensures { result ≡ place_of a }
{
    let q = a % 128;
    if q >= FIRST_PLAIN {
        return if q < FIRST_SHARED {
            Place::Cell(a)
        } else {
            Place::Cell(q)
        };
    }
    match q {
        0x00 => Place::Nowhere,
        0x02 => Place::Counter,
        0x03 => Place::Cell(STATUS),
        0x04 => Place::Cell(FSR),
        0x0A => Place::Latch,
        0x0B => Place::Cell(INTCON),
        _ => Place::Cell(a),
    }
}

// The byte that an instruction at the counter reads.
fn load(file: &File, p: Place, counter: usize) -> u8
    requires { cell_of p < 512 }
    ensures { result ≡ read_at counter file.now p }
{
    match p {
        Place::Nowhere => 0,
        Place::Counter => ((counter % 256 + 1) % 256) as u8,
        Place::Latch => file[PCLATH] % 32,
        Place::Cell(n) => file[n],
    }
}

// A byte to its place. One for PCL has no cell: it goes to the counter.
pub(crate) fn store(file: &mut File, o: Operand, v: u8)
    ensures { file.new ≡ write_at file.old o.place v }
{
    match o.place {
        Place::Nowhere | Place::Counter => {}
        Place::Latch => file[PCLATH] = v % 32,
        Place::Cell(n) => file[n] = v,
    }
}
