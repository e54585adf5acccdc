// Where an address leads, and what an instruction finds there: document 01, "Registers".
ghost use Rattle.std.specs.Prelude.{◌<◌};
ghost use Rattle.machine.specs.Registers.{cell_of};

// Where an address leads.
#[derive(Clone, Copy, Debug, PartialEq, Eq)]
pub enum Place {
    // INDF, reached through itself.
    Nowhere,
    // PCL, which has no cell.
    Counter,
    // PCLATH, of which five bits are read and written.
    Latch,
    Cell(usize),
}

// A register's place, which lies inside the file, and its byte.
#[derive(Clone, Copy)]
pub(crate) struct Operand {
    pub(crate) place: Place,
    pub(crate) byte: u8,
    ghost inside: { cell_of place < 512 },
}
