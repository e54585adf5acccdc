// The machine's state: document 01, "Run answers", which names its parts. It goes in by value and comes back by value.
// Its limits and its blank start belong to its own type.
ghost use Rattle.std.specs.Prelude.{◌≡◌};
ghost use Rattle.machine.specs.State.{plus};
ghost use Rattle.machine.specs.Answers.{IsBlank, IsBlankFile};

#[derive(Clone, Copy, Debug, PartialEq, Eq, Hash)]
pub struct State {
    pub w: u8,
    pub counter: u16,
    pub depth: u8,
    // The return addresses, the first pushed first. Those at and above the depth have no effect.
    pub stack: [u16; 8],
}

impl State {
    // The most words that a program has, and their last address.
    pub const WORDS: usize = 8192;

    pub const LAST: u16 = 8191;
    // The file's bytes.
    pub const BYTES: usize = 512;
    // The stack's places.
    pub const PLACES: u8 = 8;
    // The most instructions of one run.
    pub const LONGEST: u32 = 1000000;

    pub fn blank() -> Self
        ensures { IsBlank result }
    {
        Self {
            w: 0,
            counter: 0,
            depth: 0,
            stack: [0u16; 8],
        }
    }

    pub fn blank_file() -> [u8; 512]
        ensures { IsBlankFile result }
    {
        [0u8; 512]
    }
}

// What an instruction works on, beside the stack and the file: a state without its stack. It goes in and comes back by
// value, so that a refused instruction leaves it as it was; the stack and the file, which are large, are lent beside it.
#[derive(Clone, Copy)]
pub(crate) struct Core {
    pub(crate) w: u8,
    pub(crate) counter: usize,
}

// The file's bytes, once it is known that it has as many as it must.
pub(crate) type File = [u8; State::BYTES];

// The address after a.
pub(crate) fn after(a: usize) -> usize
    ensures { result ≡ plus a 1 }
{
    (a % State::WORDS + 1) % State::WORDS
}
