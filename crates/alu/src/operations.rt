// What the operations make of bytes: document 01, "One instruction". Sums and differences wrap at 256,
// and their carries are found beside them.
ghost use Rattle.std.specs.Prelude.{◌≡◌, ◌%◌};
ghost use Rattle.alu.specs.Alu.{and_of, or_of, xor_of, to_bit, bit_of, with_bit, is_zero, no_borrow, plus_one, less_one, complemented, swapped};
ghost use Rattle.alu.specs.Answers.{Adds, Subtracts, TurnsLeft, TurnsRight};

// A sum or a difference, with DC and C.
#[derive(Clone, Copy, Debug, PartialEq, Eq, Hash)]
pub struct Sum {
    pub value: u8,
    pub digit: bool,
    pub carry: bool,
}

pub fn add(x: u8, w: u8) -> Sum
    ensures { Adds x w result }
{
    Sum {
        value: x.wrapping_add(w),
        digit: x % 16 + w % 16 >= 16,
        carry: u16::from(x) + u16::from(w) >= 256,
    }
}

// x less w.
pub fn subtract(x: u8, w: u8) -> Sum
    ensures { Subtracts x w result }
{
    Sum {
        value: x.wrapping_sub(w),
        digit: no_borrow(x % 16, w % 16),
        carry: no_borrow(x, w),
    }
}

fn no_borrow(x: u8, w: u8) -> bool
    ensures { to_bit result ≡ no_borrow x w }
{
    w <= x
}

pub fn plus_one(x: u8) -> u8
    ensures { result ≡ plus_one x }
{
    x.wrapping_add(1)
}

pub fn less_one(x: u8) -> u8
    ensures { result ≡ less_one x }
{
    x.wrapping_sub(1)
}

#[tactic(auto, using(crate::proofs::Bytes::and_bytes))]
pub fn and(x: u8, w: u8) -> u8
    ensures { result ≡ and_of x w }
{
    x & w
}

#[tactic(auto, using(crate::proofs::Bytes::or_bytes))]
pub fn or(x: u8, w: u8) -> u8
    ensures { result ≡ or_of x w }
{
    x | w
}

#[tactic(auto, using(crate::proofs::Bytes::xor_bytes))]
pub fn xor(x: u8, w: u8) -> u8
    ensures { result ≡ xor_of x w }
{
    x ^ w
}

// Every bit the other way.
pub fn complement(x: u8) -> u8
    ensures { result ≡ complemented x }
{
    !x
}

// The nibbles exchanged.
pub fn swap(x: u8) -> u8
    ensures { result ≡ swapped x }
{
    x % 16 * 16 + x / 16
}

// A byte turned through C, and the C that leaves it.
#[derive(Clone, Copy, Debug, PartialEq, Eq, Hash)]
pub struct Turned {
    pub value: u8,
    pub carry: bool,
}

// C comes in as the lowest bit of STATUS.
pub fn rotate_left(x: u8, status: u8) -> Turned
    ensures { TurnsLeft x status result }
{
    Turned {
        value: x % 128 * 2 + status % 2,
        carry: x >= 128,
    }
}

pub fn rotate_right(x: u8, status: u8) -> Turned
    ensures { TurnsRight x status result }
{
    Turned {
        value: status % 2 * 128 + x / 2,
        carry: x % 2 == 1,
    }
}

// x with bit b set or cleared. A byte has eight bits: b counts modulo 8, here and in `bit`.
#[tactic(auto, using(crate::proofs::Bytes::set_bit, crate::proofs::Bytes::clear_bit))]
pub fn with_bit(x: u8, b: u8, set: bool) -> u8
    ensures { result ≡ with_bit (b % 8) (to_bit set) x }
{
    if set {
        x | (1 << (b % 8))
    } else {
        x & (255 - (1 << (b % 8)))
    }
}

pub fn bit(x: u8, b: u8) -> bool
    ensures { to_bit result ≡ bit_of (b % 8) x }
{
    (x >> (b % 8)) % 2 == 1
}

pub fn is_zero(v: u8) -> bool
    ensures { to_bit result ≡ is_zero v }
{
    v == 0
}
