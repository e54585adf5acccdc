// The arithmetic: what the operations make of bytes. Every call takes every input.
#![tactic(auto)]

mod operations;

pub use operations::{
    Sum, Turned, add, and, bit, complement, is_zero, less_one, or, plus_one, rotate_left,
    rotate_right, subtract, swap, with_bit, xor,
};
