// The worked examples of the maker's manual run on the machine: that of 29.3.1, then those of 29.5 in the
// order of its pages (documents 001 and 003). OPTION and TRIS have a page there, but no example. The file
// stdout has what must be printed, typed from the manual. Where a printed result contradicts the
// operation, the operation decides (document 01); a comment at the example says so.
#![tactic(auto)]

mod after;
mod before;
mod bit_oriented;
mod byte_oriented;
mod example;
mod literal_and_control;
mod names;

use example::Example;
use std::io;

fn main(rt: HostRuntime) -> io::Result<()> {
    show(&rt, &byte_oriented::clrf_status())?;
    show(&rt, &literal_and_control::addlw())?;
    show(&rt, &byte_oriented::addwf())?;
    show(&rt, &literal_and_control::andlw())?;
    show(&rt, &byte_oriented::andwf())?;
    show(&rt, &bit_oriented::bcf())?;
    show(&rt, &bit_oriented::bsf())?;
    show(&rt, &bit_oriented::btfsc())?;
    show(&rt, &bit_oriented::btfss())?;
    show(&rt, &literal_and_control::call())?;
    show(&rt, &byte_oriented::clrf())?;
    show(&rt, &byte_oriented::clrw())?;
    show(&rt, &literal_and_control::clrwdt())?;
    show(&rt, &byte_oriented::comf())?;
    show(&rt, &byte_oriented::decf())?;
    show(&rt, &byte_oriented::decfsz())?;
    show(&rt, &literal_and_control::goto())?;
    show(&rt, &byte_oriented::incf())?;
    show(&rt, &byte_oriented::incfsz())?;
    show(&rt, &literal_and_control::iorlw())?;
    show(&rt, &byte_oriented::iorwf())?;
    show(&rt, &literal_and_control::movlw())?;
    show(&rt, &byte_oriented::movf())?;
    show(&rt, &byte_oriented::movwf())?;
    show(&rt, &byte_oriented::nop())?;
    show(&rt, &literal_and_control::retfie())?;
    literal_and_control::retlw(&rt)?;
    show(&rt, &literal_and_control::return_to_caller())?;
    show(&rt, &byte_oriented::rlf())?;
    show(&rt, &byte_oriented::rrf())?;
    show(&rt, &literal_and_control::sleep())?;
    show(&rt, &literal_and_control::sublw())?;
    show(&rt, &byte_oriented::subwf())?;
    show(&rt, &byte_oriented::swapf())?;
    show(&rt, &literal_and_control::xorlw())?;
    show(&rt, &byte_oriented::xorwf())
}

// The examples of a page, in a line each.
fn show(rt: &impl Print, page: &[Example]) -> io::Result<()> {
    for example in page {
        example.show(rt)?;
    }
    Ok(())
}
