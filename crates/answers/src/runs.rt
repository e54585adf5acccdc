// The run's answers: document 01, "Run answers", in the order of its table. Each line has the case, the
// number, both counts, the state with the first and the last stack entry, and the bytes that the case's
// words write or would write: STATUS, INTCON and the one at 0x20.
use machine::{Ran, State};
use std::io;

// The words, by their text.
const NOP: u16 = 0x0000;

const RETURN: u16 = 0x0008;

const RETFIE: u16 = 0x0009;

const SLEEP: u16 = 0x0063;

// TRIS, which is undefined.
const UNDEFINED: u16 = 0x0065;

const MOVWF_FSR: u16 = 0x0084;

const MOVWF_20: u16 = 0x00A0;

const CLRF_20: u16 = 0x01A0;

const DECFSZ_PCL_1: u16 = 0x0B82;

const INCFSZ_PCL_0: u16 = 0x0F02;

const INCFSZ_INDF_1: u16 = 0x0F80;

const INCFSZ_PCL_1: u16 = 0x0F82;

const CALL_0: u16 = 0x2000;

const MOVLW_5: u16 = 0x3005;

const RETLW_5: u16 = 0x3405;

// What a case starts from, but for what it names.
const GIVEN: State = State {
    w: 90,
    counter: 0,
    depth: 1,
    stack: [7, 0, 0, 0, 0, 0, 0, 9],
};

pub fn answers(rt: &impl Print) -> io::Result<()> {
    all_done(rt)?;
    asleep(rt)?;
    sizes(rt)?;
    states(rt)?;
    too_many(rt)?;
    first_of_several(rt)?;
    past_the_words(rt)?;
    undefined_word(rt)?;
    full_stack(rt)?;
    empty_stack(rt)?;
    counted_pcl(rt)
}

// 0: n instructions.
fn all_done(rt: &impl Print) -> io::Result<()> {
    tried(rt, "all n", &[MOVWF_20, MOVLW_5], GIVEN, 2)
}

// 1: SLEEP ends the run, also as the last of n, and a later run goes on behind it.
fn asleep(rt: &impl Print) -> io::Result<()> {
    let words = [MOVWF_20, SLEEP, MOVLW_5];
    tried(rt, "SLEEP before n", &words, GIVEN, 3)?;
    let mut file = marked();
    let state = tried_on(rt, "SLEEP as n", &words, &mut file, GIVEN, 2)?;
    tried_on(rt, "later run", &words, &mut file, state, 1)?;
    Ok(())
}

// 2: the file's bytes, or the words. 8,192 are run, and the first follows the last.
fn sizes(rt: &impl Print) -> io::Result<()> {
    let mut short = [17u8; 511];
    tried_on(rt, "511 bytes", &[MOVWF_20], &mut short, GIVEN, 1)?;
    let mut long = [17u8; 513];
    tried_on(rt, "513 bytes", &[MOVWF_20], &mut long, GIVEN, 1)?;
    let words = [MOVWF_20; 8193];
    tried(rt, "0 words", &words[..0], GIVEN, 1)?;
    tried(rt, "8193 words", &words, GIVEN, 1)?;
    tried(rt, "8192 words", &words[..8192], at(8191), 1)
}

// 3: counter, depth and any stack entry. The largest that fit are run.
fn states(rt: &impl Print) -> io::Result<()> {
    tried(rt, "counter 8192", &[MOVWF_20], at(8192), 1)?;
    tried(rt, "depth 9", &[MOVWF_20], deep(9, 9), 1)?;
    tried(rt, "entry 8192 at depth 0", &[MOVWF_20], deep(0, 8192), 1)?;
    tried(rt, "depth 8, entry 8191", &[MOVWF_20], deep(8, 8191), 1)
}

// 4: n. The largest that fits is run.
fn too_many(rt: &impl Print) -> io::Result<()> {
    tried(rt, "n 1000001", &[SLEEP], GIVEN, 1000001)?;
    tried(rt, "n 1000000", &[SLEEP], GIVEN, 1000000)
}

// 2 before 3 before 4.
fn first_of_several(rt: &impl Print) -> io::Result<()> {
    let mut short = [17u8; 511];
    tried_on(rt, "2, 3 and 4", &[SLEEP], &mut short, at(8192), 1000001)?;
    tried(rt, "3 and 4", &[SLEEP], at(8192), 1000001)
}

// 5: the words end, after two instructions or at once. With n = 0 there is none to look for.
fn past_the_words(rt: &impl Print) -> io::Result<()> {
    let words = [MOVWF_20, MOVLW_5];
    tried(rt, "off the end", &words, GIVEN, 3)?;
    tried(rt, "past the words", &words, at(2), 1)?;
    tried(rt, "past the words, n 0", &words, at(2), 0)
}

// 6: all before is kept, and no more.
fn undefined_word(rt: &impl Print) -> io::Result<()> {
    let words = [MOVWF_20, UNDEFINED, CLRF_20];
    tried(rt, "undefined word", &words, GIVEN, 3)
}

// 7: CALL 0 from depth 0.
fn full_stack(rt: &impl Print) -> io::Result<()> {
    tried(rt, "ninth CALL", &[CALL_0], deep(0, 9), 9)
}

// 8: neither W nor INTCON is written.
fn empty_stack(rt: &impl Print) -> io::Result<()> {
    tried(rt, "RETURN at depth 0", &[RETURN], deep(0, 9), 1)?;
    tried(rt, "RETLW at depth 0", &[RETLW_5], deep(0, 9), 1)?;
    tried(rt, "RETFIE at depth 0", &[RETFIE], deep(0, 9), 1)
}

// 9: PCL as the destination, by its own address or in bank 1 through FSR. To W it is not refused.
fn counted_pcl(rt: &impl Print) -> io::Result<()> {
    tried(rt, "INCFSZ PCL", &[NOP, INCFSZ_PCL_1], GIVEN, 2)?;
    tried(rt, "DECFSZ PCL", &[NOP, DECFSZ_PCL_1], GIVEN, 2)?;
    let words = [MOVWF_FSR, INCFSZ_INDF_1];
    let pointing = State { w: 0x82, ..GIVEN };
    tried(rt, "INCFSZ through FSR", &words, pointing, 2)?;
    tried(rt, "INCFSZ PCL to W", &[INCFSZ_PCL_0], GIVEN, 1)
}

fn at(counter: u16) -> State {
    State { counter, ..GIVEN }
}

fn deep(depth: u8, last: u16) -> State {
    State {
        depth,
        stack: [7, 0, 0, 0, 0, 0, 0, last],
        ..GIVEN
    }
}

fn marked() -> [u8; 512] {
    let mut file = State::blank_file();
    file[0x20] = 17;
    file
}

fn tried(rt: &impl Print, name: &str, words: &[u16], state: State, n: u32) -> io::Result<()> {
    tried_on(rt, name, words, &mut marked(), state, n)?;
    Ok(())
}

fn tried_on(
    rt: &impl Print,
    name: &str,
    words: &[u16],
    file: &mut [u8],
    state: State,
    n: u32,
) -> io::Result<State> {
    let ran = machine::run(words, file, state, n);
    let number = ran.number();
    let Ran {
        state,
        done,
        cycles,
        ..
    } = ran;
    print!(rt; "{name}: {number} done {done} cycles {cycles}")?;
    show_state(rt, state)?;
    show_file(rt, file)?;
    Ok(state)
}

fn show_state(rt: &impl Print, state: State) -> io::Result<()> {
    let State {
        w,
        counter,
        depth,
        stack: [first, .., last],
    } = state;
    print!(rt; " W {w} counter {counter} depth {depth} stack {first} {last}")
}

// The file has another number of bytes in three of the cases.
fn show_file(rt: &impl Print, file: &[u8]) -> io::Result<()> {
    for (name, place) in [("STATUS", 0x03), ("INTCON", 0x0B), ("0x20", 0x20)] {
        if let Some(byte) = file.get(place) {
            print!(rt; " {name} {byte}")?;
        }
    }
    println!(rt)
}
