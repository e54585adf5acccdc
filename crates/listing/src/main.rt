// Reads a firmware's words from standard input and writes their listing to standard output, or the
// line REFUSED. What is written is decided by decoder::list, which is proved; this only carries
// bytes.
#![tactic(auto)]

ghost use Rattle.std.specs.Prelude.{◌≤◌, ◌<◌, length, take, IfOk};
ghost use Rattle.std.specs.Io.KnownBytes.{Consumes, IsAtEnd};

use decoder::{LISTING_ROOM, LONGEST_INPUT};
use std::io;
use std::io::Read;

fn main(rt: HostRuntime) -> io::Result<()> {
    // One byte more than the longest input, so that an extra byte is seen.
    let mut input = [0u8; LONGEST_INPUT + 1];
    let n = read_full(&mut rt.stdin(), &mut input)?;
    let mut text = [0u8; LISTING_ROOM];
    // Every listing has room in the text.
    let length = decoder::list(&input[..n], &mut text).unwrap();
    rt.write_all(&text[..length])
}

// Reads until the buffer is full or the input ends, and returns how many bytes it put at the start.
// Reads that come in pieces are joined. It is a loop of ours, since read_exact does not say how many bytes
// it read where the input ends early, read_to_end takes memory, and io::copy does not say what it took.
fn read_full<R: Read>(input: &mut R, buffer: &mut [u8]) -> io::Result<usize>
    ensures within { IfOk result (λ n. n ≤ length buffer.new) }
    ensures joined { IfOk result
        (λ n. Consumes (R.remaining input.old) (R.remaining input.new) (take n buffer.new)) }
    ensures ended { IfOk result (λ n. n < length buffer.new → IsAtEnd (R.remaining input.new)) }
{
    let mut done = 0;
    while done < buffer.len() {
        let n = input.read(&mut buffer[done..])?;
        if n == 0 {
            break;
        }
        done += n;
    }
    Ok(done)
}
