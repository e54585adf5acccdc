// A firmware's listing, whole: an address, a word and its text to a line.
ghost use Rattle.std.specs.Prelude.{◌≡◌, ◌+◌, ◌≤◌, length, false, MatchOption};
ghost use Rattle.decoder.specs.Listing.{accepted_of, line_of};
ghost use Rattle.decoder.specs.Answers.{Lists};
ghost use Rattle.decoder.specs.Inner.{Wrote, Words, form_of, lines_in};

use crate::decoding::decode;
use crate::refusal::Refusal;
use crate::text::{push_hex, push_text};
use arrayvec::ArrayString;

// The most words that are listed, each in a line of at most LINE_ROOM bytes.
const MOST_WORDS: usize = 8192;

const MOST_BYTES: usize = 2 * MOST_WORDS;

const LINE_ROOM: usize = 25;

pub const LISTING_ROOM: usize = LINE_ROOM * MOST_WORDS;

// An input: a two-byte length, a two-byte kind, and that many bytes of words.
const HEADER: usize = 4;

const KIND_WORDS: u16 = 1;

pub const LONGEST_INPUT: usize = HEADER + MOST_BYTES;

// The listing of an input, or the line REFUSED, at the start of the buffer, and nothing else changed.
// What comes back is how many bytes were written.
pub fn list(input: &[u8], out: &mut [u8]) -> Result<usize, Refusal>
    ensures { Lists input.now out.old result out.new }
{
    if out.len() < LISTING_ROOM {
        return Err(Refusal::ShortListing);
    }
    let end = match words_of(input) {
        Some(words) => put_lines(words, out),
        None => put(b"REFUSED\n", out, 0),
    };
    Ok(end)
}

// The words, each of two bytes, low byte first; or None where the input has not that form.
fn words_of(input: &[u8]) -> Option<&[[u8; 2]]>
    ensures { MatchOption result (accepted_of input.now ≡ false) (λ words. Words input.now words.now) }
{
    let (header, rest) = input.split_first_chunk::<HEADER>()?;
    let length = u16::from_le_bytes([header[0], header[1]]);
    let kind = u16::from_le_bytes([header[2], header[3]]);
    if !is_form(usize::from(length), kind, rest.len()) {
        return None;
    }
    // The length is even, so that no byte is left over.
    let (words, _) = rest.as_chunks::<2>();
    Some(words)
}

// Whether a header's length and kind are right, with so many bytes behind it.
#[tactic(auto, unfolding(crate::specs::Inner::form_of))]
fn is_form(length: usize, kind: u16, bytes: usize) -> bool
    ensures { result ≡ form_of length kind bytes }
{
    length % 2 == 0 && length != 0 && length <= MOST_BYTES && kind == KIND_WORDS && bytes == length
}

// A line for each word.
fn put_lines(words: &[[u8; 2]], out: &mut [u8]) -> usize
    requires { (length words.now ≤ 8192) × (204800 ≤ length out.old) }
    ensures { Wrote out.old out.new 0 result (lines_in (length words.now) words.now) }
{
    let mut end = 0;
    for (address, word) in words.iter().enumerate() {
        let line = line_of(address, u16::from_le_bytes(*word));
        end = put(line.as_bytes(), out, end);
    }
    end
}

// A text from `at` on. What comes back is the place behind it: the buffer is the caller's, and `Lists` names its bytes,
// so that the place is carried beside it.
fn put(text: &[u8], out: &mut [u8], at: usize) -> usize
    requires { at + length text.now ≤ length out.old }
    ensures { Wrote out.old out.new at result text.now }
{
    let end = at + text.len();
    out[at..end].copy_from_slice(text);
    end
}

// A word's line: its address, the word, and its text or ????.
#[tactic(auto, unfolding(crate::specs::Listing::line_of))]
fn line_of(address: usize, word: u16) -> ArrayString<LINE_ROOM>
    ensures { result.bytes ≡ line_of address word }
{
    let mut line = ArrayString::new();
    push_hex(&mut line, 4, address);
    line.push_str(" ");
    push_hex(&mut line, 4, usize::from(word));
    line.push_str(" ");
    match decode(word) {
        Ok(i) => push_text(&mut line, i),
        Err(_) => line.push_str("????"),
    }
    line.push_str("\n");
    line
}
