//! The sentence by which a fault is told, for whoever prints it.
ghost use Rattle.std.specs.Prelude.{ℕ, List};
ghost use Rattle.virtiofs_map_c.specs.Replies.{Goes, TellsFront};

mod escaped;
mod front;
mod words;

use crate::codes::{NO_ROOM, OK};
use crate::fault::Fault;
use escaped::put_escaped;
use front::{cut_whole, put, put_number};
use words::{AT_FAULT, number_at, place_words, words_of};

#[unsafe(no_mangle)]
pub extern "C" fn virtiofs_map_fault_text(
    fault: &Fault,
    quoted: &[u8],
    out: &mut [u8],
    len: &mut usize,
) -> u32
    ensures text { (sentence : List ℕ) × TellsFront sentence out.old result len.new out.new }
{
    *len = 0;
    let text = at_fault(fault, quoted);
    say(place_words(fault), fault, text, out, len);
    let (front, middle, end) = words_of(fault);
    say(front, fault, text, out, len);
    say(middle, fault, text, out, len);
    say(end, fault, text, out, len);
    if out.len() < *len {
        cut_whole(out);
        return NO_ROOM;
    }
    OK
}

/// What was quoted of the text at fault, or three dots where there was no room for it.
fn at_fault<'a>(fault: &Fault, quoted: &'a [u8]) -> &'a [u8] {
    if fault.quoted < fault.wanted {
        return b"...";
    }
    quoted.get(..fault.quoted).unwrap_or(quoted)
}

/// Writes words, with what the fault says in the place of each hole: the text at fault, or a number.
fn say(words: &str, fault: &Fault, text: &[u8], out: &mut [u8], len: &mut usize)
    ensures { Goes len.old out.old len.new out.new }
{
    for byte in words.as_bytes() {
        match number_at(*byte, fault) {
            Some(number) => put_number(number, out, len),
            None if *byte == AT_FAULT => put_escaped(text, out, len),
            None => put(&[*byte], out, len),
        }
    }
}
