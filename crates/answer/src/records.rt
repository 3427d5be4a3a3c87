// Record lines.
ghost use Rattle.std.specs.Prelude.{◌≡◌, ◌%◌, [], ◌∷◌, Some, IfOk, string_bytes};
ghost use Rattle.std.specs.Char.{digit_char};
ghost use Rattle.answer.specs.Records.{told, hexadecimal, words_shown, shown, record_line};

use crate::answers::Answer;
use crate::digests::digest;
use std::alloc::{AllocError, Global};
use std::fmt;

// The digit of the lower four bits; most of a record line is digits, and to format each byte takes five times as long.
fn digit(d: u8) -> &'static str
    ensures value { result.now ≡ digit_char (d % 16) ∷ [] }
{
    match d % 16 {
        0 => "0",
        1 => "1",
        2 => "2",
        3 => "3",
        4 => "4",
        5 => "5",
        6 => "6",
        7 => "7",
        8 => "8",
        9 => "9",
        10 => "a",
        11 => "b",
        12 => "c",
        13 => "d",
        14 => "e",
        _ => "f",
    }
}

// Bytes in two digits each.
#[derive(Clone, Copy)]
struct Hex<'a>(&'a [u8]);

impl fmt::Display for Hex<'_> {
    ghost output = { λ x. Some (hexadecimal x.0.now) };

    fn fmt<W: fmt::Write>(&self, f: &mut fmt::Formatter<W>) -> fmt::Result {
        for b in self.0 {
            f.write_str(digit(*b / 16))?;
            f.write_str(digit(*b))?;
        }
        Ok(())
    }
}

// Words of 32 bits in eight digits each, with commas between them, `-` for none.
#[derive(Clone, Copy)]
struct Words<'a>(&'a [u32]);

impl fmt::Display for Words<'_> {
    ghost output = { λ x. Some (words_shown x.0.now) };

    fn fmt<W: fmt::Write>(&self, f: &mut fmt::Formatter<W>) -> fmt::Result {
        let Some((first, more)) = self.0.split_first() else {
            return write!(f, "-");
        };
        Hex(&first.to_be_bytes()).fmt(f)?;
        for w in more {
            f.write_str(",")?;
            Hex(&w.to_be_bytes()).fmt(f)?;
        }
        Ok(())
    }
}

impl fmt::Display for Answer {
    ghost output = { λ x. Some (shown (told x)) };

    fn fmt<W: fmt::Write>(&self, f: &mut fmt::Formatter<W>) -> fmt::Result {
        match self {
            Answer::Done => write!(f, "ok"),
            Answer::Number(n) => write!(f, "ok {n}"),
            Answer::Bytes(bytes) if bytes.is_empty() => write!(f, "ok -"),
            Answer::Bytes(bytes) => {
                let bytes = Hex(bytes.as_slice());
                write!(f, "ok {bytes}")
            }
            Answer::Words(words) => {
                let words = Words(words.as_slice());
                write!(f, "ok {words}")
            }
            Answer::Checked((leaked, short, mixed, repeated, flags), words) => {
                let words = Words(words.as_slice());
                write!(f, "ok {leaked} {short} {mixed} {repeated} {flags} {words}")
            }
            Answer::Refused(fault) => write!(f, "fault {fault}"),
            Answer::Mistake(words) => write!(f, "error {words}"),
        }
    }
}

// The record line of an answer, where the store's bytes in use are `content` afterwards.
pub fn record(heap: Global, answer: &Answer, content: &[u8]) -> Result<String, AllocError>
    ensures value { IfOk result (λ s. string_bytes s ≡ record_line (told answer.now) content.now) }
{
    let length = content.len();
    let digest = digest(content);
    format!(in heap; "{answer} | {length} {digest:016x}")
}
