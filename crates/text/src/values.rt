// The values that words spell: numbers, bytes, texts, lists of numbers.
ghost use Rattle.std.specs.Prelude.{◌≡◌, ◌<◌, Some, IfSome, vec_items, alloc_error};
ghost use Rattle.text.specs.declared.values.Misread.TheVariants.{OutOfMemory};
ghost use Rattle.text.specs.Values.{Tells, digit_more, number as number_of, numbers as numbers_of, dash, nibble, octet as octet_of, first as first_of, may_end, turned as turned_of, spelled as spelled_of};

use std::alloc::{AllocError, AllocFailed, Global};

// Why words gave no value.
#[derive(Drop)]
pub(crate) enum Misread {
    // they spell none
    Misspelt,
    OutOfMemory(AllocError),
}

impl<T: Drop> From<AllocFailed<T>> for Misread {
    ghost from_gives = { λ _ e. e ≡ OutOfMemory alloc_error };

    fn from(e: AllocFailed<T>) -> Misread {
        Misread::OutOfMemory(AllocError::from(e))
    }
}

// A number with one digit more; none past 64 bits.
fn digit_more(n: u64, c: u8) -> Option<u64>
    ensures value { result ≡ digit_more (Some n) c }
{
    let digit = char::from(c).to_digit(10)?;
    n.checked_mul(10)?.checked_add(u64::from(digit))
}

// A decimal number of at most 64 bits.
pub(crate) fn number(word: &[u8]) -> Result<u64, Misread>
    ensures value { Tells result (λ n. n) (number_of word.now) }
{
    if word.is_empty() {
        return Err(Misread::Misspelt);
    }
    let mut n = 0;
    for c in word {
        n = digit_more(n, *c).ok_or(Misread::Misspelt)?;
    }
    Ok(n)
}

fn is_dash(word: &[u8]) -> bool
    ensures value { result ≡ dash word.now }
{
    matches!(word, b"-")
}

// Numbers with commas between them, `-` for none.
pub(crate) fn numbers(heap: Global, word: &[u8]) -> Result<Vec<u64>, Misread>
    ensures value { Tells result vec_items (numbers_of word.now) }
{
    let mut all = Vec::new(heap);
    if is_dash(word) {
        return Ok(all);
    }
    for part in word.split(|c| *c == b',') {
        all.push(number(part)?)?;
    }
    Ok(all)
}

fn nibble_of(c: u8) -> Option<u32>
    ensures value { result ≡ nibble c }
    ensures small { IfSome result (λ d. d < 16) }
{
    char::from(c).to_digit(16)
}

// How a word spells bytes: each by two hexadecimal digits, or as itself unless a `%` comes before two digits.
#[derive(Clone, Copy)]
pub(crate) enum Form {
    Hexadecimal,
    Plain,
}

// What a word spells next: a letter as it is, a byte's high digit, or its low one after that.
#[derive(Clone, Copy)]
enum Next {
    Letter,
    High,
    Low(u8),
}

fn first(form: Form) -> Next
    ensures value { result ≡ first_of form }
{
    match form {
        Form::Hexadecimal => Next::High,
        Form::Plain => Next::Letter,
    }
}

// Whether a word may end where this comes next.
fn may_end(form: Form, next: Next) -> bool
    ensures value { result ≡ may_end form next }
{
    matches!(
        (form, next),
        (Form::Hexadecimal, Next::High) | (Form::Plain, Next::Letter)
    )
}

fn octet(high: u8, low: u8) -> Option<u8>
    ensures value { result ≡ octet_of high low }
{
    let h = nibble_of(high)?;
    let l = nibble_of(low)?;
    Some((h * 16 + l) as u8)
}

// What comes after a letter, and the byte that the letter completes.
fn turned(form: Form, next: Next, c: u8) -> Option<(Next, Option<u8>)>
    ensures value { result ≡ turned_of form next c }
{
    match next {
        Next::Letter => {
            if c == b'%' {
                Some((Next::High, None))
            } else {
                Some((Next::Letter, Some(c)))
            }
        }
        Next::High => Some((Next::Low(c), None)),
        Next::Low(high) => Some((first(form), Some(octet(high, c)?))),
    }
}

// The bytes that a word spells, `-` for none.
pub(crate) fn spelled(heap: Global, word: &[u8], form: Form) -> Result<Vec<u8>, Misread>
    ensures value { Tells result vec_items (spelled_of form word.now) }
{
    let mut all = Vec::new(heap);
    if is_dash(word) {
        return Ok(all);
    }
    let mut next = first(form);
    for c in word {
        let (after, byte) = turned(form, next, *c).ok_or(Misread::Misspelt)?;
        if let Some(b) = byte {
            all.push(b)?;
        }
        next = after;
    }
    if !may_end(form, next) {
        return Err(Misread::Misspelt);
    }
    Ok(all)
}
