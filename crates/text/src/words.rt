// The words of a line: what stands before a '#', parted by white space.
ghost use Rattle.std.specs.Prelude.{◌≡◌, []};
ghost use Rattle.std.specs.Option.{option_map};
ghost use Rattle.text.specs.Words.{white, code as code_of, nth, parted, words};

fn is_white(b: u8) -> bool
    ensures value { result ≡ white b }
{
    matches!(b, b' ' | 9..=13)
}

// The line without its comment.
fn code(line: &[u8]) -> &[u8]
    ensures value { result.now ≡ code_of line.now }
{
    match line.iter().position(|b| *b == b'#') {
        Some(end) => &line[..end],
        None => line,
    }
}

// The word with n words before it, in a line without a comment.
fn word_in(code: &[u8], n: usize) -> Option<&[u8]>
    ensures value { option_map (λ x. x.now) result ≡ nth n (parted [] code.now) }
{
    code.split(|b| is_white(*b))
        .filter(|word| !word.is_empty())
        .nth(n)
}

// The word of a line with n words before it.
pub(crate) fn word(line: &[u8], n: usize) -> Option<&[u8]>
    ensures value { option_map (λ x. x.now) result ≡ nth n (words line.now) }
{
    word_in(code(line), n)
}
