// Bytes as text: names with their unprintable letters escaped, and lines of hexadecimal.
ghost use Rattle.std.specs.Prelude.{◌≡◌, ◌++◌, IfOk, OnOk, string_bytes, map, codes};
ghost use Rattle.listing.specs.Lines.{plain, octet, escape, escaped, dotted, gap, spaced, place, line};

use std::alloc::{AllocError, Global};

fn is_plain(b: u8) -> bool
    ensures value { result ≡ plain b }
{
    matches!(b, 0x20..=0x7e)
}

// A byte in two hexadecimal digits; to format it takes more than twice as long.
fn push_octet(text: &mut String, b: u8) -> Result<(), AllocError>
    ensures bytes { OnOk result (string_bytes text.new ≡ string_bytes text.old ++ octet b) }
{
    text.push(char::from_digit(u32::from(b / 16), 16).unwrap())?;
    text.push(char::from_digit(u32::from(b % 16), 16).unwrap())
}

fn push_escape(text: &mut String, b: u8) -> Result<(), AllocError>
    ensures bytes { OnOk result (string_bytes text.new ≡ string_bytes text.old ++ escape b) }
{
    if is_plain(b) && b != b'\\' {
        return text.push(char::from(b));
    }
    text.push_str("\\x")?;
    push_octet(text, b)
}

// A name as text: printable letters as they are, others and the backslash as \xNN.
pub fn shown(heap: Global, name: &[u8]) -> Result<String, AllocError>
    ensures value { IfOk result (λ s. string_bytes s ≡ escaped name.now) }
{
    let mut text = String::new(heap);
    for b in name {
        push_escape(&mut text, *b)?;
    }
    Ok(text)
}

// The bytes as letters, with a dot for what is not printable.
fn push_letters(text: &mut String, bytes: &[u8]) -> Result<(), AllocError>
    ensures bytes { OnOk result (string_bytes text.new ≡ string_bytes text.old ++ map dotted bytes.now) }
{
    for b in bytes {
        text.push(if is_plain(*b) { char::from(*b) } else { '.' })?;
    }
    Ok(())
}

// What comes after the byte at a place.
fn gap(i: usize) -> &'static str
    ensures value { result.now ≡ gap i }
{
    if i % 2 == 1 { " " } else { "" }
}

// The bytes in digits, two and two.
fn push_pairs(text: &mut String, bytes: &[u8]) -> Result<(), AllocError>
    ensures bytes { OnOk result (string_bytes text.new ≡ string_bytes text.old ++ spaced 0 bytes.now) }
{
    for (i, b) in bytes.iter().enumerate() {
        push_octet(text, *b)?;
        text.push_str(gap(i))?;
    }
    Ok(())
}

fn place(heap: Global, at: u64) -> Result<String, AllocError>
    ensures value { IfOk result (λ s. string_bytes s ≡ place at ++ codes ": ") }
{
    format!(in heap; "{at:08x}: ")
}

// A line as xxd prints it: where the bytes lie, the bytes in pairs, and their letters.
pub fn hex_line(heap: Global, at: u64, bytes: &[u8]) -> Result<String, AllocError>
    ensures value { IfOk result (λ s. string_bytes s ≡ line at bytes.now) }
{
    let mut text = place(heap, at)?;
    push_pairs(&mut text, bytes)?;
    text.push(' ')?;
    push_letters(&mut text, bytes)?;
    Ok(text)
}

#[cfg(test)]
mod tests {
    use super::*;
    use std::test::Fail;

    #[test]
    fn a_line_as_xxd_has_it(rt: HostRuntime) -> Result<(), Fail> {
        let line = hex_line(rt.alloc(), 16, b"0123456789abcde\x80")?;
        assert!(rt;
            line.as_str() == "00000010: 3031 3233 3435 3637 3839 6162 6364 6580  0123456789abcde."
        );
        let name = shown(rt.alloc(), b"a\\b\n")?;
        assert!(rt; name.as_str() == "a\\x5cb\\x0a");
        Ok(())
    }
}
