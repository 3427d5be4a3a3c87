// Lists of spoiled sectors as text: a number to a line; blank lines, and what follows a `#`, say nothing.
ghost use Rattle.std.specs.Prelude.{◌≡◌, Some, IfSome};
ghost use Rattle.listing.specs.Spoiled.{words, said, heard, listed_as, listed};
ghost use Rattle.std.specs.Result.{result_ok};
ghost use Rattle.listing.specs.declared.spoiled.BadList.TheVariants.{OutOfMemory};

use std::alloc::{AllocFailed, Global};
use std::error::Error;
use std::fmt;
use std::num::ParseIntError;

// Why a text gives no list.
#[derive(Debug, PartialEq, Eq, Drop)]
pub enum BadList {
    // the first line, from 1 on, that is no number
    Line(usize),
    OutOfMemory,
}

impl fmt::Display for BadList {
    ghost output = { λ e. Some (words e) };

    fn fmt<W: fmt::Write>(&self, f: &mut fmt::Formatter<W>) -> fmt::Result {
        match self {
            BadList::Line(n) => write!(f, "line {n} is no sector number"),
            BadList::OutOfMemory => write!(f, "out of memory"),
        }
    }
}

impl Error for BadList {}

impl From<AllocFailed<u64>> for BadList {
    ghost from_gives = { λ _ e. e ≡ OutOfMemory };

    fn from(_e: AllocFailed<u64>) -> Self {
        Self::OutOfMemory
    }
}

// What a line says without its comment.
fn said(line: &str) -> &str
    ensures value { result.now ≡ said line.now }
{
    line.split_once('#').map_or(line, |(front, _)| front).trim()
}

// The number on a line, if it has one.
fn heard(line: &str) -> Result<Option<u64>, ParseIntError>
    ensures value { result_ok result ≡ heard line.now }
{
    let word = said(line);
    if word.is_empty() {
        return Ok(None);
    }
    Ok(Some(word.parse()?))
}

// The sectors that a text lists.
pub fn spoiled_in(heap: Global, text: &str) -> Result<Vec<u64>, BadList>
    ensures value { IfSome (listed_as result) (λ s. s ≡ listed text.now) }
{
    let mut sectors = Vec::new(heap);
    for (i, line) in text.lines().enumerate() {
        match heard(line) {
            Ok(Some(sector)) => sectors.push(sector)?,
            Ok(None) => continue,
            Err(_) => return Err(BadList::Line(i.saturating_add(1))),
        }
    }
    Ok(sectors)
}

#[cfg(test)]
mod tests {
    use super::*;
    use std::test::Fail;

    #[test]
    fn numbers_blank_lines_and_comments(rt: HostRuntime) -> Result<(), Fail> {
        let text = "# found by the copy\n5\n\n  17 # twice\n0\n";
        let sectors = spoiled_in(rt.alloc(), text)?;
        assert!(rt; sectors.as_slice() == [5, 17, 0].as_slice());
        Ok(())
    }

    #[test]
    fn a_line_that_is_no_number_is_named(rt: HostRuntime) -> Result<(), Fail> {
        match spoiled_in(rt.alloc(), "1\n\n2 3\n") {
            Ok(_) => Err(Fail::new("accepted")),
            Err(e) => {
                assert!(rt; e == BadList::Line(3));
                let text = e.to_string(rt.alloc())?;
                assert!(rt; text.as_str() == "line 3 is no sector number");
                Ok(())
            }
        }
    }
}
