// What a cluster was named as by all references so far.
ghost use Rattle.std.specs.Prelude.{◌≡◌, ◌≤◌, Some};
ghost use Rattle.walk.specs.References.{kind_number};
ghost use Rattle.tally.specs.Tally.{merged};
ghost use Rattle.tally.specs.Uses.{use_number, use_name};

use std::fmt;
use walk::Kind;

#[derive(Clone, Copy, PartialEq, Eq, Debug)]
pub enum Used {
    Free,
    As(Kind),
    Several,
}

impl Used {
    // The number that stands for it in a tally word.
    pub fn number(self) -> u32
        ensures value { result ≡ use_number self }
        ensures most { result ≤ 15 }
    {
        match self {
            Used::Free => 0,
            Used::As(kind) => kind.number(),
            Used::Several => 15,
        }
    }

    // After one more reference of a kind.
    pub(crate) fn joined(self, kind: Kind) -> Used
        ensures value { use_number result ≡ merged (use_number self) (kind_number kind) }
    {
        match self {
            Used::Free => Used::As(kind),
            Used::As(other) if other == kind => self,
            _ => Used::Several,
        }
    }
}

impl fmt::Display for Used {
    ghost output = { λ x. Some (use_name x) };

    fn fmt<W: fmt::Write>(&self, f: &mut fmt::Formatter<W>) -> fmt::Result {
        match self {
            Used::Free => f.write_str("free"),
            Used::As(kind) => write!(f, "{kind}"),
            Used::Several => f.write_str("several"),
        }
    }
}
