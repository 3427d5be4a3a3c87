// What a host cluster is used as.
ghost use Rattle.std.specs.Prelude.{◌≡◌, Some, nat_le};
ghost use Rattle.walk.specs.References.{kind_number};
ghost use Rattle.walk.specs.Names.{kind_name};

use std::fmt;

// Each with the number that stands for it in a tally word.
#[derive(Clone, Copy, PartialEq, Eq, Debug)]
pub enum Kind {
    Header = 1,
    RefcountTable = 2,
    Block = 3,
    LiveL1 = 4,
    SnapshotTable = 5,
    SnapshotL1 = 6,
    L2 = 7,
    Data = 8,
}

impl Kind {
    pub fn number(self) -> u32
        ensures value { result ≡ kind_number self }
    {
        self as u32
    }

    // Whether its clusters are reached from an L1 table.
    pub fn in_tree(self) -> bool
        ensures value { result ≡ nat_le 7 (kind_number self) }
    {
        matches!(self, Kind::L2 | Kind::Data)
    }
}

impl fmt::Display for Kind {
    ghost output = { λ x. Some (kind_name x) };

    fn fmt<W: fmt::Write>(&self, f: &mut fmt::Formatter<W>) -> fmt::Result {
        f.write_str(match self {
            Kind::Header => "header",
            Kind::RefcountTable => "refcount table",
            Kind::Block => "refcount block",
            Kind::LiveL1 => "L1 table",
            Kind::SnapshotTable => "snapshot table",
            Kind::SnapshotL1 => "snapshot L1 table",
            Kind::L2 => "L2 table",
            Kind::Data => "data",
        })
    }
}
