// One word of the tally: what a cluster was named as in the upper four bits, the references below.
ghost use Rattle.std.specs.Prelude.{◌≡◌, ◌/◌, ◌%◌, ◌^◌, ◌≤◌, ◌==◌};
ghost use Rattle.walk.specs.References.{kind_number};
ghost use Rattle.tally.specs.Uses.{use_number, mark_number};
ghost use Rattle.tally.specs.Words.{code_of, kind_in, mark_in, reached, packed, noted, unseen, unmarked};

use crate::uses::Used;
use walk::Kind;

const COUNTS: u32 = 1 << 28;

// How often the walk of one L1 table has reached a cluster.
#[derive(Clone, Copy, PartialEq, Eq)]
pub(crate) enum Mark {
    Unseen,
    Once,
    Often,
}

// A word taken apart.
#[derive(Clone, Copy)]
struct Parts {
    used: Used,
    mark: Mark,
    references: u32,
}

impl Mark {
    // After one more reference of a kind: L2 tables and data are reached from an L1 table.
    fn reached(self, kind: Kind) -> Mark
        ensures value { mark_number result ≡ reached (kind_number kind) (mark_number self) }
    {
        if !kind.in_tree() {
            return self;
        }
        match self {
            Mark::Unseen => Mark::Once,
            _ => Mark::Often,
        }
    }
}

// What the upper four bits stand for. Six numbers that no final word has mark clusters of L2 tables, data and several.
fn read_code(code: u32) -> (Used, Mark)
    requires { code ≤ 15 }
    ensures used { use_number result.0 ≡ kind_in code }
    ensures mark { mark_number result.1 ≡ mark_in code }
{
    match code {
        0 => (Used::Free, Mark::Unseen),
        1 => (Used::As(Kind::Header), Mark::Unseen),
        2 => (Used::As(Kind::RefcountTable), Mark::Unseen),
        3 => (Used::As(Kind::Block), Mark::Unseen),
        4 => (Used::As(Kind::LiveL1), Mark::Unseen),
        5 => (Used::As(Kind::SnapshotTable), Mark::Unseen),
        6 => (Used::As(Kind::SnapshotL1), Mark::Unseen),
        7 => (Used::As(Kind::L2), Mark::Unseen),
        8 => (Used::As(Kind::Data), Mark::Unseen),
        9 => (Used::As(Kind::L2), Mark::Once),
        10 => (Used::As(Kind::Data), Mark::Once),
        11 => (Used::Several, Mark::Once),
        12 => (Used::As(Kind::L2), Mark::Often),
        13 => (Used::As(Kind::Data), Mark::Often),
        14 => (Used::Several, Mark::Often),
        _ => (Used::Several, Mark::Unseen),
    }
}

impl From<u32> for Parts {
    fn from(word: u32) -> Parts
        ensures used { use_number result.used ≡ kind_in (word / 2 ^ 28) }
        ensures mark { mark_number result.mark ≡ mark_in (word / 2 ^ 28) }
        ensures references { result.references ≡ word % 2 ^ 28 }
    {
        let (used, mark) = read_code(word / COUNTS);
        Parts {
            used,
            mark,
            references: word % COUNTS,
        }
    }
}

impl Parts {
    // The number of its use with its mark.
    fn code(self) -> u32
        ensures value { result ≡ code_of (use_number self.used) (mark_number self.mark) }
        ensures most { result ≤ 15 }
    {
        let place = match self.used {
            Used::As(Kind::L2) => 0,
            Used::As(Kind::Data) => 1,
            _ => 2,
        };
        match self.mark {
            Mark::Unseen => self.used.number(),
            Mark::Once => 9 + place,
            Mark::Often => 12 + place,
        }
    }
}

impl From<Parts> for u32 {
    fn from(w: Parts) -> u32
        ensures value { result ≡ packed (use_number w.used) (mark_number w.mark) w.references }
    {
        w.code() * COUNTS + w.references.min(COUNTS - 1)
    }
}

// A word after one more reference of a kind.
pub(crate) fn note(word: u32, kind: Kind) -> u32
    ensures value { result ≡ noted (kind_number kind) word }
{
    let w = Parts::from(word);
    u32::from(Parts {
        used: w.used.joined(kind),
        mark: w.mark.reached(kind),
        references: w.references + 1,
    })
}

// A word after the walk of one table: reached once is taken back.
pub(crate) fn forget(word: u32) -> u32
    ensures value { result ≡ unseen word }
{
    let w = Parts::from(word);
    let mark = if w.mark == Mark::Often {
        Mark::Often
    } else {
        Mark::Unseen
    };
    u32::from(Parts { mark, ..w })
}

// A word without its mark.
pub fn unmark(word: u32) -> u32
    ensures value { result ≡ unmarked word }
{
    let w = Parts::from(word);
    u32::from(Parts {
        mark: Mark::Unseen,
        ..w
    })
}

// What the cluster of a word is used as, marked or not.
pub fn kind_of(word: u32) -> Used
    ensures value { use_number result ≡ kind_in (word / 2 ^ 28) }
{
    Parts::from(word).used
}

// Its references.
pub fn references_of(word: u32) -> u32
    ensures value { result ≡ word % 2 ^ 28 }
{
    Parts::from(word).references
}

// Whether some table reaches its cluster more than once.
pub fn repeated(word: u32) -> bool
    ensures value { result ≡ (mark_in (word / 2 ^ 28) == 2) }
{
    Parts::from(word).mark == Mark::Often
}
