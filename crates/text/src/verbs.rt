// The verbs: the word that begins a call, and the words that follow it.
ghost use Rattle.std.specs.Prelude.{◌≡◌};
ghost use Rattle.text.specs.Verbs.{usage as usage_of, begins as begins_of, all_verbs, verb_in};

use crate::words::word;

// One for each line of docs/CALLS.md, "Lists of calls as text".
#[derive(Clone, Copy)]
pub(crate) enum Verb {
    StoreFlat,
    StoreSplit,
    StoreLength,
    StoreLimit,
    StoreRead,
    StoreReplace,
    StoreGrow,
    DiskZeros,
    DiskRaw,
    DiskRescued,
    DiskSectors,
    DiskRead,
    Create,
    Mount,
    Read,
    Peek,
    Map,
    Check,
}

const VERBS: [Verb; 18] = [
    Verb::StoreFlat,
    Verb::StoreSplit,
    Verb::StoreLength,
    Verb::StoreLimit,
    Verb::StoreRead,
    Verb::StoreReplace,
    Verb::StoreGrow,
    Verb::DiskZeros,
    Verb::DiskRaw,
    Verb::DiskRescued,
    Verb::DiskSectors,
    Verb::DiskRead,
    Verb::Create,
    Verb::Mount,
    Verb::Read,
    Verb::Peek,
    Verb::Map,
    Verb::Check,
];

impl Verb {
    // The line as a person would be told to write it; its first word is the verb's.
    pub(crate) fn usage(self) -> &'static str
        ensures value { result.now ≡ usage_of self }
    {
        match self {
            Verb::StoreFlat => "store-flat LIMIT [BYTES]",
            Verb::StoreSplit => "store-split LIMIT1 LIMIT2 [BYTES]",
            Verb::StoreLength => "store-length",
            Verb::StoreLimit => "store-limit",
            Verb::StoreRead => "store-read FIRST COUNT",
            Verb::StoreReplace => "store-replace FIRST BYTES",
            Verb::StoreGrow => "store-grow LENGTH",
            Verb::DiskZeros => "disk-zeros SECTORS",
            Verb::DiskRaw => "disk-raw BYTES",
            Verb::DiskRescued => "disk-rescued BYTES SPOILED",
            Verb::DiskSectors => "disk-sectors",
            Verb::DiskRead => "disk-read SECTOR",
            Verb::Create => "create VERSION BITS SIZE NAME",
            Verb::Mount => "mount",
            Verb::Read => "read SECTOR [LENGTH]",
            Verb::Peek => "peek ID SECTOR [LENGTH]",
            Verb::Map => "map ID WORDS",
            Verb::Check => "check WORDS",
        }
    }

    fn begins(self, name: &[u8]) -> bool
        ensures value { result ≡ begins_of self name.now }
    {
        word(self.usage().as_bytes(), 0) == Some(name)
    }
}

// The verb of a word.
pub(crate) fn verb_of(name: &[u8]) -> Option<Verb>
    ensures value { result ≡ verb_in all_verbs name.now }
{
    VERBS.iter().copied().find(|v| v.begins(name))
}
