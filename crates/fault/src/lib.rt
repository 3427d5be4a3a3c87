// Faults: why a call refused, in which layer, at which place, and how many backing disks down.
#![tactic(auto)]

ghost use Rattle.std.specs.Prelude.{◌≡◌, Some, Decides};
ghost use Rattle.std.proofs.Math.Utf8.{encode};
ghost use Rattle.fault.specs.Outcomes.{demanded};
ghost use Rattle.fault.specs.Faults.{number as number_of, letter as letter_of, words as words_of, fault, deeper as deeper_of, shown as shown_of, same_reason, same_fault, refusal_shown, verdict_shown};

use std::fmt;

// The layer that refused.
#[derive(Clone, Copy, PartialEq, Eq, Debug)]
pub enum Layer {
    Header,
    Tables,
    Disk,
    Store,
    Call,
}

// One case for each ground of refusal, under its number. docs/CALLS.md has the table with layers and places.
#[derive(Clone, Copy, PartialEq, Eq, Debug)]
pub enum Reason {
    NotQcow2 = 1,
    Version = 2,
    ClusterBits = 3,
    StoreLength = 4,
    Features = 5,
    HeaderForm = 6,
    GuestSize = 7,
    TablePlace = 8,
    BackingName = 9,
    NameTooLong = 10,
    NotEmpty = 11,
    NotClean = 12,
    Sectors = 13,
    BadEntry = 14,
    Compressed = 15,
    NoRoom = 16,
    BadId = 17,
    IdInUse = 18,
    NoSuchId = 19,
    SnapshotsFull = 20,
    ListTooShort = 21,
    PastDisk = 22,
    Spoiled = 23,
    PastStore = 24,
    Growth = 25,
}

// Why, where, and how many backing disks were passed on the way up.
#[derive(Clone, Copy, PartialEq, Eq, Debug)]
pub struct Fault {
    pub reason: Reason,
    pub layer: Layer,
    pub place: u64,
    pub depth: u8,
}

impl Layer {
    pub fn letter(self) -> char
        ensures value { result ≡ letter_of self }
    {
        match self {
            Layer::Header => 'H',
            Layer::Tables => 'T',
            Layer::Disk => 'B',
            Layer::Store => 'S',
            Layer::Call => 'C',
        }
    }

    // Goes on where a test was passed, and else refuses in this layer.
    pub fn demand(self, passed: bool, reason: Reason, place: u64) -> Result<(), Fault>
        ensures value { result ≡ demanded passed (fault reason self place) }
    {
        if passed {
            Ok(())
        } else {
            Err(Fault::new(reason, self, place))
        }
    }
}

impl Reason {
    pub fn number(self) -> u8
        ensures value { result ≡ number_of self }
    {
        self as u8
    }

    // A few plain words for people.
    #[tactic(auto, using(crate::proofs::Words::words_same))]
    pub fn words(self) -> &'static str
        ensures value { result.now ≡ words_of self }
    {
        match self {
            Reason::NotQcow2 => "not a QCOW2 image",
            Reason::Version => "version is not 2 or 3",
            Reason::ClusterBits => "cluster bits are not 9 to 21",
            Reason::StoreLength => "length is not whole clusters, or too many",
            Reason::Features => "encrypted, or features that are not supported",
            Reason::HeaderForm => "refcount order or header length is not supported",
            Reason::GuestSize => "guest size or L1 entries are wrong",
            Reason::TablePlace => "a table's place or size is wrong",
            Reason::BackingName => "the backing name's length or place is wrong",
            Reason::NameTooLong => "the backing name is too long",
            Reason::NotEmpty => "the store is not empty",
            Reason::NotClean => "not checked, or the check found errors",
            Reason::Sectors => "the sectors or the buffer do not fit the call",
            Reason::BadEntry => "a bad table entry or snapshot record",
            Reason::Compressed => "a compressed cluster",
            Reason::NoRoom => "no room for a new cluster",
            Reason::BadId => "the id or name is too long or empty",
            Reason::IdInUse => "the id is in use",
            Reason::NoSuchId => "no snapshot has this id",
            Reason::SnapshotsFull => "the snapshot table is full",
            Reason::ListTooShort => "the word list is too short",
            Reason::PastDisk => "past the end of the disk",
            Reason::Spoiled => "a spoiled sector",
            Reason::PastStore => "past the end of the store",
            Reason::Growth => "growth out of bounds",
        }
    }

    // Whether it is that reason.
    pub fn is(self, reason: Reason) -> bool
        ensures value { result ≡ same_reason self reason }
        ensures decides { Decides result (self ≡ reason) }
    {
        self == reason
    }
}

impl Fault {
    // Whether it is that fault, in all parts.
    pub fn is(self, fault: Fault) -> bool
        ensures value { result ≡ same_fault self fault }
        ensures decides { Decides result (self ≡ fault) }
    {
        self == fault
    }

    // A fault where it first arises, no backing disk passed yet.
    pub fn new(reason: Reason, layer: Layer, place: u64) -> Fault
        ensures value { result ≡ fault reason layer place }
    {
        Fault {
            reason,
            layer,
            place,
            depth: 0,
        }
    }

    // The fault as it comes up through a backing disk: one deeper, held at 255, nothing else changed.
    pub fn deeper(self) -> Fault
        ensures value { result ≡ deeper_of self }
    {
        Fault {
            depth: self.depth.saturating_add(1),
            ..self
        }
    }
}

impl fmt::Display for Layer {
    ghost output = { λ x. Some (encode (letter_of x)) };

    fn fmt<W: fmt::Write>(&self, f: &mut fmt::Formatter<W>) -> fmt::Result {
        let c = self.letter();
        write!(f, "{c}")
    }
}

impl fmt::Display for Reason {
    ghost output = { λ x. Some (words_of x) };

    fn fmt<W: fmt::Write>(&self, f: &mut fmt::Formatter<W>) -> fmt::Result {
        let words = self.words();
        write!(f, "{words}")
    }
}

impl fmt::Display for Fault {
    ghost output = { λ x. Some (shown_of x) };

    fn fmt<W: fmt::Write>(&self, f: &mut fmt::Formatter<W>) -> fmt::Result {
        let number = self.reason.number();
        let layer = self.layer.letter();
        let place = self.place;
        let depth = self.depth;
        write!(f, "{number} {layer} {place} {depth}")
    }
}

// A fault as people are told of it: its numbers, and what they mean.
#[derive(Clone, Copy)]
pub struct Refusal(pub Fault);

impl fmt::Display for Refusal {
    ghost output = { λ x. Some (refusal_shown x.0) };

    fn fmt<W: fmt::Write>(&self, f: &mut fmt::Formatter<W>) -> fmt::Result {
        let fault = self.0;
        let reason = fault.reason;
        write!(f, "refused {fault}: {reason}")
    }
}

// What a call without an answer of its own came to.
#[derive(Clone, Copy)]
pub struct Verdict(pub Result<(), Fault>);

impl fmt::Display for Verdict {
    ghost output = { λ x. Some (verdict_shown x.0) };

    fn fmt<W: fmt::Write>(&self, f: &mut fmt::Formatter<W>) -> fmt::Result {
        match self.0 {
            Ok(()) => write!(f, "ok"),
            Err(fault) => {
                let refusal = Refusal(fault);
                write!(f, "{refusal}")
            }
        }
    }
}

#[cfg(test)]
mod tests {
    use super::*;

    #[test]
    fn the_depth_is_held_at_255(rt: HostRuntime) {
        let mut f = Fault::new(Reason::Spoiled, Layer::Disk, 7);
        for _ in 0..300 {
            f = f.deeper();
        }
        assert_eq!(rt; f.depth, 255);
        assert_eq!(rt; f.place, 7);
        assert!(rt; f.reason == Reason::Spoiled && f.layer == Layer::Disk);
    }
}
