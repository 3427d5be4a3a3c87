// Judging a header: the first bytes of a store, to its numbers or the first fault.
ghost use Rattle.std.specs.Prelude.{◌≡◌, ◌+◌, ◌≤◌, true, false, length, drop, if◌then◌else◌, MatchOption, nat_eq};
ghost use Rattle.format.specs.Header.{fields_from, header as header_in, header_of, opens, kind_judged, places_judged, version_good, bits_good, length_good, header_good, size_good, table_good, extent_good, records_good, letters_good, name_good};

use crate::numbers::Numbers;
use byte_lists::{Number, number_at, within};
use fault::{Fault, Layer, Reason};
use store::Store;

impl Numbers {
    pub fn version_good(self) -> bool
        ensures value { result ≡ version_good self }
    {
        matches!(self.version, 2 | 3)
    }

    pub fn bits_good(self) -> bool
        ensures value { result ≡ bits_good self }
    {
        matches!(self.bits, 9..=21)
    }

    fn length_good(self, length: u64) -> bool
        ensures value { result ≡ length_good self length }
    {
        let c = self.cluster_size();
        length % c == 0 && length / c <= 1 << 28
    }

    fn header_good(self) -> bool
        ensures value { result ≡ header_good self }
    {
        self.version == 2
            || (104 <= self.header
                && self.header as u64 <= self.cluster_size()
                && self.header % 8 == 0)
    }

    pub fn size_good(self) -> bool
        ensures value { result ≡ size_good self }
    {
        self.size != 0 && self.size % 512 == 0 && self.needed_entries() <= self.table_entries()
    }

    // A table of so many clusters is placed: not at 0, at whole clusters, inside a store of this length.
    pub fn table_good(self, length: u64, offset: u64, clusters: u32) -> bool
        ensures value { result ≡ table_good self length offset clusters }
    {
        let c = self.cluster_size();
        offset != 0 && offset % c == 0 && within(offset, clusters as u64 * c, length)
    }

    fn extent_good(self) -> bool
        ensures value { result ≡ extent_good self }
    {
        matches!(self.extent, 1..=64)
    }

    fn records_good(self, length: u64) -> bool
        ensures value { result ≡ records_good self length }
    {
        self.snapshots == 0 || self.table_good(length, self.records, 1)
    }

    fn letters_good(self) -> bool
        ensures value { result ≡ letters_good self }
    {
        !self.has_backing() || matches!(self.letters, 1..=1023)
    }

    fn name_good(self) -> bool
        ensures value { result ≡ name_good self }
    {
        !self.has_backing()
            || (self.header as u64 <= self.name
                && within(self.name, self.letters as u64, self.cluster_size()))
    }

    // What kind of image it is.
    fn judge_kind(self, length: u64) -> Result<(), Fault>
        ensures value { result ≡ kind_judged self length }
    {
        Layer::Header.demand(self.version_good(), Reason::Version, 4)?;
        Layer::Header.demand(self.bits_good(), Reason::ClusterBits, 20)?;
        Layer::Header.demand(self.length_good(length), Reason::StoreLength, length)?;
        Layer::Header.demand(self.crypt == 0, Reason::Features, 32)?;
        Layer::Header.demand(self.incompatible == 0, Reason::Features, 72)?;
        Layer::Header.demand(self.autoclear == 0, Reason::Features, 88)?;
        Layer::Header.demand(self.order == 4, Reason::HeaderForm, 96)?;
        Layer::Header.demand(self.header_good(), Reason::HeaderForm, 100)
    }

    // Its size, the places of its tables, and its backing name.
    fn judge_places(self, length: u64) -> Result<(), Fault>
        ensures value { result ≡ places_judged self length }
    {
        Layer::Header.demand(self.size_good(), Reason::GuestSize, 24)?;
        Layer::Header.demand(
            self.entries as u64 == self.needed_entries(),
            Reason::GuestSize,
            36,
        )?;
        Layer::Header.demand(self.table_good(length, self.l1, 1), Reason::TablePlace, 40)?;
        Layer::Header.demand(self.extent_good(), Reason::TablePlace, 56)?;
        Layer::Header.demand(
            self.table_good(length, self.refcounts, self.extent),
            Reason::TablePlace,
            48,
        )?;
        Layer::Header.demand(self.snapshots <= 64, Reason::TablePlace, 60)?;
        Layer::Header.demand(self.records_good(length), Reason::TablePlace, 64)?;
        Layer::Header.demand(self.letters_good(), Reason::BackingName, 16)?;
        Layer::Header.demand(self.name_good(), Reason::BackingName, 8)
    }
}

// A number of the bytes behind the first four.
fn field<T: Number>(rest: &[u8], at: usize) -> T
    requires { at + T.Number.WIDTH ≤ length rest.now }
    ensures value { result ≡ T.Number.number rest.now at }
{
    number_at(rest, at).unwrap()
}

// A number that only version 3 has, and what stands for it in version 2.
fn since_3<T: Number>(version: u32, rest: &[u8], at: usize, otherwise: T) -> T
    requires { at + T.Number.WIDTH ≤ length rest.now }
    ensures value { result ≡ (if nat_eq version 3 then T.Number.number rest.now at else otherwise) }
{
    if version == 3 {
        field(rest, at)
    } else {
        otherwise
    }
}

// The fields, from the bytes behind the first four.
fn read_fields(rest: &[u8]) -> Numbers
    requires { 508 ≤ length rest.now }
    ensures value { result ≡ fields_from 4 rest.now }
{
    let version = field(rest, 0);
    Numbers {
        version,
        name: field(rest, 4),
        letters: field(rest, 12),
        bits: field(rest, 16),
        size: field(rest, 20),
        crypt: field(rest, 28),
        entries: field(rest, 32),
        l1: field(rest, 36),
        refcounts: field(rest, 44),
        extent: field(rest, 52),
        snapshots: field(rest, 56),
        records: field(rest, 60),
        incompatible: since_3(version, rest, 68, 0),
        autoclear: since_3(version, rest, 84, 0),
        order: since_3(version, rest, 92, 4),
        header: since_3(version, rest, 96, 72),
    }
}

// The bytes behind the four that an image opens with; none if it does not, or is too short.
fn behind_magic(first: &[u8]) -> Option<&[u8]>
    ensures value { MatchOption result (opens first.now ≡ false) (λ rest. (opens first.now ≡ true) × (drop 4 first.now ≡ rest.now)) }
{
    if first.len() < 512 {
        return None;
    }
    match first {
        [0x51, 0x46, 0x49, 0xfb, rest @ ..] => Some(rest),
        _ => None,
    }
}

// Judges a header by the first bytes of a store of this length.
pub fn judge(first: &[u8], length: u64) -> Result<Numbers, Fault>
    ensures value { result ≡ header_of first.now length }
{
    let Some(rest) = behind_magic(first) else {
        return Err(Fault::new(Reason::NotQcow2, Layer::Header, 0));
    };
    let n = read_fields(rest);
    n.judge_kind(length)?;
    n.judge_places(length)?;
    Ok(n)
}

// Judges the header of a store.
pub fn judge_store<S: Store>(s: &S) -> Result<Numbers, Fault>
    ensures value { result ≡ header_in (S.Store.bytes s.now) }
{
    let mut first = [0u8; 512];
    let length = s.length();
    let Ok(()) = s.read(0, &mut first) else {
        return Err(Fault::new(Reason::NotQcow2, Layer::Header, 0));
    };
    judge(&first, length)
}
