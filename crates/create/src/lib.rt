// Creating an image: four clusters, for every version, cluster size, guest size and backing name that fits.
#![tactic(auto)]

ghost use Rattle.std.specs.Prelude.{◌≡◌, ℕ, ◌+◌, ◌*◌, ◌^◌, ◌≤◌, length, Ok, OnOk};
ghost use Rattle.fault.specs.Outcomes.{Gives};
ghost use Rattle.format.specs.Clusters.{cluster};
ghost use Rattle.format.specs.Header.{header as header_in};
ghost use Rattle.create.specs.Laid.{laid, laid_field};
ghost use Rattle.create.specs.Create.{wanted as wanted_of, header_length, name_place, name_fits, create_judged, shared_fields, late_fields, header_fields, table_fields, created, create_outcome};

use byte_lists::Field;
use fault::{Fault, Layer, Reason};
use format::Numbers;
use store::Store;

// Writes a number in its place; one that passes the store's end is left out.
fn lay_field<S: Store>(s: &mut S, f: Field)
    ensures bytes { S.Store.bytes s.new ≡ laid_field f (S.Store.bytes s.old) }
    ensures limit { S.Store.limit s.new ≡ S.Store.limit s.old }
{
    let bytes = f.value.to_be_bytes();
    let low = 8 - (f.wide as usize).min(8);
    let _ = s.replace(f.at, &bytes[low..8]);
}

fn lay<S: Store>(s: &mut S, fields: &[Field])
    ensures bytes { S.Store.bytes s.new ≡ laid fields.now (S.Store.bytes s.old) }
    ensures limit { S.Store.limit s.new ≡ S.Store.limit s.old }
{
    for f in fields {
        lay_field(s, *f);
    }
}

fn shared_list(n: Numbers) -> [Field; 13]
    ensures value { result ≡ shared_fields n }
{
    [
        Field::new(0, 4, 0x5146_49fb),
        Field::new(4, 4, n.version as u64),
        Field::new(8, 8, n.name),
        Field::new(16, 4, n.letters as u64),
        Field::new(20, 4, n.bits as u64),
        Field::new(24, 8, n.size),
        Field::new(32, 4, n.crypt as u64),
        Field::new(36, 4, n.entries as u64),
        Field::new(40, 8, n.l1),
        Field::new(48, 8, n.refcounts),
        Field::new(56, 4, n.extent as u64),
        Field::new(60, 4, n.snapshots as u64),
        Field::new(64, 8, n.records),
    ]
}

fn late_list(n: Numbers) -> [Field; 4]
    ensures value { result ≡ late_fields n }
{
    [
        Field::new(72, 8, n.incompatible),
        Field::new(88, 8, n.autoclear),
        Field::new(96, 4, n.order as u64),
        Field::new(100, 4, n.header as u64),
    ]
}

// The table names one block, and that counts the four clusters.
fn table_list(c: u64) -> [Field; 5]
    requires { c ≤ 2 ^ 21 }
    ensures value { result ≡ table_fields c }
{
    [
        Field::new(c, 8, 2 * c),
        Field::new(2 * c, 2, 1),
        Field::new(2 * c + 2, 2, 1),
        Field::new(2 * c + 4, 2, 1),
        Field::new(2 * c + 6, 2, 1),
    ]
}

fn name_fits(n: Numbers) -> bool
    ensures value { result ≡ name_fits n }
{
    n.letters <= 1023 && n.header as u64 + 8 + n.letters as u64 <= n.cluster_size()
}

fn header_length(version: u32) -> u32
    ensures value { result ≡ header_length version }
{
    if version == 3 { 104 } else { 72 }
}

fn name_place(version: u32, letters: u32) -> u64
    ensures value { result ≡ name_place version letters }
{
    if letters == 0 {
        0
    } else {
        header_length(version) as u64 + 8
    }
}

// The numbers of the image that is asked for. What 32 bits cannot hold is cut short, and then refused.
fn wanted(version: u32, bits: u32, size: u64, letters: usize) -> Numbers
    ensures judged { (len limit : ℕ) → create_judged result len limit ≡ create_judged (wanted_of version bits size letters) len limit }
    ensures granted { (len limit : ℕ) → create_judged result len limit ≡ Ok tt → result ≡ wanted_of version bits size letters }
{
    let letters = u32::try_from(letters).unwrap_or(u32::MAX);
    let mut n = Numbers {
        version,
        name: name_place(version, letters),
        letters,
        bits,
        size,
        crypt: 0,
        entries: 0,
        l1: 0,
        refcounts: 0,
        extent: 1,
        snapshots: 0,
        records: 0,
        incompatible: 0,
        autoclear: 0,
        order: 4,
        header: header_length(version),
    };
    n.entries = u32::try_from(n.needed_entries()).unwrap_or(u32::MAX);
    n.refcounts = n.cluster_size();
    n.l1 = 3 * n.cluster_size();
    n
}

// Every refusal.
fn judge_wish(n: Numbers, length: u64, limit: u64) -> Result<(), Fault>
    ensures value { result ≡ create_judged n length limit }
{
    Layer::Call.demand(n.version_good(), Reason::Version, 4)?;
    Layer::Call.demand(n.bits_good(), Reason::ClusterBits, 20)?;
    Layer::Call.demand(n.size_good(), Reason::GuestSize, 24)?;
    Layer::Call.demand(name_fits(n), Reason::NameTooLong, 0)?;
    Layer::Call.demand(length == 0, Reason::NotEmpty, length)?;
    let c = n.cluster_size();
    Layer::Store.demand(4 * c <= limit, Reason::NoRoom, limit / c)
}

fn lay_late<S: Store>(s: &mut S, n: Numbers)
    ensures bytes { S.Store.bytes s.new ≡ laid (header_fields n) (S.Store.bytes s.old) }
    ensures limit { S.Store.limit s.new ≡ S.Store.limit s.old }
{
    if n.version == 3 {
        lay(s, &late_list(n));
    }
}

// The four clusters, in an empty store with room for them.
fn fill<S: Store>(s: &mut S, n: Numbers, name: &[u8])
    requires s_len { length (S.Store.bytes s.old) ≡ 0 }
    requires n_bound { 4 * cluster n ≤ S.Store.limit s.old }
    requires name_bound { n.name + length name.now ≤ 4 * cluster n }
    ensures bytes { S.Store.bytes s.new ≡ created n name.now }
    ensures limit { S.Store.limit s.new ≡ S.Store.limit s.old }
{
    let c = n.cluster_size();
    let _ = s.grow(4 * c);
    let _ = s.replace(n.name, name);
    lay(s, &shared_list(n));
    lay_late(s, n);
    lay(s, &table_list(c));
}

// Makes an empty image in an empty store: version 2 or 3, a guest size in bytes, a backing name or none.
// What it made is judged good, with exactly the numbers that were asked for.
pub fn create<S: Store>(
    s: &mut S,
    version: u32,
    bits: u32,
    size: u64,
    name: &[u8],
) -> Result<(), Fault>
    ensures outcome { Gives result (create_outcome (wanted_of version bits size (length name.now)) name.now (length (S.Store.bytes s.old)) (S.Store.limit s.old)) (S.Store.bytes s.old) (S.Store.bytes s.new) }
    ensures limit { S.Store.limit s.new ≡ S.Store.limit s.old }
    ensures judged { OnOk result (header_in (S.Store.bytes s.new) ≡ Ok (wanted_of version bits size (length name.now))) }
{
    let n = wanted(version, bits, size, name.len());
    judge_wish(n, s.length(), s.limit())?;
    fill(s, n, name);
    Ok(())
}
