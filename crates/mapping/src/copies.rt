// Copying a guest disk out by the words of an earlier map, sector by sector.
ghost use Rattle.std.specs.Prelude.{◌≡◌, ℕ, List, length, Ok};
ghost use Rattle.fault.specs.Outcomes.{Gives};
ghost use Rattle.image.specs.Honest.{Honest};
ghost use Rattle.mapping.specs.Maps.{map_outcome};
ghost use Rattle.mapping.specs.Copies.{word_shows, copy_outcome, shown_outcome};

use disk::Disk;
use fault::Fault;
use format::Numbers;
use guest::{clear, guest_clusters, read_under};
use image::{Mount, judge_room, judge_sector};
use runs::Kind;
use store::Store;

fn read_by_word<S: Store, B: Disk>(
    s: &S,
    backing: &B,
    n: Numbers,
    word: u32,
    sector: u64,
    out: &mut [u8; 512],
) -> Result<(), Fault>
    ensures outcome { Gives result (word_shows n (S.Store.bytes s.now) (B.Disk.reading backing.now) word sector) out.old out.new }
{
    match Kind::from(word) {
        Kind::Empty => read_under(n, backing, sector, out),
        Kind::Zeros => {
            clear(out);
            Ok(())
        }
        Kind::Data(host) => {
            let first = host as u64 * n.cluster_size();
            s.read(first + sector % n.cluster_sectors() * 512, out)
        }
    }
}

// The sector by its guest cluster's word. With the words that a map of the same bytes gave, this is what read
// answers, or peek if it was a snapshot's map.
#[tactic(auto, using(crate::proofs::Readers::reader))]
pub fn copy_out<S: Store, B: Disk>(
    m: &Mount<S, B>,
    words: &[u32],
    sector: u64,
    buffer: &mut [u8],
) -> Result<(), Fault>
    ensures outcome { Gives result (copy_outcome m.now.header (S.Store.bytes m.now.store) (B.Disk.reading m.now.backing) words.now sector (length buffer.old)) buffer.old buffer.new }
    ensures reader { (id before : List ℕ) → Honest (S.Store.bytes m.now.store) m.now.header → map_outcome m.now.header (S.Store.bytes m.now.store) id before ≡ Ok words.now → copy_outcome m.now.header (S.Store.bytes m.now.store) (B.Disk.reading m.now.backing) words.now sector (length buffer.old) ≡ shown_outcome m.now.header (S.Store.bytes m.now.store) (B.Disk.reading m.now.backing) id sector (length buffer.old) }
{
    let n = m.header?;
    judge_sector(n, sector, buffer.len())?;
    judge_room(words.len(), guest_clusters(n))?;
    let cluster = sector / n.cluster_sectors();
    let out = buffer.as_mut_array().unwrap();
    read_by_word(
        &m.store,
        &m.backing,
        n,
        words[cluster as usize],
        sector,
        out,
    )
}
