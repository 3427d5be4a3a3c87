// What the tasks that read an image have in common: its options, the words of its map, and how a refusal is said.
use crate::args::Arguments;
use disk::Disk;
use fault::Fault;
use guest::guest_clusters;
use image::Mount;
use layers::{How, Stop, refused};
use mapping::map;
use snapshot::judge_id;
use std::alloc::Global;
use store::Store;

pub(crate) const VALUED: &[&str] = &["-l", "--backing", "--spoiled"];

pub(crate) fn how(args: &Arguments) -> How<'_> {
    How {
        backing: args.option("--backing"),
        spoiled: args.option("--spoiled"),
    }
}

// An answer, or the stop that a refusal is.
pub(crate) fn granted<T>(heap: Global, paths: &[String], r: Result<T, Fault>) -> Result<T, Stop> {
    r.map_err(|f| refused(heap, paths, f))
}

// The id of the snapshot that is meant; the empty one is the live disk's, and no snapshot's.
fn judged(id: Option<&str>) -> Result<&[u8], Fault> {
    let Some(text) = id else {
        return Ok(b"");
    };
    judge_id(text.as_bytes())?;
    Ok(text.as_bytes())
}

// The map of the live disk, or of a snapshot.
pub(crate) fn words_of<S: Store, B: Disk>(
    heap: Global,
    paths: &[String],
    m: &Mount<S, B>,
    id: Option<&str>,
) -> Result<Vec<u32>, Stop> {
    let n = granted(heap, paths, m.numbers())?;
    let id = granted(heap, paths, judged(id))?;
    let mut words = vec![in heap; 0u32; guest_clusters(n) as usize]?;
    granted(heap, paths, map(m, id, words.as_mut_slice()))?;
    Ok(words)
}
