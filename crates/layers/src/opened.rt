// An image in memory over the chain of files that it lies on.
ghost use Rattle.std.specs.Prelude.{◌≡◌, IfOk, string_bytes};
ghost use Rattle.disk.specs.Disks.{rescued_reading};
ghost use Rattle.layers.specs.Refusals.{Says, refusal};

use crate::links::{Link, links_of};
use crate::reads::{failed, read_whole};
use crate::stop::Stop;
use chain::{Chain, Layer};
use disk::RescuedDisk;
use fault::{Fault, Refusal};
use format::{filled_length, judge_store};
use listing::{BadList, spoiled_in};
use memory::MemoryStore;
use std::alloc::{AllocError, Global};
use std::fs;

// What is said besides the image's path.
#[derive(Clone, Copy, Default)]
pub struct How<'a> {
    // stands for the backing name in the top image's header
    pub backing: Option<&'a str>,
    // a list of sectors that the raw file at the bottom has lost
    pub spoiled: Option<&'a str>,
}

// What an image lies on.
#[derive(Drop)]
pub struct Under {
    layers: Vec<Layer<MemoryStore>>,
    base: Vec<u8>,
    spoiled: Vec<u64>,
}

impl Under {
    // The chain as a disk. A raw file without a list is a rescued disk without a spoiled sector; where there is no raw
    // file no image asks for one.
    pub fn disk(&self) -> Chain<'_, MemoryStore, RescuedDisk<'_>>
        ensures layers { result.layers.now ≡ self.now.layers.items }
        ensures base { rescued_reading result.base.raw.list.now result.base.spoiled.now ≡ rescued_reading self.now.base.items self.now.spoiled.items }
    {
        Chain {
            layers: self.layers.as_slice(),
            base: RescuedDisk::new(self.base.as_slice(), self.spoiled.as_slice()),
        }
    }
}

#[derive(Drop)]
pub struct Opened {
    pub top: MemoryStore,
    pub under: Under,
    // the files, the top one first
    pub paths: Vec<String>,
}

// The error of a call that was refused: it names the image, and for a fault of a deeper file that file as well.
pub fn refused(heap: Global, paths: &[String], f: Fault) -> Stop
    ensures value { Says result (refusal paths.now f) }
{
    Stop::said(words_of(heap, paths, f))
}

fn words_of(heap: Global, paths: &[String], f: Fault) -> Result<String, AllocError>
    ensures value { IfOk result (λ s. string_bytes s ≡ refusal paths.now f) }
{
    let refusal = Refusal(f);
    let [top, rest @ ..] = paths else {
        return format!(in heap; "{refusal}");
    };
    if f.depth == 0 || rest.is_empty() {
        return format!(in heap; "{top}: {refusal}");
    }
    let below = (f.depth as usize).min(rest.len());
    let at = &rest[below - 1];
    format!(in heap; "{top}: {refusal}, in {at}")
}

fn load(rt: &HostRuntime, path: &str) -> Result<Vec<u8>, Stop> {
    read_whole(rt, path).map_err(|e| failed(rt.alloc(), path, e))
}

// An image without what it lies on, its last cluster filled up.
pub fn load_alone(rt: &HostRuntime, path: &str) -> Result<MemoryStore, Stop> {
    let mut bytes = load(rt, path)?;
    let filled = filled_length(bytes.as_slice(), bytes.len() as u64);
    bytes.resize(filled as usize, 0)?;
    Ok(MemoryStore::new(bytes))
}

// The spoiled sectors that a file lists.
fn load_spoiled(rt: &HostRuntime, path: &str) -> Result<Vec<u64>, Stop> {
    let heap = rt.alloc();
    let text = fs::read_to_string(rt, path).map_err(|e| failed(heap, path, e))?;
    spoiled_in(heap, text.as_str()).map_err(|e| match e {
        BadList::OutOfMemory => Stop::Memory(AllocError),
        BadList::Line(_) => Stop::said(format!(in heap; "{path}: {e}")),
    })
}

// The list for the raw file at the bottom; a list where there is no such file is a mistake.
fn spoiled_for(rt: &HostRuntime, links: &[Link], list: Option<&str>) -> Result<Vec<u64>, Stop> {
    let heap = rt.alloc();
    let Some(path) = list else {
        return Ok(Vec::new(heap));
    };
    match links.last() {
        Some(Link { image: false, .. }) => load_spoiled(rt, path),
        _ => Err(Stop::said(format!(in heap;
            "{path}: no raw backing file whose spoiled sectors these could be"
        ))),
    }
}

// Reads the files below the top one.
fn load_under(rt: &HostRuntime, links: &[Link], spoiled: Vec<u64>) -> Result<Under, Stop> {
    let heap = rt.alloc();
    let mut layers = Vec::new(heap);
    let mut base = Vec::new(heap);
    for link in links {
        if link.image {
            let store = load_alone(rt, link.path.as_str())?;
            let header = judge_store(&store);
            layers.push(Layer { store, header })?;
        } else {
            base = load(rt, link.path.as_str())?;
        }
    }
    Ok(Under {
        layers,
        base,
        spoiled,
    })
}

// Reads an image and all that it lies on. Only files can fail here: a bad header is the answer of each call.
pub fn open(rt: &HostRuntime, path: &str, how: How) -> Result<Opened, Stop> {
    let links = links_of(rt, path, how.backing)?;
    let spoiled = spoiled_for(rt, links.as_slice(), how.spoiled)?;
    let [first, rest @ ..] = links.as_slice() else {
        return Err(Stop::Memory(AllocError));
    };
    let top = load_alone(rt, first.path.as_str())?;
    let under = load_under(rt, rest, spoiled)?;
    let paths = links.into_iter().map(|link| link.path).collect(rt.alloc())?;
    Ok(Opened { top, under, paths })
}
