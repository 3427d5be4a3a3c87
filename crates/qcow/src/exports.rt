// `qcow export`: the whole guest disk of an image or of a snapshot as a raw file.
use crate::args::{Arguments, message};
use crate::progress::Progress;
use crate::{files, images};
use disk::Disk;
use fault::Fault;
use guest::sectors_of;
use image::Mount;
use layers::{Opened, Stop, failed, open};
use mapping::copy_out;
use std::fs::{File, OpenFile};
use std::io::{Seek, SeekFrom, Write};
use std::{fs, io};
use store::Store;

pub(crate) const USAGE: &str = "qcow export [-l ID] [--backing FILE] [--spoiled LIST] FILE OUT";

// A file is written in pieces of so many sectors.
const PIECE: u64 = 4096;

// Where the sectors come from, and where they go.
#[derive(Clone, Copy)]
struct Work<'a> {
    rt: &'a HostRuntime,
    paths: &'a [String],
    words: &'a [u32],
    part: &'a str,
    sectors: u64,
}

// Fills a piece with the sectors from `first` on.
fn fill<S: Store, B: Disk>(
    m: &Mount<S, B>,
    words: &[u32],
    first: u64,
    piece: &mut [u8],
) -> Result<(), Fault> {
    for (i, buffer) in piece.chunks_mut(512).enumerate() {
        copy_out(m, words, first.saturating_add(i as u64), buffer)?;
    }
    Ok(())
}

fn is_zero(piece: &[u8]) -> bool {
    // `all` would end at the first other byte, and takes ten times as long on zeros
    piece.iter().fold(0, |all, b| all | *b) == 0
}

// Writes a piece; zeros are left as a hole.
fn put(file: &mut File, piece: &[u8]) -> io::Result<()> {
    if is_zero(piece) {
        file.seek(SeekFrom::Current(piece.len().min(1 << 30) as i64))?;
        return Ok(());
    }
    file.write_all(piece)
}

// Copies piece by piece; only the map's judgement of the tables went before.
fn copy_all<S: Store, B: Disk>(work: &Work, m: &Mount<S, B>, file: &mut File) -> Result<(), Stop> {
    let heap = work.rt.alloc();
    let mut piece = vec![in heap; 0u8; PIECE as usize * 512]?;
    let mut progress = Progress::new(work.rt, work.sectors);
    for first in (0..work.sectors).step_by(PIECE as usize) {
        let count = work.sectors.saturating_sub(first).min(PIECE);
        let end = (count as usize * 512).min(piece.len());
        let bytes = &mut piece.as_mut_slice()[0..end];
        images::granted(heap, work.paths, fill(m, work.words, first, bytes))?;
        put(file, bytes).map_err(|e| failed(heap, work.part, e))?;
        progress.show(work.rt, first.saturating_add(count));
    }
    progress.end(work.rt);
    Ok(())
}

// Gives the file its length, holes at its end among it, and flushes it to the disk.
fn finish(work: &Work, file: &File) -> Result<(), Stop> {
    let heap = work.rt.alloc();
    file.set_len(work.sectors.saturating_mul(512))
        .map_err(|e| failed(heap, work.part, e))?;
    file.sync_all().map_err(|e| failed(heap, work.part, e))
}

fn write_new<S: Store, B: Disk>(work: &Work, m: &Mount<S, B>, file: &mut File) -> Result<(), Stop> {
    copy_all(work, m, file)?;
    finish(work, file)
}

pub(crate) fn run(rt: &HostRuntime, given: Vec<String>) -> Result<(), Stop> {
    let heap = rt.alloc();
    let args = Arguments::new(heap, given, images::VALUED, &[])?;
    let [path, out] = args.exactly::<2>(heap, USAGE)?;
    files::judge_new(rt, out.as_str())?;
    let Opened { top, under, paths } = open(rt, path.as_str(), images::how(&args))?;
    let m = Mount::new(top, under.disk());
    let n = images::granted(heap, paths.as_slice(), m.numbers())?;
    let words = images::words_of(heap, paths.as_slice(), &m, args.option("-l"))?;
    let part = files::part_of(rt, out.as_str())?;
    let work = Work {
        rt,
        paths: paths.as_slice(),
        words: words.as_slice(),
        part: part.as_str(),
        sectors: sectors_of(n),
    };
    let mut file = files::create_part(rt, part.as_str())?;
    match write_new(&work, &m, &mut file) {
        Ok(()) => files::name_it(rt, part.as_str(), out.as_str()),
        Err(stop) => {
            let _ = fs::remove_file(rt, part.as_str());
            Err(stop)
        }
    }
}
