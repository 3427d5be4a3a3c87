// Images that qemu-img made: `stdout` has what qemu-img says of them, and each disk is held to what it read from it.
#![tactic(auto)]

use disk::Disk;
use fault::Fault;
use format::Numbers;
use guest::{guest_clusters, sectors_of};
use image::Mount;
use image_check::check;
use layers::{How, Opened, Stop, open, read_front, refused};
use mapping::{copy_out, map};
use snapshot::judge_records;
use std::alloc::Global;
use std::fs;
use std::process::ExitCode;
use store::Store;

// The ids of the snapshots.
fn ids<S: Store>(heap: Global, s: &S, n: Numbers) -> Result<String, Stop> {
    let records = match judge_records(s, n) {
        Ok(records) => records,
        Err(f) => return Ok(format!(in heap; " refused {f}")?),
    };
    let mut text = String::new(heap);
    for r in records.kept() {
        let id = String::from_utf8_lossy(heap, r.id())?;
        text.push(' ')?;
        text.push_str(id.as_str())?;
    }
    if text.is_empty() {
        text.push_str(" none")?;
    }
    Ok(text)
}

// What the header says, and which snapshots there are.
fn examine<S: Store>(rt: &HostRuntime, name: &str, s: &S, n: Numbers) -> Result<(), Stop> {
    let heap = rt.alloc();
    let Numbers { version, size, .. } = n;
    let cluster = n.cluster_size();
    let front = read_front(rt, name)?;
    let backing = n.backing_name(front.shown()).unwrap_or(b"none");
    let under = String::from_utf8_lossy(heap, backing)?;
    let ids = ids(heap, s, n)?;
    println!(rt;
        "{name}: version {version}, {size} bytes, clusters of {cluster}, backing {under}, snapshots{ids}"
    )?;
    Ok(())
}

// Whether the image is clean.
fn judge_counts<S: Store, B: Disk>(
    rt: &HostRuntime,
    m: &mut Mount<S, B>,
    n: Numbers,
) -> Result<(), Stop> {
    let clusters = n.clusters_in(m.store.length());
    let mut words = vec![in rt.alloc(); 0u32; clusters as usize]?;
    match check(m, words.as_mut_slice()) {
        Ok(_) if m.clean => println!(rt; "  check: clean")?,
        Ok(_) => println!(rt; "  check: not clean")?,
        Err(f) => println!(rt; "  check: refused {f}")?,
    }
    Ok(())
}

// A sector of the live disk, or of a snapshot.
fn sector_of<S: Store, B: Disk>(
    m: &Mount<S, B>,
    id: &[u8],
    sector: u64,
    buffer: &mut [u8],
) -> Result<(), Fault> {
    if id.is_empty() {
        m.read(sector, buffer)
    } else {
        m.peek(id, sector, buffer)
    }
}

// Whether a sector is as expected, both by a read of its own and by the map.
fn is_equal<S: Store, B: Disk>(
    m: &Mount<S, B>,
    id: &[u8],
    words: &[u32],
    sector: u64,
    want: &[u8],
) -> Result<bool, Fault> {
    let mut read = [0u8; 512];
    sector_of(m, id, sector, &mut read)?;
    let mut copied = [0u8; 512];
    copy_out(m, words, sector, &mut copied)?;
    Ok(&read[0..512] == want && &copied[0..512] == want)
}

// How many sectors are.
fn equal_in<S: Store, B: Disk>(
    m: &Mount<S, B>,
    id: &[u8],
    words: &[u32],
    expected: &[u8],
) -> Result<u64, Fault> {
    let mut equal: u64 = 0;
    for (sector, want) in expected.chunks(512).enumerate() {
        if is_equal(m, id, words, sector as u64, want)? {
            equal = equal.saturating_add(1);
        }
    }
    Ok(equal)
}

// Maps the disk and compares it.
fn compare<S: Store, B: Disk>(
    m: &Mount<S, B>,
    id: &[u8],
    words: &mut [u32],
    expected: &[u8],
) -> Result<u64, Fault> {
    map(m, id, words)?;
    equal_in(m, id, words, expected)
}

// The name that a disk of the list has for the calls.
fn id_of(id: &str) -> &[u8] {
    if id == "-" { b"" } else { id.as_bytes() }
}

// The line of a disk all of whose sectors are equal.
fn say(rt: &HostRuntime, id: &str, sectors: u64) -> Result<(), Stop> {
    match id {
        "-" => println!(rt; "  live: {sectors} sectors equal")?,
        _ => println!(rt; "  snapshot {id}: {sectors} sectors equal")?,
    }
    Ok(())
}

fn differs(heap: Global, raw: &str, equal: u64, sectors: u64) -> Stop {
    Stop::said(format!(in heap;
        "{raw}: only {equal} sectors of {sectors} are as this file has them"
    ))
}

// A disk of an image, `-` for the live one, and the file with what qemu-img read from it.
fn hold(rt: &HostRuntime, name: &str, id: &str, raw: &str) -> Result<(), Stop> {
    let heap = rt.alloc();
    let Opened { top, under, paths } = open(rt, name, How::default())?;
    let mut m = Mount::new(top, under.disk());
    let n = m.numbers().map_err(|f| refused(heap, paths.as_slice(), f))?;
    if id == "-" {
        examine(rt, name, &m.store, n)?;
        judge_counts(rt, &mut m, n)?;
    }
    let expected = fs::read(rt, raw)?;
    let mut words = vec![in heap; 0u32; guest_clusters(n) as usize]?;
    let equal = compare(&m, id_of(id), words.as_mut_slice(), expected.as_slice()).map_err(
        |f| refused(heap, paths.as_slice(), f),
    )?;
    if equal != sectors_of(n) || expected.len() as u64 != n.size {
        return Err(differs(heap, raw, equal, sectors_of(n)));
    }
    say(rt, id, equal)
}

fn run(rt: &HostRuntime) -> Result<(), Stop> {
    let disks = fs::read_to_string(rt, "disks")?;
    for line in disks.as_str().lines() {
        let mut words = line.split(' ');
        let (Some(name), Some(id), Some(raw)) = (words.next(), words.next(), words.next()) else {
            return Err(Stop::said(format!(in rt.alloc();
                "disks: a line without three words: {line}"
            )));
        };
        hold(rt, name, id, raw)?;
    }
    Ok(())
}

fn main(rt: HostRuntime) -> ExitCode {
    match run(&rt) {
        Ok(()) => ExitCode::SUCCESS,
        Err(stop) => {
            let _ = eprintln!(rt; "qemu_disks: {stop}");
            ExitCode::FAILURE
        }
    }
}
