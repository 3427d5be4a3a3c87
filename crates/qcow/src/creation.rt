// `qcow create`: a new image in a new file.
use crate::args::{Arguments, message};
use crate::files;
use create::create;
use fault::Refusal;
use layers::Stop;
use std::alloc::Global;
use store::FlatStore;

pub(crate) const USAGE: &str =
    "qcow create [--compat 0.10|1.1] [--cluster-bits N] [--backing NAME] FILE SIZE";

const VALUED: &[&str] = &["--compat", "--cluster-bits", "--backing"];

const UNITS: [(char, u64); 4] = [
    ('K', 1 << 10),
    ('M', 1 << 20),
    ('G', 1 << 30),
    ('T', 1 << 40),
];

// What is asked for, as the words have it.
#[derive(Clone, Copy)]
struct Wish<'a> {
    version: u32,
    bits: u32,
    size: u64,
    name: &'a str,
}

fn version_of(heap: Global, compat: Option<&str>) -> Result<u32, Stop> {
    match compat {
        None | Some("1.1") => Ok(3),
        Some("0.10") => Ok(2),
        Some(text) => Err(message(heap, "--compat is 0.10 or 1.1, not", text)),
    }
}

fn bits_of(heap: Global, bits: Option<&str>) -> Result<u32, Stop> {
    let Some(text) = bits else {
        return Ok(16);
    };
    text.parse().map_err(|_| message(heap, "--cluster-bits takes a number, not", text))
}

// The factor of a size's last letter, and what stands before it.
fn unit(text: &str) -> (&str, u64) {
    UNITS
        .into_iter()
        .find_map(|(letter, factor)| Some((text.strip_suffix(letter)?, factor)))
        .unwrap_or((text, 1))
}

// Bytes, or with K, M, G or T.
fn size_of(heap: Global, text: &str) -> Result<u64, Stop> {
    let (digits, factor) = unit(text);
    let size = digits
        .parse::<u64>()
        .ok()
        .and_then(|n| n.checked_mul(factor));
    size.ok_or_else(|| message(
        heap,
        "SIZE is a number of bytes, or with K, M, G or T, not",
        text,
    ))
}

// The image in memory; it has four clusters.
fn make(rt: &HostRuntime, path: &str, wish: &Wish) -> Result<Vec<u8>, Stop> {
    let heap = rt.alloc();
    let limit = 4usize << wish.bits.min(21);
    let mut list = vec![in heap; 0u8; limit]?;
    let mut s = FlatStore::new(list.as_mut_slice(), 0);
    create(
        &mut s,
        wish.version,
        wish.bits,
        wish.size,
        wish.name.as_bytes(),
    )
    .map_err(|f| Stop::said(format!(in heap; "{path}: {}", Refusal(f))))?;
    Ok(list)
}

pub(crate) fn run(rt: &HostRuntime, given: Vec<String>) -> Result<(), Stop> {
    let heap = rt.alloc();
    let args = Arguments::new(heap, given, VALUED, &[])?;
    let [path, size] = args.exactly::<2>(heap, USAGE)?;
    let wish = Wish {
        version: version_of(heap, args.option("--compat"))?,
        bits: bits_of(heap, args.option("--cluster-bits"))?,
        size: size_of(heap, size.as_str())?,
        name: args.option("--backing").unwrap_or(""),
    };
    files::judge_new(rt, path.as_str())?;
    let image = make(rt, path.as_str(), &wish)?;
    files::write_whole(rt, path.as_str(), image.as_slice())
}
