// `qcow read`: a sector of the live disk or of a snapshot, as it is or in hexadecimal.
use crate::args::{Arguments, message};
use crate::images;
use image::Mount;
use layers::{Opened, Stop, open};
use listing::hex_line;
use std::alloc::Global;
use std::io::Write;
use store::Store;

pub(crate) const USAGE: &str =
    "qcow read [-l ID] [--hex] [--backing FILE] [--spoiled LIST] FILE SECTOR";

fn sector_of(heap: Global, text: &str) -> Result<u64, Stop> {
    text.parse()
        .map_err(|_| message(heap, "SECTOR is a number, not", text))
}

fn print_hex(rt: &HostRuntime, sector: u64, buffer: &[u8]) -> Result<(), Stop> {
    let first = sector.saturating_mul(512);
    for (i, bytes) in buffer.chunks(16).enumerate() {
        let at = first.saturating_add((i as u64).saturating_mul(16));
        let line = hex_line(rt.alloc(), at, bytes)?;
        rt.println(line.as_str())?;
    }
    Ok(())
}

pub(crate) fn run(rt: &HostRuntime, given: Vec<String>) -> Result<(), Stop> {
    let heap = rt.alloc();
    let args = Arguments::new(heap, given, images::VALUED, &["--hex"])?;
    let [path, sector] = args.exactly::<2>(heap, USAGE)?;
    let sector = sector_of(heap, sector.as_str())?;
    let Opened { top, under, paths } = open(rt, path.as_str(), images::how(&args))?;
    let m = Mount::new(top, under.disk());
    let mut buffer = [0u8; 512];
    let answer = match args.option("-l") {
        None => m.read(sector, &mut buffer),
        Some(id) => m.peek(id.as_bytes(), sector, &mut buffer),
    };
    images::granted(heap, paths.as_slice(), answer)?;
    if args.switch("--hex") {
        return print_hex(rt, sector, &buffer);
    }
    rt.stdout().write_all(&buffer)?;
    Ok(())
}
