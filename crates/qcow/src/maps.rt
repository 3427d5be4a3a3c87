// `qcow map`: where the guest clusters of an image lie, as runs or as the map's words.
use crate::args::{Arguments, message};
use crate::images;
use disk::ZerosDisk;
use image::Mount;
use layers::{Stop, load_alone};
use runs::{Kind, Run, run_at};
use std::io;
use std::io::{BufWriter, Write};

pub(crate) const USAGE: &str = "qcow map [-l ID] [--words] FILE";

fn print_run<W: Write>(out: &mut W, run: Run, cluster: u64) -> io::Result<()> {
    let Run {
        start,
        length,
        kind,
    } = run;
    match kind {
        Kind::Empty => writeln!(out, "{start} {length} empty"),
        Kind::Zeros => writeln!(out, "{start} {length} zeros"),
        Kind::Data(host) => {
            let offset = (host as u64).saturating_mul(cluster);
            writeln!(out, "{start} {length} data {offset}")
        }
    }
}

fn print_runs(rt: &HostRuntime, words: &[u32], cluster: u64) -> io::Result<()> {
    let mut out = BufWriter::new(rt.alloc(), rt.stdout())?;
    let mut at = 0;
    while let Some(run) = run_at(words, at) {
        print_run(&mut out, run, cluster)?;
        at = run.start + run.length;
    }
    out.flush()
}

fn print_words(rt: &HostRuntime, words: &[u32]) -> io::Result<()> {
    let mut out = BufWriter::new(rt.alloc(), rt.stdout())?;
    for word in words {
        writeln!(out, "{word:08x}")?;
    }
    out.flush()
}

pub(crate) fn run(rt: &HostRuntime, given: Vec<String>) -> Result<(), Stop> {
    let heap = rt.alloc();
    let args = Arguments::new(heap, given, &["-l"], &["--words"])?;
    let paths = args.words.as_slice();
    let [path] = args.exactly::<1>(heap, USAGE)?;
    // the tables alone say where clusters lie, so no backing file is asked for
    let m = Mount::new(load_alone(rt, path.as_str())?, ZerosDisk::new(0));
    let n = images::granted(heap, paths, m.numbers())?;
    let words = images::words_of(heap, paths, &m, args.option("-l"))?;
    if args.switch("--words") {
        print_words(rt, words.as_slice())?;
    } else {
        print_runs(rt, words.as_slice(), n.cluster_size())?;
    }
    Ok(())
}
