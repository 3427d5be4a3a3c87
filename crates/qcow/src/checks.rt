// `qcow check`: whether an image's refcounts and copied flags are what its tables say.
use crate::args::{Arguments, message};
use crate::images;
use disk::ZerosDisk;
use image::Mount;
use image_check::check;
use layers::{Stop, load_alone};
use std::io;
use std::io::{BufWriter, IsTerminal, Write};
use store::Store;
use tally::{kind_of, references_of};

pub(crate) const USAGE: &str = "qcow check [--tally] FILE";

// More host clusters than this take a while.
const MANY: u64 = 1 << 20;

// A line for each host cluster: its index, its references and its kind.
fn print_tally(rt: &HostRuntime, words: &[u32]) -> io::Result<()> {
    let mut out = BufWriter::new(rt.alloc(), rt.stdout())?;
    for (i, word) in words.iter().enumerate() {
        let kind = kind_of(*word);
        let references = references_of(*word);
        writeln!(out, "{i} {references} {kind}")?;
    }
    out.flush()
}

fn print_totals(rt: &HostRuntime, totals: (u64, u64, u64, u64, u64)) -> io::Result<()> {
    let (leaked, short, mixed, repeated, flags) = totals;
    println!(rt; "leaked {leaked}: clusters with a count above their references")?;
    println!(rt; "short {short}: clusters with a count below their references")?;
    println!(rt; "mixed {mixed}: clusters that are used as two kinds")?;
    println!(rt;
        "repeated {repeated}: tables named twice, clusters reached twice from one L1 table"
    )?;
    println!(rt; "flags {flags}: live entries whose copied flag is wrong")
}

pub(crate) fn run(rt: &HostRuntime, given: Vec<String>) -> Result<(), Stop> {
    let heap = rt.alloc();
    let args = Arguments::new(heap, given, &[], &["--tally"])?;
    let paths = args.words.as_slice();
    let [path] = args.exactly::<1>(heap, USAGE)?;
    let mut m = Mount::new(load_alone(rt, path.as_str())?, ZerosDisk::new(0));
    let n = images::granted(heap, paths, m.numbers())?;
    let clusters = n.clusters_in(m.store.length());
    if clusters > MANY && rt.stderr().is_terminal() {
        eprintln!(rt; "checking {clusters} clusters")?;
    }
    let mut words = vec![in heap; 0u32; clusters as usize]?;
    let totals = images::granted(heap, paths, check(&mut m, words.as_mut_slice()))?;
    if args.switch("--tally") {
        print_tally(rt, words.as_slice())?;
    }
    print_totals(rt, totals)?;
    if !m.clean {
        rt.println("not clean")?;
        return Err(message(heap, path.as_str(), "is not clean"));
    }
    rt.println("clean")?;
    Ok(())
}
