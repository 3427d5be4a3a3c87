// `qcow info`: what a file's header says, or the fault that it has.
use crate::args::{Arguments, message};
use fault::{Fault, Refusal};
use format::{Numbers, judge};
use layers::{Stop, failed, read_front};
use listing::shown;
use std::alloc::{AllocError, Global};

pub(crate) const USAGE: &str = "qcow info FILE";

fn backing(heap: Global, n: &Numbers, front: &[u8]) -> Result<String, AllocError> {
    match n.backing_name(front) {
        None => String::from_str(heap, "none"),
        Some(name) => shown(heap, name),
    }
}

fn print(rt: &HostRuntime, n: &Numbers, front: &[u8]) -> Result<(), Stop> {
    let Numbers {
        version,
        size,
        entries,
        l1,
        refcounts,
        extent,
        snapshots,
        ..
    } = *n;
    let cluster = n.cluster_size();
    let sectors = n.sectors();
    let name = backing(rt.alloc(), n, front)?;
    println!(rt; "version: {version}")?;
    println!(rt; "size: {size} bytes, {sectors} sectors")?;
    println!(rt; "cluster size: {cluster} bytes")?;
    println!(rt; "backing name: {name}")?;
    println!(rt; "L1 table: {entries} entries at {l1}")?;
    println!(rt; "refcount table: {extent} clusters at {refcounts}")?;
    println!(rt; "snapshots: {snapshots}")?;
    Ok(())
}

fn refuse(rt: &HostRuntime, path: &str, f: Fault) -> Result<(), Stop> {
    println!(rt; "{}", Refusal(f))?;
    Err(message(rt.alloc(), path, "has no good header"))
}

pub(crate) fn run(rt: &HostRuntime, given: Vec<String>) -> Result<(), Stop> {
    let heap = rt.alloc();
    let args = Arguments::new(heap, given, &[], &[])?;
    let [path] = args.exactly::<1>(heap, USAGE)?;
    let front = read_front(rt, path.as_str()).map_err(|e| failed(heap, path.as_str(), e))?;
    match judge(front.shown(), front.filled()) {
        Ok(numbers) => print(rt, &numbers, front.shown()),
        Err(f) => refuse(rt, path.as_str(), f),
    }
}
