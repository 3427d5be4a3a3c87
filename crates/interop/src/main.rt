// Images that qemu-img made, as we find them; `stdout` has what qemu-img says of the same files.
#![tactic(auto)]

use format::{Numbers, filled_length, judge};
use snapshot::judge_record;
use std::fs;
use store::FlatStore;

// The id of each snapshot, from record to record.
fn list(rt: &HostRuntime, n: Numbers, image: &mut [u8]) -> anyhow::Result<()> {
    let used = image.len();
    let s = FlatStore::new(image, used);
    let mut at: u64 = 0;
    for _ in 0..n.records_kept() {
        match judge_record(&s, n, at) {
            Ok(record) => {
                let text = String::from_utf8_lossy(rt.alloc(), record.id())?;
                println!(rt; "  snapshot {text}")?;
                at = at.saturating_add(record.head.size());
            }
            Err(f) => println!(rt; "  refused {f}")?,
        }
    }
    Ok(())
}

fn examine(rt: &HostRuntime, name: &str) -> anyhow::Result<()> {
    let mut file = fs::read(rt, name)?;
    let whole = filled_length(file.as_slice(), file.len() as u64);
    file.resize(whole as usize, 0)?;
    let image = file.as_slice();
    match judge(image, image.len() as u64) {
        Ok(n) => {
            let Numbers {
                version,
                size,
                snapshots,
                ..
            } = n;
            let cluster = n.cluster_size();
            let backing = n.backing_name(image).unwrap_or(b"none");
            let under = String::from_utf8_lossy(rt.alloc(), backing)?;
            println!(rt;
                "{name}: version {version}, {size} bytes, clusters of {cluster}, backing {under}, {snapshots} snapshots"
            )?;
            list(rt, n, file.as_mut_slice())
        }
        Err(f) => {
            println!(rt; "{name}: refused {f}")?;
            Ok(())
        }
    }
}

fn run(rt: &HostRuntime) -> anyhow::Result<()> {
    let names = fs::read_to_string(rt, "names")?;
    for name in names.as_str().lines() {
        examine(rt, name)?;
    }
    Ok(())
}

fn main(rt: HostRuntime) -> anyhow::Result<()> {
    run(&rt)
}
