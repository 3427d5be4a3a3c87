// Peek, map, copying out by a map, and check: what each answers of a new image.
#![tactic(auto)]

use create::create;
use disk::{Disk, RawDisk};
use fault::{Refusal, Verdict};
use image::Mount;
use image_check::check;
use mapping::{copy_out, map};
use runs::{Kind, Run, run_at};
use store::{FlatStore, Store};

fn use_peek<S: Store, B: Disk>(rt: &HostRuntime, m: &Mount<S, B>) -> anyhow::Result<()> {
    let mut buffer = [0xeeu8; 512];
    let peeked = Verdict(m.peek(b"7", 1, &mut buffer));
    println!(rt; "  peek at sector 1 of a snapshot that is not there: {peeked}")?;
    Ok(())
}

// The map of a new image of 128 clusters, and a sector by it.
fn use_map<S: Store, B: Disk>(rt: &HostRuntime, m: &Mount<S, B>) -> anyhow::Result<()> {
    let mut words = [0xeeee_eeeeu32; 128];
    let mapped = Verdict(map(m, b"", &mut words));
    println!(rt; "  map the live disk: {mapped}")?;
    if let Some(
        Run {
            length,
            kind: Kind::Empty,
            ..
        },
    ) = run_at(&words, 0)
    {
        println!(rt; "  it begins with {length} empty clusters")?;
    }
    let mut copied = [0xeeu8; 512];
    let by_map = Verdict(copy_out(m, &words, 1, &mut copied));
    println!(rt; "  copy sector 1 out by the map: {by_map}")?;
    let mut buffer = [0u8; 512];
    let read = Verdict(m.read(1, &mut buffer));
    println!(rt; "  read it: {read}")?;
    let same = copied == buffer;
    println!(rt; "  both gave the same bytes: {same}")?;
    Ok(())
}

// Every count and flag of the image, held against its tables.
fn use_check<S: Store, B: Disk>(rt: &HostRuntime, m: &mut Mount<S, B>) -> anyhow::Result<()> {
    let mut words = [0u32; 8];
    let (leaked, short, mixed, repeated, flags) = match check(m, &mut words) {
        Ok(totals) => totals,
        Err(f) => {
            println!(rt; "  check: {}", Refusal(f))?;
            return Ok(());
        }
    };
    let clean = m.clean;
    println!(rt;
        "  checked: {leaked} leaked, {short} short, {mixed} mixed, {repeated} repeated, {flags} wrong flags; clean: {clean}"
    )?;
    Ok(())
}

fn run(rt: &HostRuntime) -> anyhow::Result<()> {
    rt.println("image")?;
    let mut list = [0u8; 4096];
    let mut s = FlatStore::new(&mut list, 0);
    let created = Verdict(create(&mut s, 3, 9, 65536, b"master.raw"));
    println!(rt; "  create version 3, 512 byte clusters, 64 KiB: {created}")?;
    let master = [5u8; 700];
    let mut m = Mount::new(s, RawDisk::new(&master));
    use_peek(rt, &m)?;
    use_map(rt, &m)?;
    use_check(rt, &mut m)
}

fn main(rt: HostRuntime) -> anyhow::Result<()> {
    run(&rt)
}
