// The default task: a store and a disk of each kind and a new image, with what each answered.
use create::create;
use disk::{Disk, RawDisk, RescuedDisk, ZerosDisk};
use fault::{Refusal, Verdict};
use format::Numbers;
use image::Mount;
use store::{FlatStore, SplitStore, Store, StoreCall, agree};

fn use_store<S: Store>(rt: &HostRuntime, s: &mut S) -> anyhow::Result<()> {
    let length = s.length();
    let limit = s.limit();
    println!(rt; "  {length} bytes in use, limit {limit}")?;
    println!(rt; "  grow to 12: {}", Verdict(s.grow(12)))?;
    println!(rt;
        "  replace 4 bytes from 6: {}",
        Verdict(s.replace(6, b"snap"))
    )?;
    let mut run = [0u8; 5];
    println!(rt; "  read 5 bytes from 5: {}", Verdict(s.read(5, &mut run)))?;
    println!(rt; "  they are {run:?}")?;
    println!(rt; "  read 5 bytes from 8: {}", Verdict(s.read(8, &mut run)))?;
    let last = Verdict(s.replace(u64::MAX, b"snap"));
    println!(rt; "  replace 4 bytes from 2^64 - 1: {last}")?;
    println!(rt; "  grow to 17: {}", Verdict(s.grow(17)))?;
    Ok(())
}

fn use_disk<D: Disk>(rt: &HostRuntime, d: &D, sector: u64) -> anyhow::Result<()> {
    let n = d.sectors();
    println!(rt; "  {n} sectors")?;
    let mut buffer = [0xeeu8; 512];
    let read = Verdict(d.read_sector(sector, &mut buffer));
    let first = buffer[0];
    let last = buffer[511];
    println!(rt; "  sector {sector} begins with {first} and ends with {last}")?;
    println!(rt; "  read it: {read}")?;
    let past = Verdict(d.read_sector(n, &mut buffer));
    println!(rt; "  read past the end: {past}")?;
    Ok(())
}

fn compare(rt: &HostRuntime) -> anyhow::Result<()> {
    let mut whole = [7u8; 16];
    let mut front = [7u8; 6];
    let mut back = [7u8; 10];
    let mut flat = FlatStore::new(&mut whole, 8);
    let mut split = SplitStore::new(&mut front, &mut back, 8);
    let calls = [
        StoreCall::Length,
        StoreCall::Grow { length: 13 },
        StoreCall::Replace {
            first: 4,
            new: b"before class",
        },
        StoreCall::Replace {
            first: 4,
            new: b"class",
        },
        StoreCall::Read { first: 3, count: 8 },
        StoreCall::Read { first: 9, count: 8 },
        StoreCall::Grow { length: 12 },
        StoreCall::Limit,
    ];
    let mut scratch = [0u8; 32];
    let same = agree(&mut flat, &mut split, &calls, &mut scratch);
    let n = calls.len();
    println!(rt; "a flat and a split store, {n} calls to each: equal answers: {same}")?;
    Ok(())
}

// What a mount's header says.
fn show_numbers<S: Store, B: Disk>(rt: &HostRuntime, m: &Mount<S, B>) -> anyhow::Result<()> {
    let n = match m.numbers() {
        Ok(n) => n,
        Err(f) => {
            println!(rt; "  mount: {}", Refusal(f))?;
            return Ok(());
        }
    };
    let Numbers {
        version,
        size,
        entries,
        l1,
        refcounts,
        letters,
        ..
    } = n;
    let c = n.cluster_size();
    println!(rt;
        "  version {version}, {size} guest bytes, clusters of {c}, a backing name of {letters} bytes"
    )?;
    println!(rt; "  L1 table of {entries} entries at {l1}, refcount table at {refcounts}")?;
    Ok(())
}

fn use_reads<S: Store, B: Disk>(rt: &HostRuntime, m: &Mount<S, B>) -> anyhow::Result<()> {
    let mut buffer = [0xeeu8; 512];
    let read = Verdict(m.read(1, &mut buffer));
    println!(rt; "  read sector 1, which the master shows: {read}")?;
    let first = buffer[0];
    let last = buffer[511];
    println!(rt; "  it begins with {first} and ends with {last}")?;
    let past = Verdict(m.read(128, &mut buffer));
    println!(rt; "  read sector 128: {past}")?;
    let past = Verdict(m.read_sector(128, &mut buffer));
    println!(rt; "  read it through the mount as a disk: {past}")?;
    Ok(())
}

// A new image, mounted; the same store once more; and a store that holds no image.
fn use_image(rt: &HostRuntime) -> anyhow::Result<()> {
    let mut list = [0u8; 4096];
    let mut s = FlatStore::new(&mut list, 0);
    let created = Verdict(create(&mut s, 3, 9, 65536, b"master.raw"));
    println!(rt; "  create version 3, 512 byte clusters, 64 KiB: {created}")?;
    let again = Verdict(create(&mut s, 3, 9, 65536, b""));
    println!(rt; "  create in the same store: {again}")?;
    let master = [5u8; 700];
    let m = Mount::new(s, RawDisk::new(&master));
    show_numbers(rt, &m)?;
    use_reads(rt, &m)?;
    let mut other = [0u8; 1024];
    let m = Mount::new(FlatStore::new(&mut other, 1024), ZerosDisk::new(0));
    if let Err(f) = m.numbers() {
        println!(rt; "  mount a store of zeros: {}", Refusal(f))?;
    }
    Ok(())
}

pub(crate) fn run(rt: &HostRuntime) -> anyhow::Result<()> {
    let mut whole = [9u8; 16];
    let mut flat = FlatStore::new(&mut whole, 8);
    rt.println("flat store")?;
    use_store(rt, &mut flat)?;
    let mut front = [9u8; 7];
    let mut back = [9u8; 9];
    let mut split = SplitStore::new(&mut front, &mut back, 8);
    rt.println("split store")?;
    use_store(rt, &mut split)?;
    compare(rt)?;
    rt.println("zeros disk")?;
    use_disk(rt, &ZerosDisk::new(4), 3)?;
    let content = [5u8; 700];
    rt.println("raw disk")?;
    use_disk(rt, &RawDisk::new(&content), 1)?;
    rt.println("rescued disk")?;
    use_disk(rt, &RescuedDisk::new(&content, &[1]), 1)?;
    rt.println("image")?;
    use_image(rt)
}
