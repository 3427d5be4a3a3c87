// The layers of a chain, the top one first, read one after another.
ghost use Rattle.std.specs.Prelude.{◌≡◌, not, ◌&&◌, is_none, nat_lt};
ghost use Rattle.fault.specs.Outcomes.{Gives};
ghost use Rattle.format.specs.Header.{has_backing};
ghost use Rattle.chain.specs.Chains.{chain_of};

use disk::{Disk, ZerosDisk, judge_within};
use fault::Fault;
use format::{Entry, Numbers};
use guest::{entry_of, mount_sectors, read_entry};
use store::Store;

// An image of the chain: its store, and what judging its header gave.
#[derive(Drop)]
pub struct Layer<S> {
    pub store: S,
    pub header: Result<Numbers, Fault>,
}

pub(crate) fn sectors_in<S: Store, B: Disk>(layers: &[Layer<S>], base: &B) -> u64
    ensures value { result ≡ (chain_of (λ l. l.header) (λ l. S.Store.bytes l.store) layers.now (B.Disk.reading base.now)).sectors }
{
    match layers {
        [] => base.sectors(),
        [top, ..] => mount_sectors(top.header),
    }
}

// Whether the disk below, of so many sectors, shows through an entry.
fn goes_under(n: Numbers, e: Entry, sector: u64, below: u64) -> bool
    ensures value { result ≡ (not e.zero && (is_none e.offset && (has_backing n && nat_lt sector below))) }
{
    !e.zero && e.offset.is_none() && n.has_backing() && sector < below
}

// A sector of the top layer, or of the first one below that has it, a fault one deeper for each layer passed.
pub(crate) fn read_layers<S: Store, B: Disk>(
    layers: &[Layer<S>],
    base: &B,
    sector: u64,
    out: &mut [u8; 512],
) -> Result<(), Fault>
    ensures outcome { Gives result ((chain_of (λ l. l.header) (λ l. S.Store.bytes l.store) layers.now (B.Disk.reading base.now)).answer sector) out.old out.new }
{
    let [top, rest @ ..] = layers else {
        return base.read_sector(sector, out);
    };
    judge_within(sector, mount_sectors(top.header))?;
    let n = top.header?;
    let e = entry_of(&top.store, n, n.l1, sector / n.cluster_sectors())?;
    if !goes_under(n, e, sector, sectors_in(rest, base)) {
        return read_entry(&top.store, &ZerosDisk::new(0), n, e, sector, out);
    }
    read_layers(rest, base, sector, out).map_err(Fault::deeper)
}
