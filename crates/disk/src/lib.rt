// Disks: what an image is laid over. A disk means a number of sectors and an answer for each.
#![tactic(auto)]

ghost use Rattle.std.specs.Prelude.{◌≡◌, nat_lt};
ghost use Rattle.fault.specs.declared.Layer.TheVariants.{Disk as DiskLayer};
ghost use Rattle.fault.specs.declared.Reason.TheVariants.{PastDisk};
ghost use Rattle.fault.specs.Faults.{fault};
ghost use Rattle.fault.specs.Outcomes.{demanded, Gives};
ghost use Rattle.disk.specs.Readings.{Reading, Sound};

use fault::{Fault, Layer, Reason};

mod raw;
mod rescued;
mod zeros;

pub use raw::RawDisk;
pub use rescued::RescuedDisk;
pub use zeros::ZerosDisk;

// The bytes of a sector.
pub const SECTOR: usize = 512;

// A disk refuses what lies past its end.
pub fn judge_within(sector: u64, sectors: u64) -> Result<(), Fault>
    ensures value { result ≡ demanded (nat_lt sector sectors) (fault PastDisk DiskLayer sector) }
{
    Layer::Disk.demand(sector < sectors, Reason::PastDisk, sector)
}

pub trait Disk {
    // the number of sectors with all their answers
    ghost reading: { Self → Reading };

    fn sectors(&self) -> u64
        ensures value { result ≡ (reading self.now).sectors };

    // Reads one sector; a refusal leaves `out` alone.
    fn read_sector(&self, sector: u64, out: &mut [u8; 512]) -> Result<(), Fault>
        ensures outcome { Gives result ((reading self.now).answer sector) out.old out.new };

    // a disk has at most 2^55 sectors, 512 bytes or a fault for each, a refusal past the end
    ghost sound: { (d : Self) → Sound (reading d) };
}
