// The rescued disk: a raw disk some of whose sectors could not be read when it was copied.
ghost use Rattle.std.specs.Prelude.{◌≡◌};
ghost use Rattle.disk.specs.Disks.{rescued_reading, spoilt};

use crate::{Disk, RawDisk, judge_within};
use fault::{Fault, Layer, Reason};

#[derive(Clone, Copy)]
pub struct RescuedDisk<'a> {
    raw: RawDisk<'a>,
    spoiled: &'a [u64],
}

impl<'a> RescuedDisk<'a> {
    // The sectors of the list, but those with a number among the spoiled ones refuse.
    pub fn new(list: &'a [u8], spoiled: &'a [u64]) -> RescuedDisk<'a>
        ensures reading { rescued_reading result.raw.list.now result.spoiled.now ≡ rescued_reading list.now spoiled.now }
    {
        RescuedDisk {
            raw: RawDisk::new(list),
            spoiled,
        }
    }
}

fn is_spoilt(spoiled: &[u64], sector: u64) -> bool
    ensures value { result ≡ spoilt spoiled.now sector }
{
    spoiled.contains(&sector)
}

impl Disk for RescuedDisk<'_> {
    ghost use Rattle.disk.specs.Sounds.{rescued_sound};

    ghost reading = { λ d. rescued_reading d.raw.list.now d.spoiled.now };

    ghost sound = { rescued_sound };

    fn sectors(&self) -> u64 {
        self.raw.sectors()
    }

    fn read_sector(&self, sector: u64, out: &mut [u8; 512]) -> Result<(), Fault> {
        judge_within(sector, self.sectors())?;
        Layer::Disk.demand(!is_spoilt(self.spoiled, sector), Reason::Spoiled, sector)?;
        self.raw.read_sector(sector, out)
    }
}
