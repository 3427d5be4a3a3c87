// A disk that holds no image: zeros, raw or rescued.
ghost use Rattle.lent.specs.Lent.{base_reading, base_sound};

use disk::{Disk, RawDisk, RescuedDisk, ZerosDisk};
use fault::Fault;

#[derive(Clone, Copy)]
pub enum BaseDisk<'a> {
    Zeros(ZerosDisk),
    Raw(RawDisk<'a>),
    Rescued(RescuedDisk<'a>),
}

impl Disk for BaseDisk<'_> {
    ghost reading = { base_reading };

    ghost sound = { base_sound };

    fn sectors(&self) -> u64 {
        match self {
            BaseDisk::Zeros(d) => d.sectors(),
            BaseDisk::Raw(d) => d.sectors(),
            BaseDisk::Rescued(d) => d.sectors(),
        }
    }

    fn read_sector(&self, sector: u64, out: &mut [u8; 512]) -> Result<(), Fault> {
        match self {
            BaseDisk::Zeros(d) => d.read_sector(sector, out),
            BaseDisk::Raw(d) => d.read_sector(sector, out),
            BaseDisk::Rescued(d) => d.read_sector(sector, out),
        }
    }
}
