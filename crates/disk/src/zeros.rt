// The zeros disk.
ghost use Rattle.std.specs.Prelude.{◌≡◌};
ghost use Rattle.disk.specs.Disks.{zeros_reading};

use crate::{Disk, judge_within};
use fault::Fault;

#[derive(Clone, Copy)]
pub struct ZerosDisk {
    count: u64,
}

impl ZerosDisk {
    // So many sectors of zeros, held at 2^55.
    pub fn new(count: u64) -> ZerosDisk
        ensures reading { zeros_reading result.count ≡ zeros_reading count }
    {
        ZerosDisk { count }
    }
}

impl Disk for ZerosDisk {
    ghost use Rattle.disk.specs.Sounds.{zeros_sound};

    ghost reading = { λ d. zeros_reading d.count };

    ghost sound = { zeros_sound };

    fn sectors(&self) -> u64 {
        self.count.min(1 << 55)
    }

    fn read_sector(&self, sector: u64, out: &mut [u8; 512]) -> Result<(), Fault> {
        judge_within(sector, self.sectors())?;
        out.fill(0);
        Ok(())
    }
}
