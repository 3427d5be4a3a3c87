// Calls that make a disk or ask one.
ghost use Rattle.std.specs.Prelude.{◌≡◌};
ghost use Rattle.lent.specs.Lent.{base_reading};
ghost use Rattle.text.specs.Calls as ask;
ghost use Rattle.script.specs.Sessions.{state, disk_reading, Meets, Stepped};

use crate::outcome::{Outcome, Unmet, unchanged};
use crate::session::{Base, Session};
use answer::Answer;
use disk::{Disk, RawDisk, RescuedDisk, ZerosDisk};
use lent::{BLANK, BaseDisk};

impl Base {
    // The disk, lent.
    pub(crate) fn lend(&self) -> BaseDisk<'_>
        ensures reading { base_reading result ≡ disk_reading self.now }
    {
        match self {
            Base::Zeros(n) => BaseDisk::Zeros(ZerosDisk::new(*n)),
            Base::Raw(bytes) => BaseDisk::Raw(RawDisk::new(bytes.as_slice())),
            Base::Rescued(bytes, spoiled) => {
                BaseDisk::Rescued(RescuedDisk::new(bytes.as_slice(), spoiled.as_slice()))
            }
        }
    }
}

impl Session {
    pub(crate) fn disk_sectors(&self) -> Outcome
        ensures stepped { Stepped (state self.now) ask.disk_sectors result }
    {
        unchanged(Answer::Number(self.disk.lend().sectors()))
    }

    pub(crate) fn disk_read(&self, sector: u64) -> Result<Outcome, Unmet>
        ensures stepped { Meets (state self.now) (ask.disk_read sector) result }
    {
        let mut buffer = [BLANK; 512];
        self.disk.lend().read_sector(sector, &mut buffer)?;
        let buffer = Vec::from_slice(self.heap, &buffer)?;
        Ok(unchanged(Answer::Bytes(buffer)))
    }
}
