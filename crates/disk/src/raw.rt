// The raw disk: a byte list, a part sector at its end filled with zeros.
ghost use Rattle.std.specs.Prelude.{◌≡◌, ◌*◌, ◌^◌, ◌≤◌, length};
ghost use Rattle.byte_lists.specs.Runs.{EachOctet};
ghost use Rattle.disk.specs.Disks.{raw_reading, sectors_of, sector as sector_of};

use crate::{Disk, judge_within};
use fault::Fault;

#[derive(Clone, Copy)]
pub struct RawDisk<'a> {
    list: &'a [u8],
    ghost octets: { EachOctet list.now },
    ghost most: { sectors_of (length list.now) ≤ 2 ^ 55 },
}

impl<'a> RawDisk<'a> {
    pub fn new(list: &'a [u8]) -> RawDisk<'a>
        ensures list { result.list.now ≡ list.now }
    {
        RawDisk { list }
    }
}

// The sector of a list that has it.
fn copy_sector(list: &[u8], sector: u64, out: &mut [u8; 512])
    requires { sector * 512 ≤ length list.now }
    ensures after { out.new ≡ sector_of list.now sector }
{
    let at = sector as usize * 512;
    let n = (list.len() - at).min(512);
    out[0..n].copy_from_slice(&list[at..at + n]);
    out[n..512].fill(0);
}

impl Disk for RawDisk<'_> {
    ghost use Rattle.disk.specs.Sounds.{raw_sound};

    ghost reading = { λ d. raw_reading d.list.now };

    ghost sound = { raw_sound };

    fn sectors(&self) -> u64 {
        (self.list.len() as u64).div_ceil(512)
    }

    fn read_sector(&self, sector: u64, out: &mut [u8; 512]) -> Result<(), Fault> {
        judge_within(sector, self.sectors())?;
        copy_sector(self.list, sector, out);
        Ok(())
    }
}
