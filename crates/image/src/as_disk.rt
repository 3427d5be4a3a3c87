// The mount as a disk: the live reading, so that a mount is a backing disk of another mount, to any depth.
ghost use Rattle.std.specs.Prelude.{◌≡◌};
ghost use Rattle.guest.specs.Shown.{mount_reading};
ghost use Rattle.guest.proofs.Sounding.{sound_mount};

use crate::mount::Mount;
use disk::{Disk, judge_within};
use fault::Fault;
use guest::{mount_sectors, read_guest};
use store::Store;

// A mount with a bad header has all the sectors that a disk can have, and each gives the header's fault.
impl<S: Store, B: Disk> Disk for Mount<S, B> {
    ghost reading = { λ m. mount_reading m.header (S.Store.bytes m.store) (B.Disk.reading m.backing) };

    ghost sound = { λ m. sound_mount m.header (S.Store.bytes m.store) (B.Disk.reading m.backing) (S.Store.octets m.store) (B.Disk.sound m.backing) };

    fn sectors(&self) -> u64 {
        mount_sectors(self.header)
    }

    fn read_sector(&self, sector: u64, out: &mut [u8; 512]) -> Result<(), Fault> {
        judge_within(sector, self.sectors())?;
        let n = self.header?;
        read_guest(&self.store, &self.backing, n, n.l1, sector, out)
    }
}
