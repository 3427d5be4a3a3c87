// A mount: a store, a backing disk, and the judgement of the store's header, made once.
ghost use Rattle.std.specs.Prelude.{◌≡◌, false, length};
ghost use Rattle.fault.specs.Outcomes.{Gives};
ghost use Rattle.guest.specs.Shown.{shows};
ghost use Rattle.image.specs.Honest.{Honest};
ghost use Rattle.image.specs.Calls.{sector_judged, room_judged, read_outcome};

use disk::Disk;
use fault::{Fault, Layer, Reason};
use format::{Numbers, judge_store};
use guest::{read_guest, sectors_of};
use store::Store;

#[derive(Drop)]
pub struct Mount<S, B> {
    pub store: S,
    pub backing: B,
    // what judging the header gave: a bad header's fault is every call's answer
    pub header: Result<Numbers, Fault>,
    // whether the last accepted check found nothing wrong
    pub clean: bool,
}

// A buffer of 512 bytes, and a sector of the guest.
pub fn judge_sector(n: Numbers, sector: u64, room: usize) -> Result<(), Fault>
    ensures value { result ≡ sector_judged n sector room }
{
    let fits = room == 512 && sector < sectors_of(n);
    Layer::Call.demand(fits, Reason::Sectors, sector)
}

// A list with room for as many words as a call needs.
pub fn judge_room(room: usize, needed: u64) -> Result<(), Fault>
    ensures value { result ≡ room_judged room needed }
{
    Layer::Call.demand(needed <= room as u64, Reason::ListTooShort, needed)
}

impl<S: Store, B: Disk> Mount<S, B> {
    // Mounting never refuses. A new mount has not been checked.
    pub fn new(store: S, backing: B) -> Mount<S, B>
        ensures store { result.store ≡ store }
        ensures backing { result.backing ≡ backing }
        ensures honest { Honest (S.Store.bytes store) result.header }
        ensures clean { result.clean ≡ false }
    {
        let header = judge_store(&store);
        Mount {
            store,
            backing,
            header,
            clean: false,
        }
    }

    // The header's numbers, or its fault.
    pub fn numbers(&self) -> Result<Numbers, Fault>
        ensures value { result ≡ self.now.header }
    {
        self.header
    }

    // The live sector, into a buffer of 512 bytes; a refusal leaves the buffer alone.
    pub fn read(&self, sector: u64, buffer: &mut [u8]) -> Result<(), Fault>
        ensures outcome { Gives result (read_outcome self.now.header (S.Store.bytes self.now.store) (B.Disk.reading self.now.backing) sector (length buffer.old)) buffer.old buffer.new }
    {
        let n = self.header?;
        judge_sector(n, sector, buffer.len())?;
        self.show(n, n.l1, sector, buffer)
    }

    // The sector under the L1 table at `table`, into a buffer that was judged.
    pub(crate) fn show(
        &self,
        n: Numbers,
        table: u64,
        sector: u64,
        buffer: &mut [u8],
    ) -> Result<(), Fault>
        requires { length buffer.old ≡ 512 }
        ensures outcome { Gives result (shows n (S.Store.bytes self.now.store) (B.Disk.reading self.now.backing) table sector) buffer.old buffer.new }
    {
        let out = buffer.as_mut_array().unwrap();
        read_guest(&self.store, &self.backing, n, table, sector, out)
    }
}
