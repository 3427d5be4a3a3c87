// A snapshot's sectors, as a mount shows them.
ghost use Rattle.std.specs.Prelude.{length};
ghost use Rattle.fault.specs.Outcomes.{Gives};
ghost use Rattle.image.specs.Calls.{peek_outcome};

use crate::mount::{Mount, judge_sector};
use disk::Disk;
use fault::Fault;
use snapshot::{judge_id, table_of};
use store::Store;

impl<S: Store, B: Disk> Mount<S, B> {
    // A snapshot's sector, into a buffer of 512 bytes; a refusal leaves the buffer alone.
    pub fn peek(&self, id: &[u8], sector: u64, buffer: &mut [u8]) -> Result<(), Fault>
        ensures outcome { Gives result (peek_outcome self.now.header (S.Store.bytes self.now.store) (B.Disk.reading self.now.backing) id.now sector (length buffer.old)) buffer.old buffer.new }
    {
        let n = self.header?;
        judge_sector(n, sector, buffer.len())?;
        judge_id(id)?;
        let table = table_of(&self.store, n, id)?;
        self.show(n, table, sector, buffer)
    }
}
