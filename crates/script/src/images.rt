// Calls that make an image, mount one, or ask a mount.
ghost use Rattle.std.specs.Prelude.{◌≡◌, ◌==◌, IfOk, length as length_of};
ghost use Rattle.lent.specs.Lent.{any_bytes, any_limit, base_reading};
ghost use Rattle.lent.specs.Lists.{lists_bytes, lists_limit};
ghost use Rattle.text.specs.Calls as ask;
ghost use Rattle.script.specs.States.{held as held_of};
ghost use Rattle.script.specs.Sessions.{disk_reading, state, Meets};

use crate::outcome::{Change, Outcome, Unmet, done, unchanged};
use crate::session::{Mounted, Session};
use answer::Answer;
use create::create;
use disk::ZerosDisk;
use image::Mount;
use lent::{AnyStore, BLANK, BaseDisk, Lists, bytes_of};
use std::alloc::AllocError;

// A number past 32 bits is no good version or cluster bits, whichever it is.
fn held(n: u64) -> u32
    ensures value { result ≡ held_of n }
{
    u32::try_from(n).unwrap_or(u32::MAX)
}

impl Session {
    // A buffer for a sector; any other length than 512 is refused, however large.
    fn buffer(&self, length: u64) -> Result<Vec<u8>, AllocError>
        ensures whole { IfOk result (λ v. (length_of v.items == 512) ≡ (length == 512)) }
    {
        let n = length.min(4096);
        vec![in self.heap; BLANK; n as usize]
    }

    // The mount that the session holds, over the current store and disk, which are lent for one call.
    pub(crate) fn over<'a, 'b>(
        &'a self,
        mounted: Mounted,
        lists: &'b mut Lists,
    ) -> Mount<AnyStore<'b>, BaseDisk<'a>>
        ensures bytes { any_bytes result.store ≡ lists_bytes lists.old }
        ensures limit { any_limit result.store ≡ lists_limit lists.old }
        ensures backing { base_reading result.backing ≡ disk_reading self.now.disk }
        ensures header { result.header ≡ mounted.header }
        ensures clean { result.clean ≡ mounted.clean }
    {
        Mount {
            store: lists.store(),
            backing: self.disk.lend(),
            header: mounted.header,
            clean: mounted.clean,
        }
    }

    pub(crate) fn create(
        &self,
        version: u64,
        bits: u64,
        size: u64,
        name: &[u8],
    ) -> Result<Outcome, Unmet>
        ensures stepped { Meets (state self.now) (ask.create version bits size name.now) result }
    {
        let mut lists = self.lists()?;
        let mut s = lists.store();
        create(&mut s, held(version), held(bits), size, name)?;
        Ok(done(Change::Content(bytes_of(self.heap, &s)?)))
    }

    pub(crate) fn mount(&self) -> Result<Outcome, Unmet>
        ensures stepped { Meets (state self.now) ask.mount result }
    {
        let mut lists = self.lists()?;
        // the backing disk plays no part in judging the header
        let header = Mount::new(lists.store(), ZerosDisk::new(0)).numbers();
        Ok(done(Change::Mount(Mounted {
            header,
            clean: false,
        })))
    }

    pub(crate) fn read(&self, sector: u64, length: u64) -> Result<Outcome, Unmet>
        ensures stepped { Meets (state self.now) (ask.read sector length) result }
    {
        let mounted = self.mounted()?;
        let mut lists = self.lists()?;
        let mount = self.over(mounted, &mut lists);
        let mut buffer = self.buffer(length)?;
        mount.read(sector, buffer.as_mut_slice())?;
        Ok(unchanged(Answer::Bytes(buffer)))
    }

    pub(crate) fn peek(&self, id: &[u8], sector: u64, length: u64) -> Result<Outcome, Unmet>
        ensures stepped { Meets (state self.now) (ask.peek id.now sector length) result }
    {
        let mounted = self.mounted()?;
        let mut lists = self.lists()?;
        let mount = self.over(mounted, &mut lists);
        let mut buffer = self.buffer(length)?;
        mount.peek(id, sector, buffer.as_mut_slice())?;
        Ok(unchanged(Answer::Bytes(buffer)))
    }
}
