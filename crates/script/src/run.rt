// What each call does, from the call to its outcome.
ghost use Rattle.std.specs.Prelude.{IfOk};
ghost use Rattle.text.specs.Calls.{meant};
ghost use Rattle.script.specs.Sessions.{state, Meets, Stepped};

use crate::outcome::{Change, Outcome, Unmet, done, unchanged};
use crate::session::{Base, Session};
use answer::Answer;
use lent::Space;
use std::alloc::AllocError;
use text::Call;

impl Session {
    // The outcome of a call that has something to speak of and is not refused.
    fn met(&self, call: Call) -> Result<Outcome, Unmet>
        ensures stepped { Meets (state self.now) (meant call) result }
    {
        match call {
            Call::StoreFlat { limit, content } => Ok(self.set_store(Space::Flat(limit), content)?),
            Call::StoreSplit {
                first,
                second,
                content,
            } => Ok(self.set_store(Space::Split(first, second), content)?),
            Call::StoreLength => self.store_length(),
            Call::StoreLimit => self.store_limit(),
            Call::StoreRead { first, count } => self.store_read(first, count),
            Call::StoreReplace { first, new } => self.store_replace(first, new.as_slice()),
            Call::StoreGrow { length } => self.store_grow(length),
            Call::DiskZeros { sectors } => Ok(done(Change::Disk(Base::Zeros(sectors)))),
            Call::DiskRaw { content } => Ok(done(Change::Disk(Base::Raw(content)))),
            Call::DiskRescued { content, spoiled } => Ok(done(Change::Disk(Base::Rescued(
                content, spoiled,
            )))),
            Call::DiskSectors => Ok(self.disk_sectors()),
            Call::DiskRead { sector } => self.disk_read(sector),
            Call::Create {
                version,
                bits,
                size,
                name,
            } => self.create(version, bits, size, name.as_slice()),
            Call::Mount => self.mount(),
            Call::Read { sector, length } => self.read(sector, length),
            Call::Peek { id, sector, length } => self.peek(id.as_slice(), sector, length),
            Call::Map { id, words } => self.map(id.as_slice(), words),
            Call::Check { words } => self.check(words),
            Call::Mistake(words) => Err(Unmet::Mistake(words)),
        }
    }

    // A mistake and a refusal are outcomes too, which change nothing.
    pub(crate) fn run(&self, call: Call) -> Result<Outcome, AllocError>
        ensures stepped { IfOk result (Stepped (state self.now) (meant call)) }
    {
        match self.met(call) {
            Ok(outcome) => Ok(outcome),
            Err(Unmet::Mistake(words)) => Ok(unchanged(Answer::Mistake(words))),
            Err(Unmet::Refused(fault)) => Ok(unchanged(Answer::Refused(fault))),
            Err(Unmet::OutOfMemory(e)) => Err(e),
        }
    }
}
