// Calls that make a store or ask one.
ghost use Rattle.std.specs.Prelude.{◌≡◌, IfOk};
ghost use Rattle.text.specs.Calls as ask;
ghost use Rattle.script.specs.Sessions.{state, changed, Meets};

use crate::outcome::{Change, Outcome, Unmet, done, unchanged};
use crate::session::{Saved, Session};
use answer::Answer;
use lent::{BLANK, Lists, Space, bytes_of};
use std::alloc::AllocError;
use store::Store;

impl Session {
    // A new store; lists for which there is no memory are refused here, and not at the first call to the store. What
    // passes their end is cut off, since each call copies the content.
    #[tactic(auto, using(crate::proofs::Fronts::cut_once))]
    pub(crate) fn set_store(&self, space: Space, content: Vec<u8>) -> Result<Outcome, AllocError>
        ensures answer { IfOk result (λ o. o.answer ≡ Answer.Done) }
        ensures change { IfOk result (λ o. changed o.change (state self.now) ≡ changed (Change.Store (record { space = space; content = content })) (state self.now)) }
    {
        let mut content = content;
        content.truncate(space.limit() as usize);
        let _lists = Lists::new(self.heap, space, content.as_slice())?;
        Ok(done(Change::Store(Saved { space, content })))
    }

    pub(crate) fn store_length(&self) -> Result<Outcome, Unmet>
        ensures stepped { Meets (state self.now) ask.store_length result }
    {
        let mut lists = self.lists()?;
        Ok(unchanged(Answer::Number(lists.store().length())))
    }

    pub(crate) fn store_limit(&self) -> Result<Outcome, Unmet>
        ensures stepped { Meets (state self.now) ask.store_limit result }
    {
        let mut lists = self.lists()?;
        Ok(unchanged(Answer::Number(lists.store().limit())))
    }

    pub(crate) fn store_read(&self, first: u64, count: u64) -> Result<Outcome, Unmet>
        ensures stepped { Meets (state self.now) (ask.store_read first count) result }
    {
        let mut lists = self.lists()?;
        let s = lists.store();
        // a longer run than the store's whole is refused just as one byte more than the whole is
        let n = count.min(s.length().saturating_add(1));
        let mut buffer = vec![in self.heap; BLANK; n as usize]?;
        s.read(first, buffer.as_mut_slice())?;
        Ok(unchanged(Answer::Bytes(buffer)))
    }

    pub(crate) fn store_replace(&self, first: u64, new: &[u8]) -> Result<Outcome, Unmet>
        ensures stepped { Meets (state self.now) (ask.store_replace first new.now) result }
    {
        let mut lists = self.lists()?;
        let mut s = lists.store();
        s.replace(first, new)?;
        Ok(done(Change::Content(bytes_of(self.heap, &s)?)))
    }

    pub(crate) fn store_grow(&self, length: u64) -> Result<Outcome, Unmet>
        ensures stepped { Meets (state self.now) (ask.store_grow length) result }
    {
        let mut lists = self.lists()?;
        let mut s = lists.store();
        s.grow(length)?;
        Ok(done(Change::Content(bytes_of(self.heap, &s)?)))
    }
}
