// Lines: from a line of text to its record line.
ghost use Rattle.std.specs.Prelude.{◌≡◌, take, IfOk, IfNone, string_bytes};
ghost use Rattle.lent.specs.Lists.{space_limit};
ghost use Rattle.answer.specs.Records.{told, record_line};
ghost use Rattle.script.specs.States.{in_use};
ghost use Rattle.script.specs.Sessions.{state, changed, Spoken};

use crate::outcome::{Change, Outcome};
use crate::session::Session;
use answer::{Answer, record};
use lent::Space;
use std::alloc::AllocError;
use text::call_of;

// The bytes in use of a store with this content; no list has more bytes than 64 bits count.
#[tactic(auto, using(crate::proofs::Fronts::take_held))]
fn in_use(space: Space, content: &[u8]) -> &[u8]
    ensures value { result.now ≡ take (space_limit space) content.now }
{
    &content[..content.len().min(space.limit() as usize)]
}

impl Session {
    // The record of an answer, for the session after a change that is still to come.
    fn record_after(&self, answer: &Answer, change: &Change) -> Result<String, AllocError>
        ensures value { IfOk result (λ s. string_bytes s ≡ record_line (told answer.now) (in_use (changed change.now (state self.now)).store)) }
    {
        let content = match (change, &self.store) {
            (Change::Store(new), _) => in_use(new.space, new.content.as_slice()),
            (Change::Content(new), Some(old)) => in_use(old.space, new.as_slice()),
            (_, Some(old)) => in_use(old.space, old.content.as_slice()),
            (_, None) => &[],
        };
        record(self.heap, answer, content)
    }

    // Nothing here can fail, so a session changes only with its record made.
    fn apply(&mut self, change: Change)
        ensures after { state self.new ≡ changed change (state self.old) }
    {
        match change {
            Change::Nothing => {}
            Change::Content(content) => {
                if let Some(store) = &mut self.store {
                    store.content = content;
                }
            }
            Change::Store(store) => {
                self.store = Some(store);
                self.mounted = None;
            }
            Change::Mount(mounted) => self.mounted = Some(mounted),
            Change::Disk(disk) => self.disk = disk,
        }
    }

    // The record line of a call; none for a line without one. Without memory for it, nothing has happened.
    #[tactic(auto, unfolding(crate::specs::States::spoken))]
    pub fn line(&mut self, text: &str) -> Result<Option<String>, AllocError>
        ensures spoken { Spoken (state self.old) text.now result (state self.new) }
        ensures skipped { IfOk result (λ o. IfNone o (self.new ≡ self.old)) }
    {
        let Some(call) = call_of(self.heap, text.as_bytes())? else {
            return Ok(None);
        };
        let Outcome { answer, change } = self.run(call)?;
        let record = self.record_after(&answer, &change)?;
        self.apply(change);
        Ok(Some(record))
    }
}
