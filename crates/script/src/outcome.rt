// What a call answered and what it changes, before anything is changed.
ghost use Rattle.std.specs.Prelude.{◌≡◌};
ghost use Rattle.script.specs.declared.outcome.Unmet.TheVariants.{Refused, OutOfMemory};

use crate::session::{Base, Mounted, Saved};
use answer::Answer;
use fault::Fault;
use std::alloc::AllocError;

#[derive(Drop)]
pub(crate) enum Change {
    Nothing,
    // the store's bytes
    Content(Vec<u8>),
    // a new store, not mounted
    Store(Saved),
    Mount(Mounted),
    Disk(Base),
}

#[derive(Drop)]
pub(crate) struct Outcome {
    pub(crate) answer: Answer,
    pub(crate) change: Change,
}

// Why a call gave no outcome.
#[derive(Drop)]
pub(crate) enum Unmet {
    // it has nothing to speak of, as these words say
    Mistake(&'static str),
    Refused(Fault),
    OutOfMemory(AllocError),
}

impl From<Fault> for Unmet {
    ghost from_gives = { λ f u. u ≡ Refused f };

    fn from(f: Fault) -> Unmet {
        Unmet::Refused(f)
    }
}

impl From<AllocError> for Unmet {
    ghost from_gives = { λ e u. u ≡ OutOfMemory e };

    fn from(e: AllocError) -> Unmet {
        Unmet::OutOfMemory(e)
    }
}

// An answer that changes nothing.
pub(crate) fn unchanged(answer: Answer) -> Outcome
    ensures answer { result.answer ≡ answer }
    ensures change { result.change ≡ Change.Nothing }
{
    Outcome {
        answer,
        change: Change::Nothing,
    }
}

// A call that was done, and what it changes.
pub(crate) fn done(change: Change) -> Outcome
    ensures answer { result.answer ≡ Answer.Done }
    ensures change { result.change ≡ change }
{
    Outcome {
        answer: Answer::Done,
        change,
    }
}
