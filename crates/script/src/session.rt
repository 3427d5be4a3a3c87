// A session: the store, the mount and the disk that the lines speak of.
ghost use Rattle.std.specs.Prelude.{◌≡◌, None, codes};
ghost use Rattle.script.specs.States.{empty};
ghost use Rattle.script.specs.Sessions.{lists_kept, state, Found};

use crate::outcome::Unmet;
use fault::Fault;
use format::Numbers;
use lent::{Lists, Space};
use std::alloc::Global;

// What a mount has of its own: its judgement of the header, and its clean mark.
#[derive(Clone, Copy)]
pub(crate) struct Mounted {
    pub(crate) header: Result<Numbers, Fault>,
    pub(crate) clean: bool,
}

// A disk that the session owns.
#[derive(Drop)]
pub(crate) enum Base {
    Zeros(u64),
    Raw(Vec<u8>),
    Rescued(Vec<u8>, Vec<u64>),
}

// What a store means, and no store: its lists are made for each call and lent to it. Content past their end is cut off.
#[derive(Drop)]
pub(crate) struct Saved {
    pub(crate) space: Space,
    pub(crate) content: Vec<u8>,
}

#[derive(Drop)]
pub struct Session {
    pub(crate) heap: Global,
    pub(crate) store: Option<Saved>,
    pub(crate) mounted: Option<Mounted>,
    pub(crate) disk: Base,
}

impl Session {
    // No store, no mount, and a disk of no sectors.
    pub fn new(heap: Global) -> Session
        ensures empty { state result ≡ empty }
        ensures bare { result.store ≡ None }
    {
        Session {
            heap,
            store: None,
            mounted: None,
            disk: Base::Zeros(0),
        }
    }

    // Lists for the store, with its bytes in use.
    pub(crate) fn lists(&self) -> Result<Lists, Unmet>
        ensures kept { Found result lists_kept (state self.now).store (codes "no store") }
    {
        let store = self.store.as_ref().ok_or(Unmet::Mistake("no store"))?;
        Ok(Lists::new(self.heap, store.space, store.content.as_slice())?)
    }

    pub(crate) fn mounted(&self) -> Result<Mounted, Unmet>
        ensures value { Found result (λ m. m) (state self.now).mounted (codes "no mount") }
    {
        self.mounted.ok_or(Unmet::Mistake("no mount"))
    }
}
