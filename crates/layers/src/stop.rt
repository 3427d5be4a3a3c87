// Why a task stopped: words for people, with the file's name.
ghost use Rattle.std.specs.Prelude.{◌≡◌};
ghost use Rattle.layers.specs.Refusals.{said as said_of};

use std::alloc::AllocError;
use std::io;
use thiserror::Error;

#[derive(Debug, Drop, Error)]
pub enum Stop {
    #[error("{0}")]
    Said(String),
    #[error("out of memory")]
    Memory(#[from(alloc)] AllocError),
    #[error(transparent)]
    System(#[from] io::Error),
    #[error(transparent)]
    Other(#[from] anyhow::Error),
}

impl Stop {
    // The words, or that there was no memory for them.
    pub fn said(words: Result<String, AllocError>) -> Stop
        ensures value { result ≡ said_of words }
    {
        match words {
            Ok(text) => Stop::Said(text),
            Err(e) => Stop::Memory(e),
        }
    }
}
