// Reading files: their front with the header, or all of them.
ghost use Rattle.std.specs.Prelude.{◌≡◌};
ghost use Rattle.format.specs.Header.{filled_length};
ghost use Rattle.layers.specs.Fronts.{opens, part};

use crate::stop::Stop;
use format::filled_length;
use std::alloc::Global;
use std::fs::{File, OpenFile};
use std::io;
use std::io::Read;

// The first bytes of a file, as many as a first cluster can have, zeros behind a short file's end.
#[derive(Drop)]
pub struct Front {
    bytes: Vec<u8>,
    read: usize,
    pub length: u64,
}

// The header and the backing name lie in the first cluster, of at most 2 MiB.
const FRONT: usize = 1 << 21;

impl Front {
    // Whether the file opens as an image does.
    pub fn is_image(&self) -> bool
        ensures value { result ≡ opens self.now.bytes.items }
    {
        matches!(self.bytes.as_slice(), [0x51, 0x46, 0x49, 0xfb, ..])
    }

    // The file's length as an image, a part cluster at the end filled up.
    pub fn filled(&self) -> u64
        ensures value { result ≡ filled_length self.now.bytes.items self.now.length }
    {
        filled_length(self.bytes.as_slice(), self.length)
    }

    // What there is of the first bytes, a part cluster filled up.
    pub fn shown(&self) -> &[u8]
        ensures value { result.now ≡ part self.now.bytes.items self.now.length self.now.read }
    {
        let all = self.bytes.as_slice();
        let filled = self.filled().min(all.len() as u64) as usize;
        let end = filled.max(self.read).min(all.len());
        &all[0..end]
    }
}

pub fn read_front(rt: &HostRuntime, path: &str) -> io::Result<Front> {
    let mut file = File::open(rt, path)?;
    let length = file.metadata()?.len();
    let mut bytes = Vec::with_capacity(rt.alloc(), FRONT)?;
    let read = file.take(FRONT as u64).read_to_end(&mut bytes)?;
    bytes.resize(FRONT, 0)?;
    Ok(Front {
        bytes,
        read,
        length,
    })
}

// All bytes of a file, with room behind them for a part cluster.
pub fn read_whole(rt: &HostRuntime, path: &str) -> io::Result<Vec<u8>> {
    let mut file = File::open(rt, path)?;
    let length = file.metadata()?.len() as usize;
    let mut bytes = Vec::with_capacity(rt.alloc(), length.saturating_add(FRONT))?;
    file.read_to_end(&mut bytes)?;
    Ok(bytes)
}

// An error of the system's, with the file's name before it.
pub fn failed(heap: Global, path: &str, e: io::Error) -> Stop {
    Stop::said(format!(in heap; "{path}: {e}"))
}
