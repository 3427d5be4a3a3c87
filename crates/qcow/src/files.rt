// Files of images, written whole or not at all.
use layers::{Stop, failed};
use std::alloc::AllocError;
use std::fs::{File, OpenFile};
use std::io::Write;
use std::{fs, process};

// Refuses a file that exists, and leaves it as it is.
pub(crate) fn judge_new(rt: &HostRuntime, path: &str) -> Result<(), Stop> {
    let taken = fs::exists(rt, path).map_err(|e| failed(rt.alloc(), path, e))?;
    if taken {
        return Err(Stop::said(format!(in rt.alloc();
            "{path}: exists already, and is left as it is"
        )));
    }
    Ok(())
}

// The name under which a file is written.
pub(crate) fn part_of(rt: &HostRuntime, path: &str) -> Result<String, AllocError> {
    let id = process::id(rt.process());
    format!(in rt.alloc(); "{path}.part-{id}")
}

// Gives a written file its name, or removes it.
pub(crate) fn name_it(rt: &HostRuntime, part: &str, path: &str) -> Result<(), Stop> {
    fs::rename(rt, part, path).map_err(|e| {
        let _ = fs::remove_file(rt, part);
        failed(rt.alloc(), path, e)
    })
}

// A new file under that name; one that is there already is somebody else's and stays.
pub(crate) fn create_part(rt: &HostRuntime, part: &str) -> Result<File, Stop> {
    File::create_new(rt, part).map_err(|e| failed(rt.alloc(), part, e))
}

// Writes under another name in the same folder, flushes to the disk and renames, so that a crash leaves no file or a whole one.
pub(crate) fn write_whole(rt: &HostRuntime, path: &str, bytes: &[u8]) -> Result<(), Stop> {
    let part = part_of(rt, path)?;
    let mut file = create_part(rt, part.as_str())?;
    match write_part(&mut file, bytes) {
        Ok(()) => name_it(rt, part.as_str(), path),
        Err(e) => {
            let _ = fs::remove_file(rt, part.as_str());
            Err(failed(rt.alloc(), part.as_str(), e))
        }
    }
}

fn write_part(file: &mut File, bytes: &[u8]) -> std::io::Result<()> {
    file.write_all(bytes)?;
    file.sync_all()
}
