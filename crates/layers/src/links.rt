// The files of a chain, found by their headers before any is read whole.
use crate::reads::{Front, failed, read_front};
use crate::stop::Stop;
use format::judge;
use listing::joined;
use std::alloc::Global;
use std::io;
use std::path::Path;

// More files than this in a chain are taken for a mistake.
pub const LONGEST: usize = 256;

#[derive(Drop)]
pub struct Link {
    pub path: String,
    // an image, and not a raw file
    pub image: bool,
}

fn has(links: &[Link], path: &str) -> bool {
    links
        .iter()
        .any(|link| Path::new(link.path.as_str()) == Path::new(path))
}

// An error that names the file, and the image that asked for it.
fn unread(heap: Global, links: &[Link], path: &str, e: io::Error) -> Stop {
    let Some(image) = links.last() else {
        return failed(heap, path, e);
    };
    let asker = image.path.as_str();
    Stop::said(format!(in heap; "{path}: {e}; it is the backing file of {asker}"))
}

// The path of the file below, from the name's bytes.
fn below(heap: Global, path: &str, name: &[u8]) -> Result<String, Stop> {
    let text = std::str::from_utf8(name).map_err(|_| {
        Stop::said(format!(in heap; "{path}: the backing name is no UTF-8 text"))
    })?;
    Ok(joined(heap, path, text)?)
}

// The path of the file below an image; a bad header leads to none, and is the answer of every read that comes to it.
fn under_of(heap: Global, path: &str, front: &Front) -> Result<Option<String>, Stop> {
    let shown = front.shown();
    let Ok(n) = judge(shown, front.filled()) else {
        return Ok(None);
    };
    let Some(name) = n.backing_name(shown) else {
        return Ok(None);
    };
    Ok(Some(below(heap, path, name)?))
}

// One file more, and the path of the file below it. The top one is always taken for an image.
fn visit(rt: &HostRuntime, links: &mut Vec<Link>, path: String) -> Result<Option<String>, Stop> {
    let heap = rt.alloc();
    if has(links.as_slice(), path.as_str()) {
        return Err(Stop::said(format!(in heap;
            "{path}: the chain of backing files comes back to this file"
        )));
    }
    let front = read_front(rt, path.as_str()).map_err(|e| unread(
        heap,
        links.as_slice(),
        path.as_str(),
        e,
    ))?;
    let image = links.is_empty() || front.is_image();
    let under = if image {
        under_of(heap, path.as_str(), &front)?
    } else {
        None
    };
    links.push(Link { path, image })?;
    Ok(under)
}

// What stands for the name in the top image's header, if it has one.
fn instead_of(
    heap: Global,
    path: &str,
    under: Option<String>,
    instead: Option<&str>,
) -> Result<Option<String>, Stop> {
    match (under, instead) {
        (under, None) => Ok(under),
        (Some(_), Some(other)) => Ok(Some(String::from_str(heap, other)?)),
        (None, Some(_)) => Err(Stop::said(format!(in heap;
            "{path}: has no backing name that --backing could stand for"
        ))),
    }
}

// The files of the chain under an image, the image first.
pub(crate) fn links_of(
    rt: &HostRuntime,
    path: &str,
    instead: Option<&str>,
) -> Result<Vec<Link>, Stop> {
    let heap = rt.alloc();
    let mut links = Vec::new(heap);
    let first = visit(rt, &mut links, String::from_str(heap, path)?)?;
    let mut next = instead_of(heap, path, first, instead)?;
    for _ in 1..LONGEST {
        let Some(below) = next else {
            return Ok(links);
        };
        next = visit(rt, &mut links, below)?;
    }
    match next {
        None => Ok(links),
        Some(_) => Err(Stop::said(format!(in heap;
            "{path}: lies on a chain of more than {LONGEST} files"
        ))),
    }
}
