// Every row of the header's judgement and of create at its edge: the last value accepted, the first refused.
// Each table has a line for a case: what it is, a semicolon, and its numbers.
#![tactic(auto)]

use anyhow::anyhow;
use byte_lists::put_number;
use create::create;
use fault::Fault;
use format::{Numbers, judge};
use std::fs;
use store::{FlatStore, Store};

// Writes a byte where it fits, and says whether it did.
fn put_byte(image: &mut [u8], at: usize, value: u8) -> bool {
    let Some(byte) = image.get_mut(at) else {
        return false;
    };
    *byte = value;
    true
}

// A number written to a byte of a header, or to four or eight: `AT/WIDTH=VALUE`.
fn patch(image: &mut [u8], edit: &str) -> anyhow::Result<()> {
    let (Some((at, rest)), Some((_, value))) = (edit.split_once('/'), edit.split_once('=')) else {
        return Err(anyhow!("an edit is AT/WIDTH=VALUE"));
    };
    let at = at.parse::<usize>()?;
    let value = value.parse::<u64>()?;
    let done = match rest.split_once('=') {
        Some(("8", _)) => put_number(image, at, value),
        Some(("4", _)) => put_number(image, at, (value & 0xffff_ffff) as u32),
        Some(("1", _)) => put_byte(image, at, (value & 0xff) as u8),
        _ => false,
    };
    if !done {
        return Err(anyhow!("a width is 1, 4 or 8"));
    }
    Ok(())
}

// The edits of a case, behind its length.
fn patch_all(image: &mut [u8], numbers: &str) -> anyhow::Result<()> {
    for edit in numbers.split_whitespace().skip(1) {
        patch(image, edit)?;
    }
    Ok(())
}

// A good header of 512 byte clusters and a guest of 64 KiB.
fn base(image: &mut [u8]) -> anyhow::Result<()> {
    let mut s = FlatStore::new(image, 0);
    create(&mut s, 3, 9, 65536, b"").map_err(|_| anyhow!("create refused the plain image"))
}

// Judges as much of the image as a store of this length would have.
fn judge_front(image: &[u8], length: u64) -> Result<Numbers, Fault> {
    let n = length.min(image.len() as u64) as usize;
    judge(&image[0..n], length)
}

fn header_case(rt: &HostRuntime, what: &str, numbers: &str) -> anyhow::Result<()> {
    let mut image = [0u8; 2048];
    base(&mut image)?;
    let Some(length) = numbers.split_whitespace().next() else {
        return Err(anyhow!("a case has a length"));
    };
    let length = length.parse::<u64>()?;
    patch_all(&mut image, numbers)?;
    match judge_front(&image, length) {
        Ok(_) => println!(rt; "header, {what}: good")?,
        Err(f) => println!(rt; "header, {what}: refused {f}")?,
    }
    Ok(())
}

// Version, cluster bits, size, letters of the name, bytes in use, limit.
fn create_case(rt: &HostRuntime, what: &str, numbers: &str) -> anyhow::Result<()> {
    let mut given = [0u64; 6];
    for (slot, word) in given.iter_mut().zip(numbers.split_whitespace()) {
        *slot = word.parse()?;
    }
    let [version, bits, size, letters, used, limit] = given;
    let name = [b'n'; 2048];
    let mut list = [0u8; 16384];
    let limit = limit.min(16384) as usize;
    let letters = letters.min(2048) as usize;
    let mut s = FlatStore::new(&mut list[0..limit], used as usize);
    let r = create(
        &mut s,
        (version & 0xffff_ffff) as u32,
        (bits & 0xffff_ffff) as u32,
        size,
        &name[0..letters],
    );
    report(rt, what, r, s.length())
}

fn report(rt: &HostRuntime, what: &str, r: Result<(), Fault>, length: u64) -> anyhow::Result<()> {
    match r {
        Ok(()) => println!(rt; "create, {what}: made {length} bytes")?,
        Err(f) => println!(rt; "create, {what}: refused {f}, {length} bytes left")?,
    }
    Ok(())
}

// The cases of a file.
fn run_cases<Case: Fn(&HostRuntime, &str, &str) -> anyhow::Result<()>>(
    rt: &HostRuntime,
    path: &str,
    case: Case,
) -> anyhow::Result<()>
    requires { Case.IsAlwaysCallable case }
{
    let text = fs::read_to_string(rt, path)?;
    for line in text.as_str().lines() {
        if let Some((what, numbers)) = line.split_once(';') {
            case(rt, what, numbers)?;
        }
    }
    Ok(())
}

fn main(rt: HostRuntime) -> anyhow::Result<()> {
    run_cases(&rt, "headers", header_case)?;
    run_cases(&rt, "creates", create_case)
}
