// Stored lists of calls, run, and every record line compared with the one that it must give.
#![tactic(auto)]

use anyhow::anyhow;
use script::Session;
use std::fs;

// What a comparison of two lists of lines found.
#[derive(Drop)]
struct Outcome {
    equal: usize,
    lines: usize,
    first: Option<usize>,
}

// One list of calls, against its record.
fn compare(rt: &HostRuntime, name: &str) -> anyhow::Result<Outcome> {
    let heap = rt.alloc();
    let calls = fs::read_to_string(rt, format!(in heap; "{name}.calls")?)?;
    let record = fs::read_to_string(rt, format!(in heap; "{name}.record")?)?;
    let mut session = Session::new(heap);
    let mut wanted = record.as_str().lines();
    let mut found = Outcome {
        equal: 0,
        lines: 0,
        first: None,
    };
    for line in calls.as_str().lines() {
        let Some(given) = session.line(line)? else {
            continue;
        };
        found.lines = found.lines.saturating_add(1);
        if wanted.next() == Some(given.as_str()) {
            found.equal = found.equal.saturating_add(1);
        } else {
            found.first.get_or_insert(found.lines);
        }
    }
    if wanted.next().is_some() {
        found.first.get_or_insert(found.lines.saturating_add(1));
    }
    Ok(found)
}

// The lists that the file `names` names, a line for each.
pub fn run(rt: &HostRuntime) -> anyhow::Result<()> {
    let names = fs::read_to_string(rt, "names")?;
    let mut all_equal = true;
    for name in names.as_str().lines() {
        let Outcome {
            equal,
            lines,
            first,
        } = compare(rt, name)?;
        match first {
            None => println!(rt; "{name}: {equal} of {lines} lines equal")?,
            Some(n) => {
                all_equal = false;
                println!(rt;
                    "{name}: {equal} of {lines} lines equal, the first that is not is {n}"
                )?;
            }
        }
    }
    if all_equal {
        Ok(())
    } else {
        Err(anyhow!("a record differs"))
    }
}
