// `qcow script`: lists of calls from standard input, a record line for each.
use script::Session;
use std::io::{BufRead, BufReader};

pub(crate) fn run(rt: &HostRuntime) -> anyhow::Result<()> {
    let heap = rt.alloc();
    let mut session = Session::new(heap);
    for line in BufReader::new(heap, rt.stdin())?.lines(heap) {
        let line = line?;
        if let Some(record) = session.line(line.as_str())? {
            rt.println(record.as_str())?;
        }
    }
    Ok(())
}
