// `qcow snapshot`: the snapshots of an image, as a table.
use crate::args::{Arguments, message};
use crate::images;
use calendar::{Date, date_of};
use fault::Fault;
use format::judge_store;
use layers::{Stop, load_alone};
use listing::shown;
use snapshot::{Snapshot, judge_records};
use std::alloc::Global;
use store::{Store, read_number};

pub(crate) const USAGE: &str = "qcow snapshot -l FILE";

#[derive(Drop)]
struct Row {
    id: String,
    name: String,
    date: Date,
}

// When the snapshot was taken.
fn date_in<S: Store>(s: &S, r: &Snapshot) -> Result<Date, Fault> {
    let seconds = read_number(s, r.place.saturating_add(16))?;
    Ok(date_of(seconds))
}

// The name, which stands behind the extra data and the id.
fn read_name<S: Store>(s: &S, r: &Snapshot, name: &mut [u8]) -> Result<(), Fault> {
    let front = 40 + r.head.extra as u64 + r.head.id as u64;
    s.read(r.place.saturating_add(front), name)
}

fn row_of<S: Store>(heap: Global, paths: &[String], s: &S, r: &Snapshot) -> Result<Row, Stop> {
    let mut name = vec![in heap; 0u8; r.head.name as usize]?;
    images::granted(heap, paths, read_name(s, r, name.as_mut_slice()))?;
    let date = images::granted(heap, paths, date_in(s, r))?;
    Ok(Row {
        id: shown(heap, r.id())?,
        name: shown(heap, name.as_slice())?,
        date,
    })
}

// The widest id and the widest name, the headings among them.
fn widths(rows: &[Row]) -> (usize, usize) {
    let id = rows.iter().map(|row| row.id.len()).max().unwrap_or(0);
    let name = rows.iter().map(|row| row.name.len()).max().unwrap_or(0);
    (id.max(2), name.max(4))
}

fn print(rt: &HostRuntime, rows: &[Row], size: u64) -> Result<(), Stop> {
    let (wide, long) = widths(rows);
    println!(rt;
        "{:wide$}  {:long$}  {:19}  SIZE",
        "ID", "NAME", "DATE (UTC)"
    )?;
    for row in rows {
        let Row { id, name, date } = row;
        println!(rt; "{id:wide$}  {name:long$}  {date}  {size}")?;
    }
    Ok(())
}

pub(crate) fn run(rt: &HostRuntime, given: Vec<String>) -> Result<(), Stop> {
    let heap = rt.alloc();
    let args = Arguments::new(heap, given, &[], &["-l"])?;
    let paths = args.words.as_slice();
    let [path] = args.exactly::<1>(heap, USAGE)?;
    if !args.switch("-l") {
        return Err(message(heap, "usage:", USAGE));
    }
    let s = load_alone(rt, path.as_str())?;
    let n = images::granted(heap, paths, judge_store(&s))?;
    let records = images::granted(heap, paths, judge_records(&s, n))?;
    let mut rows = Vec::new(heap);
    for r in records.kept() {
        rows.push(row_of(heap, paths, &s, r)?)?;
    }
    print(rt, rows.as_slice(), n.size)
}
