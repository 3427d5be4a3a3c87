// The program: its first argument names a task; without any it shows what it can do.
#![tactic(auto)]

mod args;
mod checks;
mod creation;
mod demo;
mod exports;
mod files;
mod images;
mod info;
mod maps;
mod progress;
mod reads;
mod scripts;
mod snapshots;

use anyhow::anyhow;
use layers::Stop;
use std::env;
use std::process::ExitCode;

fn usage(rt: &HostRuntime) -> Result<(), Stop> {
    rt.eprintln("usage:")?;
    rt.eprintln("  qcow              shows stores, disks and images at work")?;
    eprintln!(rt; "  {}", creation::USAGE)?;
    eprintln!(rt; "  {}", info::USAGE)?;
    eprintln!(rt; "  {}", maps::USAGE)?;
    eprintln!(rt; "  {}", reads::USAGE)?;
    eprintln!(rt; "  {}", exports::USAGE)?;
    eprintln!(rt; "  {}", snapshots::USAGE)?;
    eprintln!(rt; "  {}", checks::USAGE)?;
    rt.eprintln("  qcow script       runs the calls on standard input, a line each")?;
    Err(Stop::Other(anyhow!("no such task")))
}

fn run(rt: &HostRuntime) -> Result<(), Stop> {
    let mut args = env::args(rt)?;
    let _program = args.next();
    let Some(task) = args.next() else {
        return Ok(demo::run(rt)?);
    };
    let given = args.collect(rt.alloc())?;
    match task.as_str() {
        "create" => creation::run(rt, given),
        "info" => info::run(rt, given),
        "map" => maps::run(rt, given),
        "read" => reads::run(rt, given),
        "export" => exports::run(rt, given),
        "snapshot" => snapshots::run(rt, given),
        "check" => checks::run(rt, given),
        "script" => Ok(scripts::run(rt)?),
        _ => usage(rt),
    }
}

fn main(rt: HostRuntime) -> ExitCode {
    match run(&rt) {
        Ok(()) => ExitCode::SUCCESS,
        Err(e) => {
            let _ = eprintln!(rt; "qcow: {e}");
            ExitCode::FAILURE
        }
    }
}
