// How far long work has come, on standard error and only where that is a terminal.
use std::io::IsTerminal;

#[derive(Drop)]
pub(crate) struct Progress {
    seen: bool,
    // what a percent is
    part: u64,
    // the percent that was shown last
    last: u64,
}

impl Progress {
    pub(crate) fn new(rt: &HostRuntime, whole: u64) -> Progress {
        Progress {
            seen: rt.stderr().is_terminal(),
            part: whole / 100,
            last: 0,
        }
    }

    // A write that fails is let go: the work is what counts.
    pub(crate) fn show(&mut self, rt: &HostRuntime, done: u64) {
        let percent = (done / self.part.max(1)).min(100);
        if self.seen && percent != self.last {
            let _ = eprint!(rt; "\r{percent} %");
            self.last = percent;
        }
    }

    pub(crate) fn end(self, rt: &HostRuntime) {
        if self.seen {
            let _ = eprint!(rt; "\r      \r");
        }
    }
}
