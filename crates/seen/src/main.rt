// Lists of calls on what images show, held against the records of an independent model.
#![tactic(auto)]

fn main(rt: HostRuntime) -> anyhow::Result<()> {
    replay::run(&rt)
}
