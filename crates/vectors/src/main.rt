// Lists of calls on stores, disks and images, held against the records of an independent model.
#![tactic(auto)]

fn main(rt: HostRuntime) -> anyhow::Result<()> {
    replay::run(&rt)
}
