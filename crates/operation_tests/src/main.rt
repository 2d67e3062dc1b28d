//! Operations on the trees of a volume by public calls: the worked rows, drawn operations beside the plain volume, all blocks
//! accounted for, and a fill that is one run. It prints how many agree, and each line that doesn't.
#![tactic(auto)]

mod drawn;
mod filled;
mod trees;
mod worked;

fn main(rt: HostRuntime) -> anyhow::Result<()> {
    worked::rows(&rt, rt.alloc())?;
    drawn::beside_the_plain_volume(&rt, rt.alloc())?;
    filled::one_run(&rt, rt.alloc())
}
