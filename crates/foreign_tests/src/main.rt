//! Volumes as the kernel and its tools make them, made after the on-disk format, and what `foreign` answers of each: a volume
//! with one small file, and the same with bytes changed and the sums made right again.
#![tactic(auto)]

mod maker;
mod rows;

fn main(rt: HostRuntime) -> anyhow::Result<()> {
    rows::listings(&rt, rt.alloc())?;
    rows::super_faults(&rt, rt.alloc())?;
    rows::tree_faults(&rt, rt.alloc())?;
    rows::circle(&rt, rt.alloc())?;
    rows::item_faults(&rt, rt.alloc())?;
    rows::two_extents(&rt, rt.alloc())?;
    rows::blocks(&rt, rt.alloc())?;
    rows::each_byte(&rt, rt.alloc())
}
