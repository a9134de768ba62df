// Scene 4: document 01's P7, a transfer of two stages.
use crate::disk::plan_of;
use plan::{DataToggle, Dwc2TransferStage};
use std::io;

pub(crate) fn scene(rt: &impl Print) -> io::Result<()> {
    rt.print(
        "4. A long write in two stages
   33423361 bytes to a disk, packets of 512, buffer at 0x10000000 (document 01,
   P7). A stage is at most 256 descriptors, and one of them holds 130560 bytes: the
   last byte needs a second stage. Field failure 1: a long write went on at the
   wrong offset, and 4096 sectors of a good backup were overwritten. Here every
   address is the buffer's plus all lengths before it.

",
    )?;
    let mut array = [0u32; 2048];
    let plan = plan_of(33_423_361, DataToggle::data0(), &mut array)?;
    let [first, second, _, _] = plan.stages;
    stage(rt, 1, first)?;
    let base = first.desc_base as usize;
    descriptor(rt, "first", &array, base)?;
    descriptor(
        rt,
        "last",
        &array,
        base + (first.descs as usize).saturating_sub(1),
    )?;
    stage(rt, 2, second)?;
    descriptor(rt, "first", &array, second.desc_base as usize)?;
    let between = second.dma_addr.wrapping_sub(first.dma_addr);
    println!(rt; "\n   Stage 2 starts {between} bytes behind stage 1.\n")
}

fn stage(rt: &impl Print, number: u8, stage: Dwc2TransferStage) -> io::Result<()> {
    println!(rt;
        "stage {number}     bytes {}, descriptors {}",
        stage.len, stage.descs
    )
}

// A descriptor is its status and its address. A plan lies in the array: nothing is left out.
fn descriptor(rt: &impl Print, name: &str, array: &[u32; 2048], at: usize) -> io::Result<()> {
    if let Some([status, address]) = array.as_chunks::<2>().0.get(at) {
        println!(rt; "  {name:<10}address 0x{address:08x}  status 0x{status:08x}")?;
    }
    Ok(())
}
