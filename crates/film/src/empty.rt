// Scene 5: an empty transfer and its toggle.
use crate::disk::{PACKET, plan_of};
use plan::DataToggle;
use std::io;

pub(crate) fn scene(rt: &impl Print) -> io::Result<()> {
    rt.print(
        "5. An empty transfer is one packet
   A write of 0 bytes to a disk and then one of 512, packets of 512. Each packet
   flips the toggle, by which the disk tells a new packet from a repeated one.
   Field failure 2: the old driver counted no packet for the empty transfer. It
   sent the next one as DATA0 again, the disk dropped it as a repeat, and the
   backup hung.

",
    )?;
    let after = sent(rt, "0 bytes", 0, DataToggle::data0())?;
    sent(rt, "512 bytes", 512, after)?;
    println!(rt)
}

// The toggle behind it. HCTSIZ, bits 29 and 30: DATA0 is 0, and DATA1 is 2.
fn sent(rt: &impl Print, name: &str, len: u64, toggle: DataToggle) -> io::Result<DataToggle> {
    let mut array = [0u32; 2048];
    let plan = plan_of(len, toggle, &mut array)?;
    let packets = plan::packet_count(len, PACKET);
    let pid = plan.stages[0].hctsiz / 1_073_741_824 % 2;
    let next = u8::from(plan.toggle.0);
    println!(rt; "{name:<12}packets {packets}, sent as DATA{pid}, and DATA{next} is next")?;
    Ok(plan.toggle)
}
