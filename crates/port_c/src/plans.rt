// Planning transfers, for C.
ghost use Rattle.std.specs.Prelude.{◌≡◌, length};
ghost use Rattle.words.specs.Words.{packets};
ghost use Rattle.plan.specs.Planning.{split_of};
ghost use Rattle.port.specs.Planning.{split_numbers, data_plan_numbers, data_array_after, control_plan_numbers, control_array_after};
ghost use Rattle.port.specs.Planning.{stage_moved_number, setup_packet_numbers};

use port::{
    PortControlPlan, PortControlRequest, PortDataPlan, PortDataRequest, PortNumber,
    PortSetupPacket, PortSplit, PortStage,
};

#[unsafe(no_mangle)]
pub extern "C" fn dwc2_split_dma_lengths(len: u64, max_packet_size: u16) -> PortSplit
    ensures { result ≡ split_numbers (split_of len max_packet_size) }
{
    port::dwc2_split_dma_lengths(len, max_packet_size)
}

#[unsafe(no_mangle)]
pub extern "C" fn dwc2_packet_count(len: u64, max_packet_size: u16) -> u64
    ensures { result ≡ packets len max_packet_size }
{
    port::dwc2_packet_count(len, max_packet_size)
}

#[unsafe(no_mangle)]
pub extern "C" fn dwc2_data_stages(request: PortDataRequest, array: &mut [u32]) -> PortDataPlan
    ensures { (result ≡ data_plan_numbers request (length array.old)) × (array.new ≡ data_array_after request array.old) }
{
    port::dwc2_data_stages(request, array)
}

#[unsafe(no_mangle)]
pub extern "C" fn dwc2_build_control_plan(
    request: PortControlRequest,
    array: &mut [u32],
) -> PortControlPlan
    ensures { (result ≡ control_plan_numbers request (length array.old)) × (array.new ≡ control_array_after request array.old) }
{
    port::dwc2_build_control_plan(request, array)
}

#[unsafe(no_mangle)]
pub extern "C" fn dwc2_stage_actual_length(stage: PortStage, array: &[u32]) -> PortNumber
    ensures { result ≡ stage_moved_number stage array.now }
{
    port::dwc2_stage_actual_length(stage, array)
}

#[unsafe(no_mangle)]
pub extern "C" fn dwc2_setup_packet_bytes(
    request_type: u8,
    recipient: u8,
    direction: u8,
    request: u8,
    value: u16,
    index: u16,
    len: u64,
) -> PortSetupPacket
    ensures { result ≡ setup_packet_numbers request_type recipient direction request value index len }
{
    port::dwc2_setup_packet_bytes(
        request_type,
        recipient,
        direction,
        request,
        value,
        index,
        len,
    )
}
