// A disk's transfer: packets of 512.
use plan::{DataKind, DataRequest, DataToggle, Dwc2DataPlan};
use ring::Speed;
use std::io;
use words::Direction;

pub(crate) const PACKET: u16 = 512;

// The plan of a bulk write from the buffer at 0x10000000. One that is refused would end the film.
pub(crate) fn plan_of(len: u64, toggle: DataToggle, array: &mut [u32]) -> io::Result<Dwc2DataPlan> {
    let request = DataRequest {
        kind: DataKind::Bulk,
        direction: Direction::Out,
        port_speed: Speed::High,
        device: 1,
        endpoint: 2,
        max_packet_size: PACKET,
        odd_frame: false,
        toggle,
        base: 268_435_456,
        len,
    };
    plan::data_stages(request, array).map_err(|_| io::Error::from(io::ErrorKind::InvalidInput))
}
