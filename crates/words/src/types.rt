// The kinds that the words name. Numbers.antt in specs/ has document 01's number for each.

#[derive(Clone, Copy, Debug, PartialEq, Eq)]
pub enum Direction {
    Out,
    In,
}

#[derive(Clone, Copy, Debug, PartialEq, Eq)]
pub enum Dwc2EpType {
    Control,
    Isochronous,
    Bulk,
    Interrupt,
}

#[derive(Clone, Copy, Debug, PartialEq, Eq)]
pub enum Dwc2Pid {
    Data0,
    Data1,
    Data2,
    MData,
    Setup,
}

#[derive(Clone, Copy, Debug, PartialEq, Eq)]
pub enum Dwc2TransferFault {
    Ahb,
    Stall,
    Babble,
    Transaction,
    FrameOverrun,
    DataToggle,
}
