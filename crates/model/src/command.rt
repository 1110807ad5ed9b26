use crate::change::Change;

// A call on the state with its arguments, one step of a history. A change's bytes stand beside it, in an array of 44.
#[derive(Clone, Copy)]
pub enum Command {
    Begin { page: u32, frame: u32, fill: u8 },
    Load { page: u32, frame: u32 },
    Change { page: u32, change: Change },
    Force,
    Write { page: u32 },
    Backup { page: u32, slot: u32 },
    Release { page: u32 },
    Note,
    StartCarry,
    Restamp,
    FinishCarry,
}
