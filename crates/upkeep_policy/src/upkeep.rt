use model::command::Command;

// What upkeep says: refused; nothing to do; stuck at a page whose note or record it cannot renew; or a call to make.
#[derive(Clone, Copy)]
pub enum Upkeep {
    Refused(u32),
    Idle,
    Stuck(u32),
    Make(Command),
}

// The same with the bytes of a change that is to be made; zeros beside anything else.
#[derive(Clone, Copy)]
pub struct Advised {
    pub upkeep: Upkeep,
    pub payload: [u8; 44],
}
