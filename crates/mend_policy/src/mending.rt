use model::command::Command;

// What mending says of a page: refused; it has both starts; one start, and no room for the second; it is lost; its own
// image is ahead of the log; no slot, note or record is left for the call; or the call to make.
#[derive(Clone, Copy)]
pub enum Mend {
    Refused(u32),
    Whole,
    Single,
    Lost,
    Ahead,
    Full,
    Make(Command),
}

// The same with the bytes of a change that is to be made; zeros beside anything else.
#[derive(Clone, Copy)]
pub struct Mended {
    pub mend: Mend,
    pub payload: [u8; 44],
}
