// The frame table of a state.
ghost use Rattle.std.specs.Prelude.{◌≡◌, ◌-◌, ◌<◌};
ghost use Rattle.model.specs.State.{frame_of, holder_from, holder, held};
ghost use Rattle.model.specs.Refusals.{frame_blocked};

use crate::entries;
use model::state::{Frame, State};

// The row of frame f, counted from 1; past the table an empty one.
pub fn frame(s: State, f: u32) -> Frame
    ensures { result ≡ frame_of s f }
{
    let i = crate::row(f);
    if i < 16 {
        s.frames[i]
    } else {
        Frame {
            page: 0,
            dirty: false,
        }
    }
}

// The row of a frame table that holds the page, counted from 1; 0 if none does, as in the definitions, whose tails of
// refusal rows take it so.
pub fn search(table: &[Frame; 16], page: u32) -> u32
    ensures { result ≡ holder_from 0 page table.now }
{
    match table.iter().position(|f| u32::from(f.page) == page) {
        Some(i) => i as u32 + 1,
        None => 0,
    }
}

// The frame that holds the page, counted from 1; 0 if none does.
pub fn holder(s: State, page: u32) -> u32
    ensures { result ≡ holder s page }
{
    search(&s.frames, page)
}

// Whether some frame holds the page.
pub fn held(s: State, page: u32) -> bool
    ensures { result ≡ held s page }
{
    0 < holder(s, page)
}

// Whether the page of frame f may not leave it: its last number is above its last durable one. An empty frame is free.
pub fn blocked(s: State, f: u32) -> bool
    ensures { result ≡ frame_blocked s f }
{
    let row = frame(s, f);
    let page = u32::from(row.page);
    let e = entries::entry(s, page);
    (page != 0) & (e.durable < e.last)
}
