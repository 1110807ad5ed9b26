// The page recovery index of a state.
ghost use Rattle.std.specs.Prelude.{◌≡◌};
ghost use Rattle.model.specs.Index.{entry_of};
ghost use Rattle.model.specs.State.{blank};

use index_rows::entries;
use model::state::{Entry, State};

// The page's entry; past the index an empty one.
pub fn entry(s: State, page: u32) -> Entry
    ensures { result ≡ entry_of s.index page }
{
    let index = s.index;
    entries::entry(index, page)
}

// Whether the page has no record.
pub fn blank(s: State, page: u32) -> bool
    ensures { result ≡ blank s page }
{
    entry(s, page).last == 0
}
