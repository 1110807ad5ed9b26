// The program of a planner: plays a list of reads and changes under frames, victims and backup habits, and prints what
// each costs. With nothing on standard input it plays the two lists that come with it and prints totals; otherwise the
// input is the list, a byte an event: below 128 a read of that page, else a change of page − 128. Its figures are
// printed in total and for each page; where it is refused, the refusal is the only line. All that matters is in
// `planning_model`, which is proved; this file makes the two lists and prints.
#![tactic(auto)]

mod lists;
mod table;

use model::answer::Refusal;
use print::input;
use std::io;
use table::{Lines, Table};

fn main(rt: HostRuntime) -> io::Result<()> {
    let mut space = [0u8; 1025];
    let n = input::fill(&mut rt.stdin(), &mut space)?;
    if n == 0 {
        Table {
            title: "A reader who stays at the end of a thread of 16 pages, each begun and changed 20 times",
            events: lists::stays().events(),
            lines: Lines::Totals,
        }
        .print(&rt)?;
        return Table {
            title: "\nA reader who rereads the whole thread after every 7th change of a page",
            events: lists::rereads().events(),
            lines: Lines::Totals,
        }
        .print(&rt);
    }
    if 1024 < n {
        return println!(rt; "REFUSED {}", Refusal::BadRehearsal as u32);
    }
    Table {
        title: "The list on standard input",
        events: &space[..n],
        lines: Lines::Pages,
    }
    .print(&rt)
}
