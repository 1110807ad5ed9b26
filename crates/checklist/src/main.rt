// The four checks that support staff are taught, played with the store's own calls. Only the damage is this program's:
// it plays the disk and the plug. The calls are proved; the program shows them at work, and compares each page's text
// before and after.
#![tactic(auto)]

use checklist_checks::{both, lost, thread};
use std::io;

// What an answer means.
const LEGEND: &str = "\
Inspect and Load answer what the page's image on disk is worth, where the repair starts, and how many log records
it replays. The image is
  GOOD    the newest
  BEHIND  whole; newer changes stand in the log: no fault
  STALE   whole, but older than a write that was confirmed and noted: the disk lost that write
  FAILED  torn, spoiled, never written or another page's
  AHEAD   whole, but its number is above this page's last durable one: not from this log
and the repair starts from
  OWN     the page's own image
  BACKUP  its backup
  FORMAT  its newest format in the log, so from the log alone
";

fn main(rt: HostRuntime) -> io::Result<()> {
    println!(rt;
        "The four checks, played with the store's own calls. Only the damage is done by this program, in place of the disk.\n"
    )?;
    print!(rt; "{LEGEND}")?;
    let passed = [
        lost::check(&rt)?,
        checklist_plug::check(&rt)?,
        both::check(&rt)?,
        thread::check(&rt)?,
    ];
    let count = passed.iter().filter(|p| **p).count();
    println!(rt; "\n{count} of 4 checks passed")
}
