// Check 4: the oldest thread reread in full after its page came back old, beside a reader who looks only at the newest
// line.
use checklist_steps::disk::{Image, Volume};
use checklist_steps::steps::Live;
use checklist_steps::verdict::Seen;
use checklist_steps::{disk, text};
use std::io;
use store::Store;

// The oldest thread: three lines, written.
fn oldest(rt: &impl Print) -> io::Result<Live> {
    let mut live = Live::opened(rt, [0; disk::SIZE], [0; 1536]).done()?;
    live.put(rt, 1, 44, b"06:18 bed 4 is free")?;
    live.put(rt, 1, 88, b"06:40 bed 4 is made up")?;
    live.write(rt, 1)?;
    Ok(live)
}

// A newer thread, written.
fn newer(rt: &impl Print, live: &mut Live) -> io::Result<()> {
    live.begin(rt, 2)?;
    live.put(rt, 2, 0, b"06:42 bed 9 asks for water")?;
    live.write(rt, 2)
}

// A late line between two of the oldest, written.
fn late(rt: &impl Print, live: &mut Live) -> io::Result<()> {
    live.slide(rt, 1, 88, b"06:31 bed 4: clean it before use")?;
    live.write(rt, 1)
}

// The newest line of a page as the disk holds it; whether the repaired page has the same.
fn glance(rt: &impl Print, v: &Volume, page: u32, at: usize) -> io::Result<bool> {
    let mut buffer = [0u8; 256];
    Store::inspect(v, page, &mut buffer);
    let held = text::newest(&disk::image(v, at));
    text::line(rt, &held)?;
    Ok(held == text::newest(&buffer))
}

// A reader of the newest lines only.
fn newest(rt: &impl Print, v: &Volume) -> io::Result<()> {
    println!(rt; "  A reader who looks only at the newest line of each thread sees on the disk:")?;
    let a = glance(rt, v, 1, disk::PAGE)?;
    let b = glance(rt, v, 2, disk::PAGE + 256)?;
    if a & b {
        println!(rt;
            "  Both are the newest lines of the repaired pages too: this reader notices nothing."
        )
    } else {
        println!(rt; "  The repaired pages have others: this reader notices the damage.")
    }
}

// A reader of the whole thread.
fn reread(rt: &impl Print, v: &Volume, after: &Image) -> io::Result<()> {
    let held = text::lines(&disk::image(v, disk::PAGE));
    let whole = text::lines(after);
    print!(rt; "  A reader who rereads the oldest thread in full counts {held} lines on the disk")?;
    println!(rt; " and {whole} in the repaired page.")
}

fn aged(rt: &impl Print, live: &mut Live, old: &Volume, seen: &mut Seen) -> io::Result<bool> {
    println!(rt;
        "  Damage: the disk gives back the older image of page 1. A line is missing, and no gap shows it. The disk holds:"
    )?;
    disk::give_back(&mut live.volume, old, disk::PAGE, disk::PAGE + 256);
    text::held(rt, &disk::image(&live.volume, disk::PAGE))?;
    newest(rt, &live.volume)?;
    let why =
        "  The number is below the last written one in the page recovery index: the store replays what is missing.\n";
    let whole = seen.after(rt, &live.volume, why).done()?;
    reread(rt, &live.volume, &seen.after)?;
    Ok(whole)
}

pub fn check(rt: &impl Print) -> io::Result<bool> {
    println!(rt;
        "\nCHECK 4. The oldest thread reread in full, beside a reader who looks only at the newest line"
    )?;
    let mut live = oldest(rt)?;
    newer(rt, &mut live)?;
    let old = live.volume;
    late(rt, &mut live)?;
    let mut seen = Seen {
        before: [0; 256],
        after: [0; 256],
    };
    seen.before(rt, &live.volume)?;
    aged(rt, &mut live, &old, &mut seen)
}
