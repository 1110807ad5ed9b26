// What a list costs, by frames, victim and backup habit.
ghost use Rattle.std.specs.Prelude.{◌≤◌};

use model::answer::Answer;
use planning::rehearsal::{Figures, Rehearsed, Totals, Victim};
use planning_model::figures;
use std::io;

// How much is printed of each setting.
#[derive(Clone, Copy, Debug, PartialEq, Eq)]
pub enum Lines {
    Totals,
    // A line for each page too.
    Pages,
}

// The list that is played, and how it is printed.
#[derive(Clone, Copy)]
pub struct Table<'a> {
    pub title: &'static str,
    pub events: &'a [u8],
    pub lines: Lines,
}

// At most 64 marks.
fn bar(rt: &impl Print, count: u64, mark: char) -> io::Result<()> {
    for _ in 0..count.min(64) {
        print!(rt; "{mark}")?;
    }
    Ok(())
}

// How many pages were backed up.
fn backed_up(pages: &[Figures; 64]) -> usize
    ensures { result ≤ 64 }
{
    pages.iter().filter(|f| 0 < f.backups).count()
}

// The highest page that was changed.
fn highest(pages: &[Figures; 64]) -> usize {
    pages
        .iter()
        .rposition(|f| 0 < f.records)
        .map_or(0, |i| i + 1)
}

// The stores other than log records, which every setting has alike.
fn extra(t: Totals) -> u64 {
    t.images.saturating_add(t.backups).saturating_add(t.notes)
}

// A page's line: its number and its changes; then as in the line of all pages together.
fn page_line(rt: &impl Print, page: u32, f: &Figures) -> io::Result<()> {
    println!(rt;
        "{page:7}  page   {:7}{:7}{:7}{:7}{:7}{:7}",
        f.records, f.loads, f.replayed, f.images, f.backups, f.notes
    )
}

// A line for each page that was changed; no other has a figure.
fn page_lines(rt: &impl Print, pages: &[Figures; 64]) -> io::Result<()> {
    for (page, f) in (1..=64u32).zip(pages) {
        if 0 < f.records {
            page_line(rt, page, f)?;
        }
    }
    Ok(())
}

fn words(victim: Victim) -> &'static str {
    match victim {
        Victim::Written => "written",
        Victim::Released => "let go ",
    }
}

impl Table<'_> {
    fn play(&self, frames: u32, every: u32, victim: Victim) -> Rehearsed {
        planning_model::rehearse(self.events, frames, every, victim)
    }

    // A line: frames, victim, k; loads and records replayed; page images, backups and notes; a B that is enough; two
    // bars, one mark for every so many begun. Behind it, where each page is asked for, the lines of the pages.
    fn line(&self, rt: &impl Print, frames: u32, every: u32, victim: Victim) -> io::Result<()> {
        let pages = self.play(frames, every, victim).pages;
        let t = figures::total(pages);
        let enough = backed_up(&pages) + 1;
        print!(rt;
            "{frames:7}  {}{every:7}{:7}{:7}{:7}{:7}{:7}{enough:7}  ",
            words(victim),
            t.loads,
            t.replayed,
            t.images,
            t.backups,
            t.notes
        )?;
        bar(rt, extra(t).div_ceil(32), '#')?;
        bar(rt, t.replayed.div_ceil(256), '*')?;
        println!(rt)?;
        match self.lines {
            Lines::Totals => Ok(()),
            Lines::Pages => page_lines(rt, &pages),
        }
    }

    fn habits(&self, rt: &impl Print, frames: u32, victim: Victim) -> io::Result<()> {
        for every in [1, 4, 16, 255] {
            self.line(rt, frames, every, victim)?;
        }
        Ok(())
    }

    fn heading(&self, rt: &impl Print, pages: &[Figures; 64]) -> io::Result<()> {
        let events = self.events.len();
        let changes = figures::total(*pages).records;
        let most = highest(pages);
        println!(rt; "{}", self.title)?;
        print!(rt; "{events:7} events,{changes:7} changes. Enough room: P{most:7}, L{changes:7}")?;
        println!(rt; ", N the notes and B of the line")?;
        print!(rt; " frames  victim       k  loads replay images backup  notes      B")?;
        println!(rt; "  # 32 images, backups, notes  * 256 replayed")?;
        match self.lines {
            Lines::Totals => Ok(()),
            Lines::Pages => println!(rt; "   page         changes"),
        }
    }

    // The whole table, or the refusal alone.
    pub fn print(&self, rt: &impl Print) -> io::Result<()> {
        let r = self.play(1, 1, Victim::Released);
        if let Answer::Refused(n) = r.answer {
            return println!(rt; "REFUSED {n}");
        }
        self.heading(rt, &r.pages)?;
        for frames in [1, 2, 4, 8, 15, 16] {
            self.habits(rt, frames, Victim::Written)?;
            self.habits(rt, frames, Victim::Released)?;
        }
        Ok(())
    }
}
