// The calls that only read a volume or an archive. `include/pagestore.h` declares them; the crates below have their
// proofs and say what is ruled out.
ghost use Rattle.std.specs.Prelude.{◌≡◌};
ghost use Rattle.reports.specs.Archive.{size_of, archive_of, archive_pages, read_of};
ghost use Rattle.model.specs.Outcome.{refusal_of};
ghost use Rattle.model.specs.Restart.{inspect_of};
ghost use Rattle.reports.specs.Forecast.{tell_forecast};
ghost use Rattle.reports.specs.Examine.{examine_of};
ghost use Rattle.reports.specs.Mirror as mirrors;
ghost use Rattle.archive_write.specs.Extent.{size_number};

use compare::report;
use inspect_report::examine;

// Inspection: 0 or the refusal.
pub fn pagestore_inspect(volume: &[u8], page: u32, buffer: &mut [u8]) -> u32
    ensures answer { result ≡ refusal_of (inspect_of volume.now page buffer.old).answer }
    ensures buffer { buffer.new ≡ (inspect_of volume.now page buffer.old).buffer }
{
    inspect::number(inspect::inspect(volume, page, buffer))
}

// Inspection with its class, start and count.
pub fn pagestore_examine(volume: &[u8], page: u32, buffer: &mut [u8], report: &mut [u32]) -> u32
    ensures answer { result
        ≡ (examine_of volume.now page buffer.old report.old).refusal }
    ensures buffer { buffer.new
        ≡ (examine_of volume.now page buffer.old report.old).buffer }
    ensures report { report.new
        ≡ (examine_of volume.now page buffer.old report.old).report }
{
    examine::examine(volume, page, buffer, report)
}

// The forecast of every page's repair.
pub fn pagestore_forecast(volume: &[u8], figures: &mut [u32]) -> u32
    ensures answer { result ≡ (tell_forecast volume.now figures.old).refusal }
    ensures figures { figures.new
        ≡ (tell_forecast volume.now figures.old).figures }
{
    forecast::face::tell_forecast(volume, figures)
}

// The length of a volume's archive: 0 where it is refused.
pub fn pagestore_archive_length(volume: &[u8]) -> u32
    ensures { result ≡ size_number (size_of volume.now) }
{
    archive_write::length_number(volume)
}

// The archive's writer.
pub fn pagestore_archive_write(volume: &[u8], buffer: &mut [u8]) -> u32
    ensures answer { result ≡ refusal_of (archive_of volume.now buffer.old).answer }
    ensures buffer { buffer.new ≡ (archive_of volume.now buffer.old).buffer }
{
    archive_write::write_number(volume, buffer)
}

// The number of an archive's pages.
pub fn pagestore_archive_pages(archive: &[u8]) -> u32
    ensures { result ≡ archive_pages archive.now }
{
    archive_read::pages(archive)
}

// The archive's reader.
pub fn pagestore_archive_read(archive: &[u8], area: &mut [u8]) -> u32
    ensures answer { result ≡ refusal_of (read_of archive.now area.old).answer }
    ensures area { area.new ≡ (read_of archive.now area.old).buffer }
{
    archive_read::read_number(archive, area)
}

// Two volumes' logs held against each other.
pub fn pagestore_compare(first: &[u8], second: &[u8], report: &mut [u32]) -> u32
    ensures answer { result
        ≡ (mirrors.compare_of first.now second.now report.old).refusal }
    ensures report { report.new
        ≡ (mirrors.compare_of first.now second.now report.old).report }
{
    report::tell_comparison(first, second, report)
}
