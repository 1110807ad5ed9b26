// The calls that only read a volume or an archive. `include/pagestore.h` declares them; the crates below have their
// proofs and say what is ruled out.
ghost use Rattle.std.specs.Prelude.{◌≡◌};
ghost use Rattle.reports.specs.Archive.{size_of, archive_of, archive_pages, read_of};
ghost use Rattle.model.specs.Outcome.{refusal_of};
ghost use Rattle.model.specs.Restart.{inspect_of};
ghost use Rattle.reports.specs.Forecast.{tell_forecast};
ghost use Rattle.reports.specs.Examine.{examine_of};
ghost use Rattle.reports.specs.Mirror as mirrors;
ghost use Rattle.archive_write.specs.Extent.{size_number};

use capi::readers;

// Inspection: 0 or the refusal.
#[unsafe(no_mangle)]
pub extern "C" fn pagestore_inspect(volume: &[u8], page: u32, buffer: &mut [u8]) -> u32
    ensures answer { result ≡ refusal_of (inspect_of volume.now page buffer.old).answer }
    ensures buffer { buffer.new ≡ (inspect_of volume.now page buffer.old).buffer }
{
    readers::pagestore_inspect(volume, page, buffer)
}

// Inspection with its class, start and count.
#[unsafe(no_mangle)]
pub extern "C" fn pagestore_examine(
    volume: &[u8],
    page: u32,
    buffer: &mut [u8],
    report: &mut [u32],
) -> u32
    ensures answer { result
        ≡ (examine_of volume.now page buffer.old report.old).refusal }
    ensures buffer { buffer.new
        ≡ (examine_of volume.now page buffer.old report.old).buffer }
    ensures report { report.new
        ≡ (examine_of volume.now page buffer.old report.old).report }
{
    readers::pagestore_examine(volume, page, buffer, report)
}

// The forecast of every page's repair.
#[unsafe(no_mangle)]
pub extern "C" fn pagestore_forecast(volume: &[u8], figures: &mut [u32]) -> u32
    ensures answer { result ≡ (tell_forecast volume.now figures.old).refusal }
    ensures figures { figures.new
        ≡ (tell_forecast volume.now figures.old).figures }
{
    readers::pagestore_forecast(volume, figures)
}

// The length of a volume's archive: 0 where it is refused.
#[unsafe(no_mangle)]
pub extern "C" fn pagestore_archive_length(volume: &[u8]) -> u32
    ensures { result ≡ size_number (size_of volume.now) }
{
    readers::pagestore_archive_length(volume)
}

// The archive's writer.
#[unsafe(no_mangle)]
pub extern "C" fn pagestore_archive_write(volume: &[u8], buffer: &mut [u8]) -> u32
    ensures answer { result ≡ refusal_of (archive_of volume.now buffer.old).answer }
    ensures buffer { buffer.new ≡ (archive_of volume.now buffer.old).buffer }
{
    readers::pagestore_archive_write(volume, buffer)
}

// The number of an archive's pages.
#[unsafe(no_mangle)]
pub extern "C" fn pagestore_archive_pages(archive: &[u8]) -> u32
    ensures { result ≡ archive_pages archive.now }
{
    readers::pagestore_archive_pages(archive)
}

// The archive's reader.
#[unsafe(no_mangle)]
pub extern "C" fn pagestore_archive_read(archive: &[u8], area: &mut [u8]) -> u32
    ensures answer { result ≡ refusal_of (read_of archive.now area.old).answer }
    ensures area { area.new ≡ (read_of archive.now area.old).buffer }
{
    readers::pagestore_archive_read(archive, area)
}

// Two volumes' logs held against each other.
#[unsafe(no_mangle)]
pub extern "C" fn pagestore_compare(first: &[u8], second: &[u8], report: &mut [u32]) -> u32
    ensures answer { result
        ≡ (mirrors.compare_of first.now second.now report.old).refusal }
    ensures report { report.new
        ≡ (mirrors.compare_of first.now second.now report.old).report }
{
    readers::pagestore_compare(first, second, report)
}
