//! The debug file of an image.
ghost use Rattle.std.specs.Prelude.{◌≡◌, map, string_bytes};
ghost use Rattle.std.specs.Option.{option_map};
ghost use Rattle.blz_bundle.specs.FileAnswers.{Finds};
ghost use Rattle.blz_bundle.specs.Linked.{has_checksum, link_lead, linked};
ghost use Rattle.blz_bundle.specs.Outcomes.{Concludes, FilesStay};
ghost use Rattle.blz_bundle.specs.OwnedViews.{file_at};
ghost use Rattle.blz_bundle.specs.LeadViews.{lead_view};
ghost use Rattle.blz_links.specs.Counts.{Rose};
ghost use Rattle.blz_links.specs.LinkViews.{link_view};

use crate::agreement::Compared;
use crate::lead::{FileLead, Mark, led};
use crate::open_file::OpenFile;
use blz_error::Result;
use blz_links::{DebugLink, Files, debug_link_crc32};
use std::alloc::Global;

/// The file to which the `.gnu_debuglink` of an image leads (GNU debug links, Separate Debug Files); it has to have the
/// checksum of the link. None without a link, and where no candidate is there.
pub fn find_linkee<F: Files>(
    alloc: Global,
    files: &mut F,
    dirs: &[String],
    main: &OpenFile,
) -> Result<Option<OpenFile>>
    ensures value { Concludes (option_map file_at) result
        (Rose (F.faults files.old) (F.faults files.new)) (Finds (F.contents files.old)
        (λ answers. linked answers (map string_bytes dirs.now) (file_at main.now))) }
    ensures stay { FilesStay F.contents F.stamps F.faults files.old files.new }
{
    let link = main.debug_link(alloc)?;
    led(alloc, files, dirs, main, lead_of(alloc, main, link))
}

fn lead_of<'f>(
    alloc: Global,
    main: &'f OpenFile,
    link: Option<DebugLink<'f>>,
) -> Option<FileLead<'f>>
    ensures { option_map lead_view result ≡
        option_map (link_lead (file_at main.entry.now).image) (option_map link_view link.entry) }
{
    match link {
        Some(link) => Some(FileLead {
            target: link.file,
            build_id: main.build_id(alloc),
            mark: Mark::Checksum(link.checksum),
        }),
        None => None,
    }
}

/// Refused with both checksums where a file has another than was recorded.
pub(crate) fn check_checksum(alloc: Global, file: &OpenFile, recorded: u32) -> Result<()>
    ensures { Concludes (λ _. tt) result ⊥
        (λ found. has_checksum recorded (file_at file.now) ≡ found) }
{
    let actual = debug_link_crc32(&file.image);
    let compared = Compared {
        actual: &actual.to_be_bytes(),
        recorded: &recorded.to_be_bytes(),
    };
    compared.agree(
        alloc,
        actual == recorded,
        "debug link destination has another checksum",
    )
}
