//! The file that several debug files share, by its build id.
ghost use Rattle.std.specs.Prelude.{◌≡◌, map, string_bytes};
ghost use Rattle.std.specs.Option.{option_map};
ghost use Rattle.blz_bundle.specs.Alternative.{alternative, altlink_lead, has_build_id};
ghost use Rattle.blz_bundle.specs.FileAnswers.{Finds};
ghost use Rattle.blz_bundle.specs.Outcomes.{Concludes, FilesStay};
ghost use Rattle.blz_bundle.specs.OwnedViews.{file_at};
ghost use Rattle.blz_bundle.specs.LeadViews.{lead_view};
ghost use Rattle.blz_links.specs.Counts.{Rose};
ghost use Rattle.blz_links.specs.LinkViews.{altlink_view};

use crate::agreement::Compared;
use crate::lead::{FileLead, Mark, led};
use crate::open_file::OpenFile;
use blz_error::Result;
use blz_links::{DebugAltlink, Files};
use std::alloc::Global;

/// The file to which the `.gnu_debugaltlink` of a debug file leads (GNU debug links); it has to have the build id of the
/// link. None without a link, and where no candidate is there.
pub fn find_alternative<F: Files>(
    alloc: Global,
    files: &mut F,
    dirs: &[String],
    debug: &OpenFile,
) -> Result<Option<OpenFile>>
    ensures value { Concludes (option_map file_at) result
        (Rose (F.faults files.old) (F.faults files.new)) (Finds (F.contents files.old)
        (λ answers. alternative answers (map string_bytes dirs.now) (file_at debug.now))) }
    ensures stay { FilesStay F.contents F.stamps F.faults files.old files.new }
{
    let link = debug.debug_altlink(alloc)?;
    led(alloc, files, dirs, debug, lead_of(link))
}

fn lead_of(link: Option<DebugAltlink<'_>>) -> Option<FileLead<'_>>
    ensures { option_map lead_view result
        ≡ option_map altlink_lead (option_map altlink_view link.entry) }
{
    match link {
        Some(link) => Some(FileLead {
            target: link.path,
            build_id: Some(link.build_id),
            mark: Mark::BuildId(link.build_id),
        }),
        None => None,
    }
}

/// Refused with both build ids where a file has another than was recorded, or none.
pub(crate) fn check_build_id(alloc: Global, file: &OpenFile, recorded: &[u8]) -> Result<()>
    ensures { Concludes (λ _. tt) result ⊥
        (λ found. has_build_id recorded.now (file_at file.now) ≡ found) }
{
    let text = "debug altlink destination has another build ID";
    match file.build_id(alloc) {
        Some(actual) => Compared { actual, recorded }.agree(alloc, actual == recorded, text),
        None => {
            let compared = Compared {
                actual: &[],
                recorded,
            };
            compared.agree(alloc, false, text)
        },
    }
}
