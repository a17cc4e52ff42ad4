//! The supplementary file that several debug files share.
ghost use Rattle.std.specs.Prelude.{◌≡◌, map, option_and_then, string_bytes};
ghost use Rattle.std.specs.Option.{option_map};
ghost use Rattle.blz_bundle.specs.FileAnswers.{Finds};
ghost use Rattle.blz_bundle.specs.Outcomes.{Concludes, FilesStay};
ghost use Rattle.blz_bundle.specs.OwnedViews.{file_at};
ghost use Rattle.blz_bundle.specs.Supplementary.{is_supplementary, sup_lead, supplementary};
ghost use Rattle.blz_bundle.specs.LeadViews.{lead_view};
ghost use Rattle.blz_links.specs.Counts.{Rose};
ghost use Rattle.blz_links.specs.LinkViews.{sup_view};

use crate::agreement::Compared;
use crate::lead::{FileLead, Mark, led};
use crate::open_file::OpenFile;
use blz_error::{Error, ErrorKind, Result, Str};
use blz_links::{DebugSupInfo, Files};
use std::alloc::Global;

/// The file to which the `.debug_sup` of a debug file leads (DWARF 5 section 7.3.6); it has to say that it is a
/// supplementary file, and to have the checksum of the debug file's section. None without such a section, where it says
/// that the debug file is a supplementary one itself, and where no candidate is there.
pub fn find_supplementary<F: Files>(
    alloc: Global,
    files: &mut F,
    dirs: &[String],
    debug: &OpenFile,
) -> Result<Option<OpenFile>>
    ensures value { Concludes (option_map file_at) result
        (Rose (F.faults files.old) (F.faults files.new)) (Finds (F.contents files.old)
        (λ answers. supplementary answers (map string_bytes dirs.now) (file_at debug.now))) }
    ensures stay { FilesStay F.contents F.stamps F.faults files.old files.new }
{
    let sup = debug.debug_sup(alloc)?;
    led(alloc, files, dirs, debug, lead_of(sup))
}

fn lead_of(sup: Option<DebugSupInfo<'_>>) -> Option<FileLead<'_>>
    ensures { option_map lead_view result
        ≡ option_and_then sup_lead (option_map sup_view sup.entry) }
{
    let sup = sup?;
    let target = sup.path?;
    Some(FileLead {
        target,
        build_id: None,
        mark: Mark::Supplementary(sup.checksum),
    })
}

/// Refused where a file does not say that it is a supplementary one, or has another checksum than was recorded.
pub(crate) fn check_supplementary(alloc: Global, file: &OpenFile, recorded: &[u8]) -> Result<()>
    ensures { Concludes (λ _. tt) result ⊥
        (λ found. is_supplementary recorded.now (file_at file.now) ≡ found) }
{
    let Some(sup) = file.debug_sup(alloc)? else {
        return Err(Error::new(
            ErrorKind::InvalidData,
            Str::fixed("debug sup destination has no .debug_sup section"),
        ));
    };
    let flags = Compared {
        actual: &[0],
        recorded: &[1],
    };
    flags.agree(
        alloc,
        sup.is_supplementary,
        "debug sup destination is not a supplementary file",
    )?;
    let checksums = Compared {
        actual: sup.checksum,
        recorded,
    };
    checksums.agree(
        alloc,
        sup.checksum == recorded,
        "debug sup destination has another checksum",
    )
}
