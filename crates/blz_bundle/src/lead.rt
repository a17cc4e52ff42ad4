//! The file to which a link leads.
ghost use Rattle.std.specs.Prelude.{◌≡◌, map, string_bytes};
ghost use Rattle.std.specs.Option.{option_map};
ghost use Rattle.blz_bundle.specs.FileAnswers.{Finds};
ghost use Rattle.blz_bundle.specs.Following.{led};
ghost use Rattle.blz_bundle.specs.LeadViews.{lead_view, passes};
ghost use Rattle.blz_bundle.specs.Outcomes.{Concludes, FilesStay};
ghost use Rattle.blz_bundle.specs.OwnedViews.{file_at};
ghost use Rattle.blz_links.specs.Counts.{Rose};

use crate::alternative::check_build_id;
use crate::following::follow;
use crate::linked::check_checksum;
use crate::open_file::OpenFile;
use crate::supplementary::check_supplementary;
use blz_error::Result;
use blz_links::Files;
use std::alloc::Global;

/// What the file has to have that a link means, as the link recorded it.
#[derive(Clone, Copy)]
pub enum Mark<'l> {
    /// A checksum of all its bytes.
    Checksum(u32),
    /// A build id.
    BuildId(&'l [u8]),
    /// A section that says that the file is a supplementary one, with a checksum.
    Supplementary(&'l [u8]),
}

/// What a link tells: its target, the build id by which that is looked for too, and what the file has to have.
#[derive(Clone, Copy)]
pub struct FileLead<'l> {
    pub target: &'l str,
    pub build_id: Option<&'l [u8]>,
    pub mark: Mark<'l>,
}

/// The file to which a link leads, with what the link recorded. None without a link, and where no candidate is there.
pub fn led<F: Files>(
    alloc: Global,
    files: &mut F,
    dirs: &[String],
    from: &OpenFile,
    lead: Option<FileLead<'_>>,
) -> Result<Option<OpenFile>>
    ensures value { Concludes (option_map file_at) result
        (Rose (F.faults files.old) (F.faults files.new))
        (Finds (F.contents files.old) (λ answers. led answers (map string_bytes dirs.now)
        (file_at from.now) (option_map lead_view lead.entry))) }
    ensures stay { FilesStay F.contents F.stamps F.faults files.old files.new }
{
    let Some(lead) = lead else {
        return Ok(None);
    };
    let Some(file) = follow(alloc, files, dirs, from, lead.target, lead.build_id)? else {
        return Ok(None);
    };
    check(alloc, &file, lead.mark)?;
    Ok(Some(file))
}

fn check(alloc: Global, file: &OpenFile, mark: Mark<'_>) -> Result<()>
    ensures { Concludes (λ _. tt) result ⊥
        (λ found. passes mark.entry (file_at file.now) ≡ found) }
{
    match mark {
        Mark::Checksum(recorded) => check_checksum(alloc, file, recorded),
        Mark::BuildId(recorded) => check_build_id(alloc, file, recorded),
        Mark::Supplementary(recorded) => check_supplementary(alloc, file, recorded),
    }
}
