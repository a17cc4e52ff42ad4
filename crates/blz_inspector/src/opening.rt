//! Opening a file that is asked.
ghost use Rattle.std.specs.Prelude.{◌≡◌, ◌⊎◌, ◌≤◌, IfOk, IfErr};
ghost use Rattle.blz_error.specs.declared.kind.ErrorKind.TheVariants.{OutOfMemory};
ghost use Rattle.blz_model.specs.Part.{Good, Broken};
ghost use Rattle.blz_links.specs.Counts.{Rose};
ghost use Rattle.blz_bundle.specs.Outcomes.{HasKindCause};
ghost use Rattle.blz_inspector.specs.SourceViews.{elf_asked};
ghost use Rattle.blz_inspector.specs.Uses.{OpensAlone, OpensAsked, told_by};

use crate::source::Elf;
use blz_bundle::OwnedBundle;
use blz_error::Result;
use blz_links::Files;
use blz_resolver::ElfResolver;
use std::alloc::Global;

// The image at a path, without companions.
#[tactic(auto, unfolding(crate::specs::Uses::image_alone))]
fn image_alone<F: Files>(alloc: Global, files: &mut F, path: &str) -> Result<OwnedBundle>
    ensures good { IfOk result (λ b. OpensAlone (F.contents files.old) path.now (Good b)) }
    ensures mark { IfErr result (λ e. (e.kind ≡ OutOfMemory)
        ⊎ HasKindCause e.kind (Rose (F.faults files.old) (F.faults files.new))
        (OpensAlone (F.contents files.old) path.now (Broken e.kind))) }
    ensures contents { F.contents files.new ≡ F.contents files.old }
    ensures stamps { F.stamps files.new ≡ F.stamps files.old }
    ensures count { F.faults files.old ≤ F.faults files.new }
{
    let image = files.read(alloc, path)?;
    let name = String::from_str(alloc, path)?;
    Ok(OwnedBundle::of_image(image, name))
}

/// Opens a file with the companions that its debug information needs, and without it the image alone.
pub fn opened<F: Files>(alloc: Global, files: &mut F, elf: &Elf) -> Result<OwnedBundle>
    ensures good { IfOk result (λ b. OpensAsked
        (told_by (F.contents files.old) (F.stamps files.old)) (elf_asked elf.now) (Good b)) }
    ensures mark { IfErr result (λ e. (e.kind ≡ OutOfMemory)
        ⊎ HasKindCause e.kind (Rose (F.faults files.old) (F.faults files.new))
        (OpensAsked (told_by (F.contents files.old) (F.stamps files.old)) (elf_asked elf.now)
        (Broken e.kind))) }
    ensures contents { F.contents files.new ≡ F.contents files.old }
    ensures stamps { F.stamps files.new ≡ F.stamps files.old }
    ensures count { F.faults files.old ≤ F.faults files.new }
{
    if elf.debug_syms {
        ElfResolver::open(alloc, files, elf.path.as_str())
    } else {
        image_alone(alloc, files, elf.path.as_str())
    }
}
