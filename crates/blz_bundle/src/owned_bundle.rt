//! The images of which answers are made, with their own bytes.
ghost use Rattle.std.specs.Prelude.{◌≡◌, Some, string_bytes};
ghost use Rattle.std.specs.Option.{option_map};
ghost use Rattle.blz_bundle.specs.BundleViews.{bundle_view, companion_view};
ghost use Rattle.blz_bundle.specs.Images.{alone};
ghost use Rattle.blz_bundle.specs.OpenFiles.{images_in, named};
ghost use Rattle.blz_bundle.specs.OwnedViews.{file_at};

use crate::open_file::OpenFile;
use crate::{Bundle, Companion};
use std::marker::Model;

/// An image and its companions, with their own bytes and texts.
pub struct OwnedBundle {
    main: OpenFile,
    linkee: Option<OpenFile>,
    supplementary: Option<OpenFile>,
    package: Option<OpenFile>,
}

// Written out, so that letting go of one is a call, which is proved once, and not a walk through it at each place.
impl Drop for OwnedBundle {
    fn drop(self) {
        let OwnedBundle {
            main: _,
            linkee: _,
            supplementary: _,
            package: _,
        } = self;
    }
}

impl Model for OwnedBundle {
    ghost use Rattle.blz_bundle.specs.Images.{ImageSet};

    ghost Value = { ImageSet };

    ghost use Rattle.blz_bundle.specs.OwnedViews.{inside_view};

    ghost view = { inside_view };
}

impl OwnedBundle {
    // A file and its companions.
    pub(crate) fn with_companions(
        main: OpenFile,
        linkee: Option<OpenFile>,
        supplementary: Option<OpenFile>,
        package: Option<OpenFile>,
    ) -> OwnedBundle
        ensures { result ≡ images_in (record { main = file_at main; linkee = option_map file_at linkee; supplementary = option_map file_at supplementary; package_file = option_map file_at «package» }) }
    {
        OwnedBundle {
            main,
            linkee,
            supplementary,
            package,
        }
    }

    /// An image without companions, whose module is named by its path; takes no memory.
    pub fn of_image(image: Vec<u8>, path: String) -> OwnedBundle
        ensures { result
            ≡ alone (record { image = image.items; module_name = Some (string_bytes path) }) }
    {
        OwnedBundle::with_companions(OpenFile { path, image }, None, None, None)
    }

    /// The same images, borrowed.
    pub fn bundle(&self) -> Bundle<'_>
        ensures { bundle_view result ≡ self.now }
    {
        let main = self.main.companion();
        Bundle {
            image: main.image,
            module: main.module,
            linkee: companion_of(&self.linkee),
            supplementary: companion_of(&self.supplementary),
            package: companion_of(&self.package),
        }
    }
}

fn companion_of(file: &Option<OpenFile>) -> Option<Companion<'_>>
    ensures { option_map companion_view result ≡ option_map named (option_map file_at file.now) }
{
    match file {
        Some(file) => Some(file.companion()),
        None => None,
    }
}
