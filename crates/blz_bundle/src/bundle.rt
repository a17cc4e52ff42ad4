//! The images of which answers are made, borrowed.
ghost use Rattle.std.specs.Prelude.{◌≡◌};

/// A further image beside the main one, taken as it stands.
#[derive(Clone, Copy)]
pub struct Companion<'b> {
    /// The bytes of the image.
    pub image: &'b [u8],
    /// The name of its module, mostly its path.
    pub module: Option<&'b str>,
}

/// An image and its companions.
#[derive(Clone, Copy)]
pub struct Bundle<'b> {
    /// The bytes of the image.
    pub image: &'b [u8],
    /// The name of its module, mostly its path.
    pub module: Option<&'b str>,
    /// The debug file to which the image's link leads, where it is another file.
    pub linkee: Option<Companion<'b>>,
    /// The supplementary file, which several debug files share (DWARF 5 section 7.3.6).
    pub supplementary: Option<Companion<'b>>,
    /// The package of split debug information (DWARF 5 section 7.3.5).
    pub package: Option<Companion<'b>>,
}

impl<'b> Bundle<'b> {
    ghost use Rattle.blz_bundle.specs.Images.{debug_file};
    ghost use Rattle.blz_bundle.specs.BundleViews.{bundle_view, companion_view};

    /// The debug file: the linkee where there is one, else the image.
    pub fn debug_file(&self) -> Companion<'b>
        ensures { companion_view result ≡ debug_file (bundle_view self.now) }
    {
        match self.linkee {
            Some(linkee) => linkee,
            None => Companion {
                image: self.image,
                module: self.module,
            },
        }
    }
}
