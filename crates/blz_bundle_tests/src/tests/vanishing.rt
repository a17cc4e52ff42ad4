//! A file that is gone when it is read.
use super::{refusal, with_common, with_digits};
use blz_bundle::OwnedBundle;
use blz_checks::Checks;
use blz_error::ErrorKind;
use blz_links::{Files, FilesFault, MemoryFiles, Stamp};
use std::alloc::Global;
use std::test::Fail;

// Files that lack `/x/a.debug` when it is read, though it was there before.
#[derive(Drop)]
struct Vanishing {
    files: MemoryFiles,
}

impl Files for Vanishing {
    ghost use Rattle.std.specs.Prelude.{None};

    ghost contents = { λ _. None };

    ghost stamps = { λ _. None };

    ghost faults = { λ v. v.files.faults };

    ghost told_together = { λ _. tt };

    fn read(&mut self, alloc: Global, path: &str) -> Result<Vec<u8>, FilesFault> {
        if path == "/x/a.debug" {
            return Err(FilesFault::NotFound);
        }
        self.files.read(alloc, path)
    }

    fn exists(&mut self, path: &str) -> Result<bool, FilesFault> {
        self.files.exists(path)
    }

    fn canonical(&mut self, alloc: Global, path: &str) -> Result<Option<String>, FilesFault> {
        self.files.canonical(alloc, path)
    }

    fn stamp(&mut self, path: &str) -> Result<Stamp, FilesFault> {
        self.files.stamp(path)
    }
}

#[test]
fn a_debug_file_that_vanishes_is_not_found(rt: HostRuntime) -> Result<(), Fail> {
    let mut checks = Checks::new();
    let alloc = rt.alloc();
    let files = with_digits(alloc, "/x/a.debug").expect(&rt, "refused");
    let mut files = Vanishing { files };
    let opened = OwnedBundle::open(alloc, &mut files, "/x/a");
    checks.same(refusal(opened), Some(ErrorKind::NotFound));
    checks.result()
}

#[test]
fn a_shared_file_that_vanishes_is_not_found(rt: HostRuntime) -> Result<(), Fail> {
    let mut checks = Checks::new();
    let alloc = rt.alloc();
    let files = with_common(alloc, "a.debug", "/x/a.debug").expect(&rt, "refused");
    let mut files = Vanishing { files };
    let opened = OwnedBundle::open(alloc, &mut files, "/x/a");
    checks.same(refusal(opened), Some(ErrorKind::NotFound));
    checks.result()
}
