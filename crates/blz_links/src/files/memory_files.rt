//! Files in memory.
ghost use Rattle.std.specs.Prelude.{◌≡◌, ◌≢◌, ◌∷◌, [], ℕ, List, Option, Some, None, Ok, Err, OnOk, OnErr, length, string_bytes, option_map, find, filter};
ghost use Rattle.std.specs.Option.{option_copied};
ghost use Rattle.std.specs.Str.{bytes_eq};
ghost use Rattle.std.specs.FinMap.{get};
ghost use Rattle.blz_links.specs.FilesAnswers.{HasFilesCause, ReadTells, ExistsTells, StampTells, CanonicalTells};
ghost use Rattle.blz_links.specs.MemoryPuts.{contents_of, stamps_of, after_call, next_failure, outcome_of, failure_in, listed_at};

use super::{Files, FilesFault, Stamp};
use std::alloc::{AllocError, Global};
use std::collections::VecDeque;
use std::marker::Model;

/// Files in memory: what was put on each path. The calls of the trait are numbered from 1, and those that are listed fail.
#[derive(Drop)]
pub struct MemoryFiles {
    alloc: Global,
    // each put, the newest first
    puts: VecDeque<(String, Vec<u8>)>,
    // the calls that fail, and whether each is denied
    failing: VecDeque<(u64, bool)>,
    calls: u64,
    faults: u64,
}

impl Model for MemoryFiles {
    ghost use Rattle.std.specs.Prelude.{map, string_bytes};
    ghost use Rattle.blz_links.specs.MemoryPuts.{MemoryValue};

    ghost Value = { MemoryValue };

    ghost view = { λ m. record { puts = map (λ e. (string_bytes e.0, e.1.items)) m.puts.items; failing = m.failing.items; calls = m.calls; faults = m.faults } };
}

impl MemoryFiles {
    /// No files, and no call that fails; takes no memory.
    pub fn new(alloc: Global) -> MemoryFiles
        ensures { result ≡ record { puts = []; failing = []; calls = 0; faults = 0 } }
    {
        MemoryFiles {
            alloc,
            puts: VecDeque::new(alloc),
            failing: VecDeque::new(alloc),
            calls: 0,
            faults: 0,
        }
    }

    /// Puts bytes on a path, in place of those that it held.
    pub fn put(&mut self, path: &str, contents: Vec<u8>) -> Result<(), AllocError>
        ensures ok { OnOk result
            (self.new ≡ record self.old { puts = (path.now, contents.items) ∷ self.old.puts }) }
        ensures err { OnErr result (self.new ≡ self.old) }
    {
        let path = String::from_str(self.alloc, path)?;
        self.puts.push_front((path, contents))?;
        Ok(())
    }

    /// Makes the call with that number fail.
    pub fn fail_at(&mut self, call: u64, denied: bool) -> Result<(), AllocError>
        ensures ok { OnOk result
            (self.new ≡ record self.old { failing = (call, denied) ∷ self.old.failing }) }
        ensures err { OnErr result (self.new ≡ self.old) }
    {
        self.failing.push_front((call, denied))?;
        Ok(())
    }

    // Counts a call, and fails where it is listed.
    fn count_call(&mut self) -> Result<(), FilesFault>
        ensures after { self.new ≡ after_call self.old }
        ensures fails { result ≡ outcome_of (next_failure self.old) }
        ensures puts { self.new.puts ≡ self.old.puts }
        ensures cause { HasFilesCause self.old.faults self.new.faults result }
    {
        self.calls = self.calls.saturating_add(1);
        match listed(&self.failing, self.calls) {
            None => Ok(()),
            Some(denied) => {
                self.faults = self.faults.saturating_add(1);
                if denied {
                    Err(FilesFault::Denied)
                } else {
                    Err(FilesFault::Failed)
                }
            }
        }
    }
}

impl MemoryFiles {
    fn held(&self, path: &str) -> Option<&Vec<u8>>
        ensures { option_map (λ v. v.now.items) result ≡ get (contents_of self.now) path.now }
    {
        last_put(&self.puts, path)
    }

    fn stamp_at(&self, path: &str) -> Option<Stamp>
        ensures { result ≡ get (stamps_of self.now) path.now }
    {
        match last_put(&self.puts, path) {
            Some(bytes) => Some(Stamp {
                size: bytes.len() as u64,
                changed: put_count(&self.puts, path),
            }),
            None => None,
        }
    }
}

fn listed(failing: &VecDeque<(u64, bool)>, call: u64) -> Option<bool>
    ensures { result ≡ listed_at call failing.now.items }
{
    failing
        .iter()
        .find(|entry| entry.0 == call)
        .map(|entry| entry.1)
}

fn last_put<'m>(puts: &'m VecDeque<(String, Vec<u8>)>, path: &str) -> Option<&'m Vec<u8>>
    ensures { option_copied result
        ≡ option_map (λ e. e.1) (find (λ e. bytes_eq path.now (string_bytes e.0)) puts.now.items) }
{
    puts.iter()
        .find(|entry| path == entry.0.as_str())
        .map(|entry| &entry.1)
}

fn put_count(puts: &VecDeque<(String, Vec<u8>)>, path: &str) -> u64
    ensures { result ≡ length (filter (λ e. bytes_eq path.now (string_bytes e.0)) puts.now.items) }
{
    puts.iter().filter(|entry| path == entry.0.as_str()).count() as u64
}

impl Files for MemoryFiles {
    ghost contents = { λ m. Some (contents_of m) };

    ghost stamps = { λ m. Some (stamps_of m) };

    ghost faults = { λ m. m.faults };

    ghost use Rattle.blz_links.specs.PutPaths.{same_paths};

    ghost told_together = { same_paths };

    fn read(&mut self, alloc: Global, path: &str) -> Result<Vec<u8>, FilesFault>
        ensures told { ReadTells (Some (contents_of self.old)) path.now result }
        ensures contents_stay { Some (contents_of self.new) ≡ Some (contents_of self.old) }
        ensures stamps_stay { Some (stamps_of self.new) ≡ Some (stamps_of self.old) }
        ensures cause { HasFilesCause self.old.faults self.new.faults result }

        ensures after { self.new ≡ after_call self.old }
        ensures fails { failure_in result ≡ next_failure self.old }
    {
        self.count_call()?;
        match self.held(path) {
            Some(bytes) => Ok(bytes.to_vec(alloc)?),
            None => Err(FilesFault::NotFound),
        }
    }

    fn exists(&mut self, path: &str) -> Result<bool, FilesFault>
        ensures told { ExistsTells (Some (contents_of self.old)) path.now result }
        ensures contents_stay { Some (contents_of self.new) ≡ Some (contents_of self.old) }
        ensures stamps_stay { Some (stamps_of self.new) ≡ Some (stamps_of self.old) }
        ensures never { (result ≢ Err FilesFault.NotFound) × (result ≢ Err FilesFault.Memory) }
        ensures cause { HasFilesCause self.old.faults self.new.faults result }

        ensures after { self.new ≡ after_call self.old }
        ensures fails { failure_in result ≡ next_failure self.old }
    {
        self.count_call()?;
        Ok(self.held(path).is_some())
    }

    fn canonical(&mut self, alloc: Global, path: &str) -> Result<Option<String>, FilesFault>
        ensures told { CanonicalTells (Some (contents_of self.old)) path.now result }
        ensures contents_stay { Some (contents_of self.new) ≡ Some (contents_of self.old) }
        ensures stamps_stay { Some (stamps_of self.new) ≡ Some (stamps_of self.old) }
        ensures never { result ≢ Err FilesFault.NotFound }
        ensures cause { HasFilesCause self.old.faults self.new.faults result }

        ensures after { self.new ≡ after_call self.old }
        ensures fails { failure_in result ≡ next_failure self.old }
    {
        self.count_call()?;
        match self.held(path) {
            Some(_) => Ok(Some(String::from_str(alloc, path)?)),
            None => Ok(None),
        }
    }

    fn stamp(&mut self, path: &str) -> Result<Stamp, FilesFault>
        ensures told { StampTells (Some (stamps_of self.old)) path.now result }
        ensures contents_stay { Some (contents_of self.new) ≡ Some (contents_of self.old) }
        ensures stamps_stay { Some (stamps_of self.new) ≡ Some (stamps_of self.old) }
        ensures never { result ≢ Err FilesFault.Memory }
        ensures cause { HasFilesCause self.old.faults self.new.faults result }

        ensures after { self.new ≡ after_call self.old }
        ensures fails { failure_in result ≡ next_failure self.old }
    {
        self.count_call()?;
        match self.stamp_at(path) {
            Some(stamp) => Ok(stamp),
            None => Err(FilesFault::NotFound),
        }
    }
}
