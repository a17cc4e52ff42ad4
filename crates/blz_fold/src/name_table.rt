//! Numbers for names.
ghost use Rattle.std.specs.Prelude.{◌≡◌, ◌∷◌, ◌++◌, IfOk, List, ℕ, OnOk, [], map, option_map, slice_get};
ghost use Rattle.std.specs.List.{AllZip};
ghost use Rattle.blz_elf.specs.AnswerView.{answer_view};
ghost use Rattle.blz_fold.specs.Naming.{names_of, shown};
ghost use Rattle.blz_fold.specs.Numbered.{Grows, Spells};

use blz_elf::{Answer, InlinedFn};
use indexmap::IndexSet;
use std::alloc::{AllocError, Global};
use std::marker::Model;

/// Distinct names, each with a number: its index.
#[derive(Drop)]
pub(crate) struct NameTable<'b> {
    names: IndexSet<&'b str>,
}

impl<'b> Model for NameTable<'b> {
    ghost use Rattle.std.specs.Prelude.{List, ℕ, map};

    ghost Value = { List (List ℕ) };

    ghost view = { λ t. map (λ k. k.now) t.names.keys };
}

impl<'b> NameTable<'b> {
    /// No names.
    pub(crate) fn new(alloc: Global) -> NameTable<'b>
        ensures { result ≡ [] }
    {
        NameTable {
            names: IndexSet::new(alloc),
        }
    }

    // Appends the number of a name.
    fn push_number(&mut self, numbers: &mut Vec<usize>, name: &'b str) -> Result<(), AllocError>
        ensures grown { OnOk result (Grows self.old self.new) }
        ensures spelled { OnOk result ((names : List (List ℕ)) → Spells self.old numbers.old.items names
            → Spells self.new numbers.new.items (names ++ shown name.entry.now ∷ [])) }
    {
        let (number, _) = self.names.insert_full(shown(name))?;
        numbers.push(number)?;
        Ok(())
    }

    // Appends the numbers of the names of calls.
    fn push_calls(
        &mut self,
        numbers: &mut Vec<usize>,
        calls: &[InlinedFn<'b>],
    ) -> Result<(), AllocError>
        ensures grown { OnOk result (Grows self.old self.new) }
        ensures spelled { OnOk result ((names : List (List ℕ)) → Spells self.old numbers.old.items names
            → Spells self.new numbers.new.items (names ++ map (λ call. shown call.name.now) calls.now)) }
    {
        for call in calls {
            self.push_number(numbers, call.name)?;
        }
        Ok(())
    }

    // Appends the numbers of the names of an answer.
    fn push_names(
        &mut self,
        numbers: &mut Vec<usize>,
        answer: &Answer<'b>,
    ) -> Result<(), AllocError>
        ensures grown { OnOk result (Grows self.old self.new) }
        ensures spelled { OnOk result ((names : List (List ℕ)) → Spells self.old numbers.old.items names
            → Spells self.new numbers.new.items (names ++ names_of (answer_view answer.now))) }
    {
        match answer {
            Answer::Sym(symbol) => {
                self.push_number(numbers, symbol.name)?;
                self.push_calls(numbers, symbol.inlined.as_slice())
            }
            Answer::NoSym(_) => self.push_number(numbers, ""),
        }
    }

    // The numbers of the names of an answer.
    fn numbers_of(&mut self, alloc: Global, answer: &Answer<'b>) -> Result<Vec<usize>, AllocError>
        ensures grown { OnOk result (Grows self.old self.new) }
        ensures spelled { IfOk result (λ v. Spells self.new v.items (names_of (answer_view answer.now))) }
    {
        let mut numbers = Vec::new(alloc);
        self.push_names(&mut numbers, answer)?;
        Ok(numbers)
    }

    /// The numbers of the names of answers.
    pub(crate) fn lists_of(
        &mut self,
        alloc: Global,
        answers: &[Answer<'b>],
    ) -> Result<Vec<Vec<usize>>, AllocError>
        ensures grown { OnOk result (Grows self.old self.new) }
        ensures spelled { IfOk result (λ v. AllZip (λ answer numbers. Spells self.new numbers.items (names_of (answer_view answer))) answers.now v.items) }
    {
        let mut lists = Vec::with_capacity(alloc, answers.len())?;
        for answer in answers {
            lists.push(self.numbers_of(alloc, answer)?)?;
        }
        Ok(lists)
    }

    /// The name of a number.
    pub(crate) fn get(&self, number: usize) -> Option<&'b str>
        ensures { option_map (λ name. name.now) result ≡ slice_get self.now number }
    {
        self.names.get_index(number).copied()
    }
}

fn shown(name: &str) -> &str
    ensures { result.now ≡ shown name.now }
{
    if name.is_empty() { "??" } else { name }
}
