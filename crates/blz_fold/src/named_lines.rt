//! Distinct stacks of names with their counts.
ghost use Rattle.std.specs.Prelude.{◌≡◌, ◌<◌, ◌^◌, IfErr, IfOk};
ghost use Rattle.std.specs.Str.{bytes_eq};
ghost use Rattle.blz_model.specs.Part.{Gives};
ghost use Rattle.blz_resolver.specs.BundleViews.{bundle_view};
ghost use Rattle.blz_resolver.specs.FormatKinds.{IsMemoryOrFormat};
ghost use Rattle.blz_fold.specs.AddressStacks.{count_total};
ghost use Rattle.blz_fold.specs.Counted.{nodes_of};
ghost use Rattle.blz_fold.specs.Naming.{named_lines};
ghost use Rattle.blz_fold.specs.Runs.{folded_text};

use crate::counting::counted_lines;
use crate::distinct_addresses::distinct_addresses;
use crate::lines::Lines;
use crate::name_table::NameTable;
use crate::printing::{print_lines, print_nodes};
use crate::texts::{fold_lines, fold_nodes};
use crate::tree::Tree;
use crate::{Folded, Stacks};
use blz_bytes::Orders;
use blz_elf::FindSymOpts;
use blz_error::Result;
use blz_resolver::{Bundle, symbolize};
use std::alloc::{AllocError, Global};
use std::marker::Model;

/// Distinct stacks of names, each with the sum of its counts. A name is kept once, and stands in the lines as a number.
#[derive(Drop)]
pub(crate) struct NamedLines<'b> {
    names: NameTable<'b>,
    lines: Lines,
}

impl<'b> Model for NamedLines<'b> {
    ghost use Rattle.std.specs.Prelude.{List, map};
    ghost use Rattle.blz_error.specs.Texts.{Bytes};
    ghost use Rattle.blz_fold.specs.Counted.{Counted};
    ghost use Rattle.blz_fold.specs.Numbered.{AreSpelled, spelled};

    ghost Value = { List (Counted Bytes) };

    ghost view = { λ n. map (spelled n.names) n.lines };

    ghost invariant = { λ n. AreSpelled n.names n.lines };
}

impl<'b> NamedLines<'b> {
    /// The stacks of names of stacks of addresses. Each distinct address is resolved once.
    pub(crate) fn of<O: Orders>(
        alloc: Global,
        orders: &mut O,
        bundle: &Bundle<'b>,
        stacks: &Stacks,
    ) -> Result<NamedLines<'b>>
        requires { count_total stacks.now < 2 ^ 64 }
        ensures value { Gives (λ lines. lines) result (named_lines (bundle_view bundle.now) stacks.now) }
        ensures kinds { IfErr result (λ e. IsMemoryOrFormat e.kind) }
    {
        let addresses = distinct_addresses(alloc, stacks.as_slice())?;
        let answers = symbolize(
            alloc,
            orders,
            bundle,
            addresses.as_slice(),
            &FindSymOpts::CodeInfoAndInlined,
        )?;
        let mut names = NameTable::new(alloc);
        let lists = names.lists_of(alloc, &answers)?;
        let lines = counted_lines(alloc, stacks.as_slice(), &addresses, &lists)?;
        Ok(NamedLines { names, lines })
    }

    /// The lines with their texts, and their beginnings.
    pub(crate) fn folded(&self, alloc: Global) -> std::result::Result<Folded, AllocError>
        ensures lines { IfOk result (λ folded. folded.lines ≡ self.now) }
        ensures nodes { IfOk result (λ folded. folded.nodes ≡ nodes_of bytes_eq self.now) }
    {
        let lines = fold_lines(alloc, &self.names, &self.lines)?;
        let tree = Tree::of(alloc, &self.lines)?;
        let nodes = fold_nodes(alloc, &self.names, &lines, &tree)?;
        Ok(Folded::new(lines, nodes))
    }

    /// The printed text of the lines, or of their beginnings.
    pub(crate) fn printed(
        &self,
        alloc: Global,
        nodes: bool,
    ) -> std::result::Result<Vec<u8>, AllocError>
        ensures { IfOk result (λ v. v.items ≡ folded_text nodes (record { lines = self.now; nodes = nodes_of bytes_eq self.now })) }
    {
        if nodes {
            let tree = Tree::of(alloc, &self.lines)?;
            print_nodes(alloc, &self.names, &tree)
        } else {
            print_lines(alloc, &self.names, &self.lines)
        }
    }
}
