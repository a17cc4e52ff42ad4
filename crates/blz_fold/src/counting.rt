//! Counting stacks whose addresses have lists of numbers.
ghost use Rattle.std.specs.Prelude.{◌≡◌, ◌<◌, ◌^◌, ◌++◌, IfOk, OnOk, map, nat_eq};
ghost use Rattle.std.specs.List.{flat_map};
ghost use Rattle.blz_fold.specs.AddressStacks.{count_total};
ghost use Rattle.blz_fold.specs.Counted.{lines_of};
ghost use Rattle.blz_fold.specs.Numbered.{list_at, numbered};

use crate::Stack;
use crate::lines::Lines;
use indexmap::IndexSet;
use std::alloc::{AllocError, Global};

/// The stacks with the lists of their addresses joined, the distinct ones with the sum of their counts. The list of an
/// address stands at its index among the addresses.
pub(crate) fn counted_lines(
    alloc: Global,
    stacks: &[Stack],
    addresses: &IndexSet<u64>,
    lists: &[Vec<usize>],
) -> Result<Lines, AllocError>
    requires { count_total stacks.now < 2 ^ 64 }
    ensures { IfOk result (λ lines. lines ≡ lines_of nat_eq (map (numbered addresses.now.keys (map (λ v. v.items) lists.now)) stacks.now)) }
{
    let mut lines = Lines::new(alloc);
    let mut numbers = Vec::new(alloc);
    for stack in stacks {
        numbers.clear();
        join_lists(&mut numbers, stack.addresses.as_slice(), addresses, lists)?;
        lines.add(alloc, &numbers, stack.count)?;
    }
    Ok(lines)
}

// Appends the lists of addresses, one after another.
fn join_lists(
    numbers: &mut Vec<usize>,
    asked: &[u64],
    addresses: &IndexSet<u64>,
    lists: &[Vec<usize>],
) -> Result<(), AllocError>
    ensures { OnOk result (numbers.new.items ≡ numbers.old.items ++ flat_map (list_at addresses.now.keys (map (λ v. v.items) lists.now)) asked.now) }
{
    for addr in asked {
        numbers.extend_from_slice(list_at(*addr, addresses, lists))?;
    }
    Ok(())
}

fn list_at<'l>(addr: u64, addresses: &IndexSet<u64>, lists: &'l [Vec<usize>]) -> &'l [usize]
    ensures { result.now ≡ list_at addresses.now.keys (map (λ v. v.items) lists.now) addr }
{
    let Some(index) = addresses.get_index_of(&addr) else {
        return &[];
    };
    match lists.get(index) {
        Some(list) => list.as_slice(),
        None => &[],
    }
}
