//! How many bytes a printed text takes, so that its room is made once. A number past 2^64 - 1 stands as that.
ghost use Rattle.std.specs.Prelude.{◌≤◌};

use crate::lines::Lines;
use crate::name_table::NameTable;
use crate::tree::Tree;

/// The bytes of the lines.
pub(crate) fn lines_room(names: &NameTable<'_>, lines: &Lines) -> usize {
    let mut room: usize = 0;
    for i in 0..lines.len() {
        let (numbers, count) = lines.at(i);
        room = room
            .saturating_add(names_room(names, numbers))
            .saturating_add(decimal_room(count) + 1);
    }
    room
}

/// The bytes of the nodes.
pub(crate) fn nodes_room(names: &NameTable<'_>, tree: &Tree<'_>) -> usize {
    let mut room: usize = 0;
    for i in 0..tree.len() {
        let node = tree.at(i);
        room = room
            .saturating_add(names_room(names, tree.names_of(node)))
            .saturating_add(decimal_room(node.count) + decimal_room(node.own) + 2);
    }
    room
}

// The names, each with the byte behind it.
fn names_room(names: &NameTable<'_>, numbers: &[usize]) -> usize {
    let mut room: usize = 0;
    for number in numbers {
        room = room.saturating_add(name_room(names, *number));
    }
    room
}

fn name_room(names: &NameTable<'_>, number: usize) -> usize {
    match names.get(number) {
        Some(name) => name.len().saturating_add(1),
        None => 1,
    }
}

// The digits of a number.
fn decimal_room(number: u64) -> usize
    ensures { result ≤ 20 }
{
    match number.checked_ilog10() {
        Some(log) => log as usize + 1,
        None => 1,
    }
}
