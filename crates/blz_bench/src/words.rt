//! The words of the command line.

/// What is run over a file.
#[derive(Clone, Copy, Debug, PartialEq, Eq)]
pub enum Layer {
    /// A walk over all entries of all units, with their attributes skipped.
    Entries,
    /// The same, with the names of the entries read.
    Names,
    /// All line programs.
    Lines,
    /// The same, with each row as text.
    Rows,
    /// The symbols of addresses, from prepared caches.
    Symbols,
    /// The same by a scan of all symbols for each address.
    SymbolsByScan,
    /// The addresses of names.
    Find,
    /// The same by a scan of all symbols for each name.
    FindByScan,
    /// The functions of all units.
    Functions,
}

/// What is run over ranges in memory.
#[derive(Clone, Copy, Debug, PartialEq, Eq)]
pub enum List {
    /// Searches of an index of them.
    Ranges,
    /// The same by a scan of all ranges for each.
    RangesByScan,
    /// A sort by std alone.
    Sort,
}

/// What the words ask for.
#[derive(Clone, Copy)]
pub enum Asked<'w> {
    /// A layer over the file of a path, with the words after it.
    File(Layer, &'w str, &'w [String]),
    /// Ranges in memory: their number, and how many of them are searched.
    Memory(List, u64, u64),
}

impl<'w> Asked<'w> {
    /// What the words ask for; None where they ask for nothing that there is.
    pub fn from_words(words: &'w [String]) -> Option<Asked<'w>> {
        let [name, first, rest @ ..] = words else {
            return None;
        };
        let name = name.as_str();
        if let Some(list) = list_named(name) {
            let count = u64::from_str_radix(first, 10).ok()?;
            let searched = u64::from_str_radix(rest.first()?, 10).ok()?;
            return Some(Asked::Memory(list, count, searched));
        }
        Some(Asked::File(layer_named(name)?, first.as_str(), rest))
    }
}

fn list_named(name: &str) -> Option<List> {
    match name {
        "ranges" => Some(List::Ranges),
        "ranges-by-scan" => Some(List::RangesByScan),
        "sort" => Some(List::Sort),
        _ => None,
    }
}

fn layer_named(name: &str) -> Option<Layer> {
    match name {
        "entries" => Some(Layer::Entries),
        "names" => Some(Layer::Names),
        "lines" => Some(Layer::Lines),
        "rows" => Some(Layer::Rows),
        "symbols" => Some(Layer::Symbols),
        "symbols-by-scan" => Some(Layer::SymbolsByScan),
        "find" => Some(Layer::Find),
        "find-by-scan" => Some(Layer::FindByScan),
        "functions" => Some(Layer::Functions),
        _ => None,
    }
}
