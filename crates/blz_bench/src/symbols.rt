//! The symbols of a file.
use crate::clocked::now;
use blz_bytes::Orders;
use blz_elf::{Answer, ElfParser, FindAddrOpts};
use blz_error::Result;
use std::alloc::Global;
use std::time::CpuClock;

/// What searches found, and their processor time in nanoseconds.
#[derive(Clone, Copy)]
pub struct Searched {
    /// How many symbols.
    pub found: u64,
    /// The time of decoding, before the first search.
    pub preparing: u64,
    /// The time of all searches.
    pub searching: u64,
}

/// How many of the addresses have a symbol, by prepared caches. An order that does not pass its check makes each search a
/// scan.
pub fn count_found<O: Orders, C: CpuClock>(
    alloc: Global,
    clock: &C,
    image: &[u8],
    orders: &mut O,
    addresses: &[String],
) -> Result<Searched> {
    let begun = now(clock);
    let mut parser = ElfParser::from_mem(alloc, image, None);
    parser.prepare(alloc, orders)?;
    let prepared = now(clock);
    let mut found: u64 = 0;
    for address in addresses {
        let Ok(address) = u64::from_str_radix(address, 16) else {
            continue;
        };
        if let Answer::Sym(_) = parser.find_sym_prepared(address)? {
            found = found.saturating_add(1);
        }
    }
    Ok(Searched {
        found,
        preparing: prepared.saturating_sub(begun),
        searching: now(clock).saturating_sub(prepared),
    })
}

/// How many symbols have one of the names, asked once one was looked for. An order that does not pass its check makes each
/// search a scan.
pub fn count_named<O: Orders, C: CpuClock>(
    alloc: Global,
    clock: &C,
    image: &[u8],
    orders: &mut O,
    names: &[String],
) -> Result<Searched> {
    let opts = FindAddrOpts::default();
    let begun = now(clock);
    let mut parser = ElfParser::from_mem(alloc, image, None);
    parser.find_addr(alloc, orders, "", &opts)?;
    let prepared = now(clock);
    let mut found: u64 = 0;
    for name in names {
        let infos = parser.find_addr(alloc, orders, name, &opts)?;
        found = found.saturating_add(infos.len() as u64);
    }
    Ok(Searched {
        found,
        preparing: prepared.saturating_sub(begun),
        searching: now(clock).saturating_sub(prepared),
    })
}
