//! Lists of calls of a resolver: no answer depends on the calls before it.
ghost use Rattle.std.specs.Prelude.{IfOk};
ghost use Rattle.blz_resolver.specs.Commands.{IsReply, AreReplies};
ghost use Rattle.blz_resolver.specs.Resolver.{SameBundle, has_debug};

use crate::ElfResolver;
use blz_bytes::Orders;
use blz_elf::{Answer, FindAddrOpts, FindSymOpts, SymInfos};
use std::alloc::{AllocError, Global};

/// A call of a resolver.
#[derive(Drop)]
pub enum Command {
    /// `find_sym`
    FindSym(u64, FindSymOpts),
    /// `find_addr`
    FindAddr(String, FindAddrOpts),
    /// `file_offset_to_virt_offset`
    FileOffset(u64),
    /// `unit_count`
    UnitCount,
    /// `prepare`
    Prepare,
}

/// What a call of a resolver gave.
#[derive(Drop)]
pub enum Reply<'b> {
    /// of `find_sym`
    Symbol(blz_error::Result<Answer<'b>>),
    /// of `find_addr`
    Addresses(blz_error::Result<SymInfos<'b>>),
    /// of `file_offset_to_virt_offset`
    Place(blz_error::Result<Option<u64>>),
    /// of `unit_count`
    Count(usize),
    /// of `prepare`
    Prepared(blz_error::Result<()>),
}

fn call<'b, O: Orders>(
    alloc: Global,
    orders: &mut O,
    resolver: &mut ElfResolver<'b>,
    command: &Command,
) -> Reply<'b>
    ensures reply { IsReply resolver.old.images (has_debug resolver.old) command.now result }
    ensures same { SameBundle resolver.old resolver.new }
{
    match command {
        Command::FindSym(addr, opts) => {
            Reply::Symbol(resolver.find_sym(alloc, orders, *addr, opts))
        }
        Command::FindAddr(name, opts) => {
            Reply::Addresses(resolver.find_addr(alloc, orders, name.as_str(), opts))
        }
        Command::FileOffset(place) => Reply::Place(resolver.file_offset_to_virt_offset(*place)),
        Command::UnitCount => Reply::Count(resolver.unit_count()),
        Command::Prepare => Reply::Prepared(resolver.prepare(alloc, orders)),
    }
}

/// The replies to some calls, one after another. Each is settled by the bundle, by whether there is debug information and
/// by its call alone: so a resolver answers it as a fresh one would, whatever was asked, refused or prepared before, and
/// whatever orders were given. Want of memory may come in place of each.
pub fn replies<'b, O: Orders>(
    alloc: Global,
    orders: &mut O,
    resolver: &mut ElfResolver<'b>,
    commands: &[Command],
) -> Result<Vec<Reply<'b>>, AllocError>
    ensures replies { IfOk result
        (λ v. AreReplies resolver.old.images (has_debug resolver.old) commands.now v.items) }
    ensures same { SameBundle resolver.old resolver.new }
{
    let mut replies = Vec::with_capacity(alloc, commands.len())?;
    for command in commands {
        replies.push(call(alloc, orders, resolver, command))?;
    }
    Ok(replies)
}
