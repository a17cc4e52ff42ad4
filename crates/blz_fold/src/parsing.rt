//! The text of stacks.
ghost use Rattle.std.specs.Prelude.{◌≡◌, ◌<◌, ◌^◌, ◌∷◌, [], IfErr, IfNone, IfOk, IfSome, Ok, length, option_map};
ghost use Rattle.blz_program.specs.Words.{each_address};
ghost use Rattle.blz_fold.specs.AddressStacks.{count_total};
ghost use Rattle.blz_fold.specs.StackLines.{IsFault, cut_at_blank, parsed, split, stack_of};

use crate::{Addresses, Stack, StackFault, Stacks};
use blz_program::{address, first_line, number_up_to};
use memchr::memchr;
use std::alloc::{AllocError, Global};

/// The stacks of a text: one for each line, in order and to the end. A line is a count from 1 to 2^64 - 1 in decimal
/// without leading zeros, a blank, and addresses of 1 to 16 hexadecimal digits joined by `;`, the outermost first; each
/// ends at a line feed, which the last may lack. Refused by the first line that is not of its form, or with which the
/// sum of the counts passes 2^64 - 1.
pub fn parse_stacks(alloc: Global, bytes: &[u8]) -> Result<Stacks, StackFault>
    ensures stacks { IfOk result (λ stacks. parsed bytes.now ≡ Ok stacks) }
    ensures fault { IfErr result (λ fault. IsFault fault (parsed bytes.now)) }
    ensures small { IfOk result (λ stacks. count_total stacks < 2 ^ 64) }
{
    let mut stacks = Vec::new(alloc);
    let mut rest = bytes;
    let mut number: u64 = 0;
    let mut total: u64 = 0;
    while let Some((line, behind)) = first_line(rest) {
        number += 1;
        let Some(stack) = parse_line(alloc, line)? else {
            return Err(StackFault::Line(number));
        };
        let Some(sum) = total.checked_add(stack.count) else {
            return Err(StackFault::Total(number));
        };
        total = sum;
        stacks.push(stack)?;
        rest = behind;
    }
    Ok(Stacks::from_vec(stacks))
}

// The stack of a line, None where it is not of its form.
fn parse_line(alloc: Global, line: &[u8]) -> Result<Option<Stack>, AllocError>
    ensures { IfOk result (λ stack. stack ≡ stack_of line.now) }
{
    let Some((word, text)) = cut_at_blank(line) else {
        return Ok(None);
    };
    let Some(count) = number_up_to(word, u64::MAX) else {
        return Ok(None);
    };
    match parse_addresses(alloc, text)? {
        Some(items) => Ok(Some(Stack {
            count,
            addresses: Addresses::from_vec(items),
        })),
        None => Ok(None),
    }
}

// What stands before the first blank, and what behind it.
fn cut_at_blank(line: &[u8]) -> Option<(&[u8], &[u8])>
    ensures { option_map (λ parts. (parts.0.now, parts.1.now)) result ≡ cut_at_blank line.now }
{
    match memchr(b' ', line) {
        Some(blank) => Some((&line[..blank], &line[blank + 1..])),
        None => None,
    }
}

// The addresses between the semicolons, None where a piece is none.
fn parse_addresses(alloc: Global, text: &[u8]) -> Result<Option<Vec<u64>>, AllocError>
    ensures { IfOk result (λ r. option_map (λ v. v.items) r ≡ each_address (split text.now)) }
{
    let mut addresses = Vec::new(alloc);
    let mut rest = text;
    while let Some((piece, behind)) = cut_at_semicolon(rest) {
        match address(piece) {
            Some(addr) => addresses.push(addr)?,
            None => return Ok(None),
        }
        rest = behind;
    }
    match address(rest) {
        Some(addr) => addresses.push(addr)?,
        None => return Ok(None),
    }
    Ok(Some(addresses))
}

// What stands before the first semicolon, and what behind it.
fn cut_at_semicolon(text: &[u8]) -> Option<(&[u8], &[u8])>
    ensures none { IfNone result (split text.now ≡ text.now ∷ []) }
    ensures some { IfSome result (λ parts. split text.now ≡ parts.0.now ∷ split parts.1.now) }
    ensures shorter { IfSome result (λ parts. length parts.1.now < length text.now) }
{
    match memchr(b';', text) {
        Some(end) => Some((&text[..end], &text[end + 1..])),
        None => None,
    }
}
