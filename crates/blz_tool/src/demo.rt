//! The demo: an image that is made in memory, prepared, and asked for all its functions.
ghost use Rattle.std.specs.Prelude.{◌≡◌, ◌<◌, ◌≤◌, ◌++◌, true, IfErr, IfOk, OnOk, map};
ghost use Rattle.blz_elf.specs.declared.opts.FindSymOpts.TheVariants.{CodeInfo};
ghost use Rattle.blz_model.specs.Part.{Exactly, Gives, all_good};
ghost use Rattle.blz_resolver.specs.FormatKinds.{IsMemoryOrFormat};
ghost use Rattle.blz_resolver.specs.Resolver.{has_debug};
ghost use Rattle.blz_resolver.specs.Scan.{answers_of};
ghost use Rattle.blz_tool.specs.Summary.{asked_addresses, asked_at, count_line, summary, summary_text, tallied, tally_part};

use crate::demo_file::{FIRST_ADDRESS, demo_image};
use crate::tally::Tally;
use blz_bytes::{Orders, Steps};
use blz_elf::FindSymOpts;
use blz_error::Result;
use blz_program::push_decimal;
use blz_resolver::{Bundle, ElfResolver};
use std::alloc::{AllocError, Global};
use std::marker::Brand;
use std::sync::ledger::{Blank, Ledger};

/// The four lines of the demo with `n` functions: the functions, the addresses, the answers with a symbol, and the sum of
/// their lines. Refused by the first mark that the scan of the demo's image meets.
pub fn summary<O: Orders>(alloc: Global, orders: &mut O, n: u32) -> Result<Vec<u8>>
    requires some { 1 ≤ n }
    requires few { n ≤ 100000 }
    ensures value { Gives (λ v. v.items) result (summary n) }
    ensures kinds { IfErr result (λ e. IsMemoryOrFormat e.kind) }
{
    summed(alloc, orders, n)
}

#[tactic(auto, unfolding(crate::specs::Summary::summary))]
fn summed<O: Orders>(alloc: Global, orders: &mut O, n: u32) -> Result<Vec<u8>>
    requires some { 1 ≤ n }
    requires few { n ≤ 100000 }
    ensures { Gives (λ v. v.items) result (summary n) }
{
    let image = demo_image(alloc, n)?;
    let tally = tally(alloc, orders, &image, n)?;
    Ok(summary_text(alloc, n, tally)?)
}

fn tally<O: Orders>(alloc: Global, orders: &mut O, image: &[u8], n: u32) -> Result<Tally>
    requires { n ≤ 100000 }
    ensures { Gives (λ t. t) result (tallied image.now n) }
{
    let bundle = Bundle {
        image,
        module: None,
        linkee: None,
        supplementary: None,
        package: None,
    };
    match ElfResolver::from_bundle(alloc, orders, &bundle) {
        Ok(mut resolver) => prepared_tally(alloc, orders, &mut resolver, n),
        Err(error) => Err(error),
    }
}

fn prepared_tally<O: Orders>(
    alloc: Global,
    orders: &mut O,
    resolver: &mut ElfResolver<'_>,
    n: u32,
) -> Result<Tally>
    requires { n ≤ 100000 }
    ensures { Gives (λ t. t) result (tally_part (all_good (map
        (answers_of resolver.old.images (has_debug resolver.old) CodeInfo) (asked_addresses n)))) }
{
    resolver.prepare(alloc, orders)?;
    counted::<Brand>(resolver, n, Blank::new(1))
}

// Asks a prepared resolver for two addresses of each function, in it and after it.
fn counted<L: Ledger>(resolver: &ElfResolver<'_>, n: u32, blank: Blank) -> Result<Tally>
    requires name { blank.name ≡ L.name }
    requires parts { blank.parts ≡ L.parts }
    requires some { 0 < blank.parts }
    requires is_prepared { resolver.now.prepared ≡ true }
    requires few { n ≤ 100000 }
    ensures { Exactly (λ t. t) result (tally_part (all_good (map
        (answers_of resolver.now.images (has_debug resolver.now) CodeInfo) (asked_addresses n)))) }
{
    let mut steps: Steps<L> = Steps::new(blank);
    let mut tally = Tally::new();
    for j in 0..2 * n {
        match resolver.find_sym_prepared(asked_at(j), &FindSymOpts::CodeInfo, &mut steps) {
            Ok(answer) => tally = tally.with_answer(&answer),
            Err(error) => return Err(error),
        }
    }
    Ok(tally)
}

fn asked_at(j: u32) -> u64
    ensures { result ≡ asked_at j }
{
    FIRST_ADDRESS + 8 * u64::from(j)
}

fn summary_text(alloc: Global, n: u32, tally: Tally) -> std::result::Result<Vec<u8>, AllocError>
    requires { n ≤ 100000 }
    ensures { IfOk result (λ v. v.items ≡ summary_text n tally) }
{
    let mut out = Vec::new(alloc);
    push_count(&mut out, "functions", u64::from(n))?;
    push_count(&mut out, "addresses", 2 * u64::from(n))?;
    push_count(&mut out, "found", tally.found)?;
    push_count(&mut out, "lines", tally.lines)?;
    Ok(out)
}

fn push_count(out: &mut Vec<u8>, name: &str, count: u64) -> std::result::Result<(), AllocError>
    ensures { OnOk result (out.new.items ≡ out.old.items ++ count_line name.now count) }
{
    out.extend_from_slice(name.as_bytes())?;
    out.push(b' ')?;
    push_decimal(out, count)?;
    out.push(b'\n')?;
    Ok(())
}
