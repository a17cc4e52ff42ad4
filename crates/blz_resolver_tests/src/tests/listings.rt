//! Functions by their names, and all of them.
ghost use Rattle.std.specs.Prelude.{◌≤◌};

use super::built::{Built, LITTLE4, Step, image_of};
use super::functions::nested;
use blz_bytes::ByStdSort;
use blz_checks::Checks;
use blz_elf::{Collect, FindAddrOpts, SymInfo, SymInfoBuf, SymType};
use blz_error::{ErrorKind, Result};
use blz_resolver::ElfResolver;
use blz_runs::{lone, refusal};
use std::alloc::Global;
use std::test::Fail;

const VARIABLES: FindAddrOpts = FindAddrOpts {
    file_offset: false,
    sym_type: SymType::Variable,
};

// why the variables of a name and all of them are refused
fn refused(alloc: Global, resolver: &mut ElfResolver<'_>) -> [Option<ErrorKind>; 2] {
    let orders = &mut ByStdSort;
    let named = refusal(resolver.find_addr(alloc, orders, "first", &VARIABLES));
    let mut nothing = Collect::new(alloc, None);
    let all = refusal(resolver.for_each(alloc, orders, &VARIABLES, &mut nothing));
    [named, all]
}

fn variables(alloc: Global) -> Result<[Option<ErrorKind>; 2]> {
    let image = nested(alloc, LITTLE4)?;
    let mut resolver = ElfResolver::from_bundle(alloc, &mut ByStdSort, &lone(&image))?;
    Ok(refused(alloc, &mut resolver))
}

#[test]
fn variables_are_unsupported_beside_debug_information(
    rt: HostRuntime,
) -> std::result::Result<(), Fail> {
    let mut checks = Checks::new();
    let unsupported = Some(ErrorKind::Unsupported);
    checks.gives(variables(rt.alloc()), [unsupported, unsupported]);
    checks.result()
}

// the first unit has m, n and n, the second m, and the third n
fn of_three_units(alloc: Global) -> Built {
    let steps = [
        Step::Unit(0x10, 0x30),
        Step::Function("m", 0x10, 0x10),
        Step::Function("n", 0x20, 0x10),
        Step::Function("n", 0x30, 0x10),
        Step::EndUnit,
        Step::Unit(0x40, 0x10),
        Step::Function("m", 0x40, 0x10),
        Step::EndUnit,
        Step::Unit(0x50, 0x10),
        Step::Function("n", 0x50, 0x10),
        Step::EndUnit,
    ];
    image_of(alloc, LITTLE4, &steps, &[])
}

fn are_at(infos: &[SymInfo<'_>], addrs: &[u64]) -> bool {
    for (info, addr) in infos.iter().zip(addrs) {
        if info.addr != *addr {
            return false;
        }
    }
    infos.len() == addrs.len()
}

// whether the functions of a name are at these addresses
fn are_named(alloc: Global, image: Built, name: &str, addrs: &[u64]) -> Result<bool> {
    let image = image?;
    let mut resolver = ElfResolver::from_bundle(alloc, &mut ByStdSort, &lone(&image))?;
    let opts = FindAddrOpts::default();
    let infos = resolver.find_addr(alloc, &mut ByStdSort, name, &opts)?;
    Ok(are_at(infos.as_slice(), addrs))
}

#[test]
fn each_unit_gives_its_first_function_of_a_name(rt: HostRuntime) -> std::result::Result<(), Fail> {
    let mut checks = Checks::new();
    let alloc = rt.alloc();
    checks.gives(
        are_named(alloc, of_three_units(alloc), "n", &[0x20, 0x50]),
        true,
    );
    checks.gives(are_named(alloc, of_three_units(alloc), "", &[]), true);
    checks.result()
}

fn have_names(infos: &[SymInfoBuf], names: &[&str]) -> bool {
    for (info, name) in infos.iter().zip(names) {
        if info.name.as_str() != *name {
            return false;
        }
    }
    infos.len() == names.len()
}

/// Whether the functions of an image that are shown, up to that of a number, have these names.
pub fn are_shown(alloc: Global, image: Built, last: usize, names: &[&str]) -> Result<bool>
    requires { 1 ≤ last }
{
    let image = image?;
    let mut resolver = ElfResolver::from_bundle(alloc, &mut ByStdSort, &lone(&image))?;
    let mut shown = Collect::new(alloc, Some(last));
    resolver.for_each(alloc, &mut ByStdSort, &FindAddrOpts::default(), &mut shown)?;
    Ok(have_names(shown.infos(), names))
}

#[test]
fn all_functions_are_listed_up_to_a_number(rt: HostRuntime) -> std::result::Result<(), Fail> {
    let mut checks = Checks::new();
    let alloc = rt.alloc();
    let all = ["m", "n", "n", "m", "n"];
    checks.gives(are_shown(alloc, of_three_units(alloc), 9, &all), true);
    let four = ["m", "n", "n", "m"];
    checks.gives(are_shown(alloc, of_three_units(alloc), 4, &four), true);
    checks.result()
}
