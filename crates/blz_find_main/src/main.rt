//! Prints the addresses of names, or of all functions.
#![tactic(auto)]

use blz_bytes::ByStdSort;
use blz_listings::{blz_find, run_find};
use blz_program::run_over;
use blz_resolver::outside::RealSink;
use std::process::ExitCode;

fn main(rt: HostRuntime) -> ExitCode {
    let mut err = RealSink::new(rt.stderr());
    ExitCode::from(run_over(&rt, &blz_find(), &mut err, |words, files, err| {
        run_find(
            rt.alloc(),
            words,
            files,
            &mut ByStdSort,
            &mut RealSink::new(rt.stdout()),
            err,
        )
    }))
}
