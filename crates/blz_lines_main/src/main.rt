//! Prints the lines of an image that have code, or all its rows.
#![tactic(auto)]

use blz_bytes::ByStdSort;
use blz_listings::{blz_lines, run_lines};
use blz_program::run_over;
use blz_resolver::outside::RealSink;
use std::process::ExitCode;

fn main(rt: HostRuntime) -> ExitCode {
    let mut err = RealSink::new(rt.stderr());
    ExitCode::from(run_over(&rt, &blz_lines(), &mut err, |words, files, err| {
        run_lines(
            rt.alloc(),
            words,
            files,
            &mut ByStdSort,
            &mut RealSink::new(rt.stdout()),
            err,
        )
    }))
}
