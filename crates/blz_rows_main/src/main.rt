//! Prints the addresses of a source line, or the next line that has code.
#![tactic(auto)]

use blz_bytes::ByStdSort;
use blz_program::run_over;
use blz_resolver::outside::RealSink;
use blz_rows::{blz_rows, run_rows};
use std::process::ExitCode;

fn main(rt: HostRuntime) -> ExitCode {
    let mut err = RealSink::new(rt.stderr());
    ExitCode::from(run_over(&rt, &blz_rows(), &mut err, |words, files, err| {
        run_rows(
            rt.alloc(),
            words,
            files,
            &mut ByStdSort,
            &mut RealSink::new(rt.stdout()),
            err,
        )
    }))
}
