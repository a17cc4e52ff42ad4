//! Turns stacks of addresses into folded stacks of names.
#![tactic(auto)]

use blz_bytes::ByStdSort;
use blz_fold::{blz_fold, run_fold};
use blz_program::run_over;
use blz_resolver::outside::RealSink;
use std::process::ExitCode;

fn main(rt: HostRuntime) -> ExitCode {
    let mut err = RealSink::new(rt.stderr());
    ExitCode::from(run_over(&rt, &blz_fold(), &mut err, |words, files, err| {
        run_fold(
            rt.alloc(),
            words,
            files,
            &mut ByStdSort,
            &mut RealSink::new(rt.stdout()),
            err,
        )
    }))
}
