//! Adds up counts by address as counts by source line.
#![tactic(auto)]

use blz_bytes::ByStdSort;
use blz_cover::{blz_cover, run_cover};
use blz_program::run_over;
use blz_resolver::outside::RealSink;
use std::process::ExitCode;

fn main(rt: HostRuntime) -> ExitCode {
    let mut err = RealSink::new(rt.stderr());
    ExitCode::from(run_over(&rt, &blz_cover(), &mut err, |words, files, err| {
        run_cover(
            rt.alloc(),
            words,
            files,
            &mut ByStdSort,
            &mut RealSink::new(rt.stdout()),
            err,
        )
    }))
}
