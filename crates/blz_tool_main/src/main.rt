//! Prints what stands at addresses of an ELF file.
#![tactic(auto)]

use blz_bytes::ByStdSort;
use blz_program::run_over;
use blz_resolver::outside::RealSink;
use blz_tool::{blz_tool, run};
use std::process::ExitCode;

fn main(rt: HostRuntime) -> ExitCode {
    let mut err = RealSink::new(rt.stderr());
    ExitCode::from(run_over(&rt, &blz_tool(), &mut err, |words, files, err| {
        run(
            rt.alloc(),
            words,
            files,
            &mut ByStdSort,
            &mut RealSink::new(rt.stdout()),
            err,
        )
    }))
}
