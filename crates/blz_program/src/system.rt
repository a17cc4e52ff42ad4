//! A program over the system that runs it.
use crate::program::Program;
use crate::words_given::words_of;
use blz_resolver::outside::{RealFiles, Sink};
use std::rt;
use std::rt::Env;

/// Runs a program over the words and the files of a runtime, and answers its exit status. Where the words can't be had,
/// nothing is run, and a line on `err` says why.
pub fn run_over<R, E, G>(rt: &R, program: &Program, err: &mut E, run: G) -> u8
where
    R: Env + AllocGlobal + rt::Files,
    E: Sink,
    G: FnOnce(&[String], &mut RealFiles<'_, R>, &mut E) -> u8 + Drop,
    requires { G.IsAlwaysCallable run }
{
    match words_of(rt) {
        Ok(words) => run(&words, &mut RealFiles::new(rt), err),
        Err(outcome) => {
            let _ = outcome.tell(program, err);
            outcome.status()
        }
    }
}
