//! How a run of a program ended.
use blz_resolver::outside::MemorySink;
use std::alloc::{AllocError, Global};

/// The status of a run, what it wrote to `out`, and the line that it wrote on `err`.
#[derive(Drop)]
pub struct Ended {
    pub status: u8,
    pub out: MemorySink,
    pub line: MemorySink,
}

impl Ended {
    /// Whether a run ended with this status, and wrote this text and this line.
    pub fn is(&self, status: u8, text: &[u8], line: &[u8]) -> bool {
        self.status == status && self.out.bytes() == text && self.line.bytes() == line
    }
}

/// A run, or no memory for what it is given.
pub type Ran = Result<Ended, AllocError>;

/// A sink that takes all that tests write.
pub fn roomy(alloc: Global) -> Result<MemorySink, AllocError> {
    MemorySink::with_room(alloc, 1000, 1000)
}

/// Runs a program on these words, with a sink for its text and one for its line.
pub fn run_with<G>(alloc: Global, words: &[&str], mut out: MemorySink, run: G) -> Ran
where
    G: FnOnce(&[String], &mut MemorySink, &mut MemorySink) -> u8 + Drop,
    requires { G.IsAlwaysCallable run }
{
    let mut list = Vec::new(alloc);
    for word in words {
        list.push(String::from_str(alloc, word)?)?;
    }
    let mut line = MemorySink::with_room(alloc, 100, 7)?;
    let status = run(&list, &mut out, &mut line);
    Ok(Ended { status, out, line })
}
