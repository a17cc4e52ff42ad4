//! How long a part of the work takes.
use std::time::CpuClock;

const NANOSECONDS: u64 = 1_000_000_000;

/// The processor time of the process so far in nanoseconds; 0 where the system does not tell it.
pub fn now<C: CpuClock>(clock: &C) -> u64 {
    match clock.process_cpu_time() {
        Ok(time) => time
            .as_secs()
            .saturating_mul(NANOSECONDS)
            .saturating_add(u64::from(time.subsec_nanos())),
        Err(_) => 0,
    }
}
