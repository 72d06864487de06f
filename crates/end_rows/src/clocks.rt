//! The machine's clock beside a time of day that steps.

use anyhow::bail;
use port_ends::{MachineClock, Pauses};
use savi_ends::Clock;
use std::alloc::Global;
use std::io;
use std::sync::atomic::{AtomicU64, Ordering};
use std::sync::{Arc, Wait};
use std::time::{self, Duration};

// Two clocks that are set by hand, in ms: the time of day and a monotonic one.
#[derive(Drop)]
struct HandClocks {
    time_of_day: AtomicU64,
    monotonic: AtomicU64,
}

impl HandClocks {
    // Sets both to what a text writes: the time of day, `/`, and the monotonic clock.
    fn set(&self, text: &str) -> anyhow::Result<()> {
        let Some((time_of_day, monotonic)) = text.split_once('/') else {
            bail!("no two clocks: {text}");
        };
        self.time_of_day
            .store(time_of_day.parse::<u64>()?, Ordering::SeqCst);
        self.monotonic
            .store(monotonic.parse::<u64>()?, Ordering::SeqCst);
        Ok(())
    }
}

impl time::Clock for HandClocks {
    fn monotonic(&self) -> io::Result<Duration> {
        Ok(Duration::from_millis(self.monotonic.load(Ordering::SeqCst)))
    }

    fn since_1970(&self) -> io::Result<Duration> {
        Ok(Duration::from_millis(self.time_of_day.load(Ordering::SeqCst)))
    }
}

/// Prints what a clock that begins at the first setting of two others reads at each later one, and again by a wait; then
/// what a clock of the same start reads that is first read at the last one. A setting is the time of day, `/`, and the
/// monotonic clock, in ms. Behind the word `waits` the inputs wait, until behind `goes`.
pub fn print_clocks<R: Print + Wait>(rt: &R, alloc: Global, rest: &str) -> anyhow::Result<()> {
    let (first, settings) = rest.split_once(' ').unwrap_or((rest, ""));
    let clocks = HandClocks {
        time_of_day: AtomicU64::new(0),
        monotonic: AtomicU64::new(0),
    };
    clocks.set(first)?;
    let pauses = Pauses::make(&clocks, alloc)?;
    let mut early = clock_of(&clocks, rt, &pauses)?;
    for setting in settings.split_whitespace() {
        if setting == "waits" || setting == "goes" {
            let _now = pauses.tell(&clocks, setting == "waits");
            continue;
        }
        clocks.set(setting)?;
        let (reading, later) = (early.now(), early.wait());
        print!(rt; " {reading} {later},")?;
    }
    let mut late = clock_of(&clocks, rt, &pauses)?;
    println!(rt; " {}", late.now())?;
    Ok(())
}

// A clock over these two, which stands in these pauses.
fn clock_of<'a, R: Wait>(
    clocks: &'a HandClocks,
    rt: &'a R,
    pauses: &Arc<Pauses, Global>,
) -> anyhow::Result<MachineClock<&'a HandClocks, &'a R>> {
    let shared = Arc::try_clone(pauses)?;
    Ok(MachineClock::new(clocks, rt, pauses.start(), Some(shared)))
}
