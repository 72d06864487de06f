//! How a thread sleeps until another one has something for it: an event that resets itself, with a look before the sleep.
//!
//! A `Sleeper` is a place at which one thread at a time sleeps, and which any thread wakes. A wake is kept until the next
//! sleep has ended, so that none is lost that comes between a look at what is waited for and the sleep; wakes that come
//! together count as one. Nothing depends on a sleep but time: it has an end whether or not it is woken, may end early, and
//! tells nothing. So who sleeps looks again for what it waited for, and no call here has a clause.
//!
//! The order makes that so, of which every step is sequentially consistent. Who wakes writes that it did so before it reads
//! whether somebody sleeps in the system, and who sleeps writes that it does before it reads whether it was woken: one of
//! both sees what the other wrote. That a wake came is forgotten as the sleep ends, and so before the next look.
//!
//! A call of the system costs more than most of what is waited for. Where the last sleep ended because it was woken, the
//! next begins with a look for some 50 microseconds, in which others have the processor; and a wake calls the system only
//! where somebody sleeps there. At a moderate load such looks find nothing: so behind one in vain the next sleep begins
//! without a look, behind the next one in vain the next three, then seven, up to 255, until a look finds something.
#![tactic(auto)]

use std::sync::Wait;
use std::sync::atomic::{AtomicBool, AtomicU32, Ordering};
use std::thread::{Parker, yield_now};
use std::time::Duration;

/// So often a thread looks whether it was woken before it sleeps, and lets others run in between: some 50 microseconds where
/// no other has anything to do. What comes within that time needs no call of the system to wake it.
const LOOKS: u32 = 150;

/// Behind looks in vain so many sleeps at most begin without one.
const UNLOOKED_MOST: u32 = 255;

/// A place to sleep at: whether who sleeps there was woken since its last sleep, whether it sleeps in the system now,
/// whether its last sleep ended because it was woken, how many of the next sleeps begin without a look, and how many were
/// to do so behind the last look, which is 0 where that found something.
#[derive(Drop)]
pub struct Sleeper {
    woken: AtomicBool,
    parked: AtomicBool,
    busy: AtomicBool,
    unlooked: AtomicU32,
    span: AtomicU32,
    parker: Parker,
}

impl Sleeper {
    /// A place where nobody sleeps yet, and which wasn't woken. It takes no memory.
    pub fn new() -> Sleeper {
        Sleeper {
            woken: AtomicBool::new(false),
            parked: AtomicBool::new(false),
            busy: AtomicBool::new(false),
            unlooked: AtomicU32::new(0),
            span: AtomicU32::new(0),
            parker: Parker::new(),
        }
    }

    /// Sleeps until it is woken, for so long at most; or not at all where it was woken since its last sleep. It may end
    /// early. One thread at a time may sleep at a place.
    ///
    /// Where the last sleep here ended because it was woken, it first looks for some 50 microseconds whether it is woken
    /// again, and gives its processor to others meanwhile, unless such looks were in vain of late.
    pub fn sleep<R: Wait>(&self, rt: &R, most: Duration) {
        let is_woken = self.is_woken_soon() || self.is_woken_later(rt, most);
        self.busy.store(is_woken, Ordering::SeqCst);
        self.woken.store(false, Ordering::SeqCst);
    }

    // Looks for a while whether it was woken, where the last sleep ended so and a look is due.
    fn is_woken_soon(&self) -> bool {
        if !self.busy.load(Ordering::SeqCst) || !self.is_look_due() {
            return false;
        }
        for _ in 0..LOOKS {
            if self.woken.load(Ordering::SeqCst) {
                self.span.store(0, Ordering::SeqCst);
                return true;
            }
            yield_now();
        }
        self.put_looks_off();
        false
    }

    // Whether this sleep may begin with a look; else one fewer begins without. One thread at a time sleeps here.
    fn is_look_due(&self) -> bool {
        let unlooked = self.unlooked.load(Ordering::SeqCst);
        if unlooked == 0 {
            return true;
        }
        self.unlooked.store(unlooked - 1, Ordering::SeqCst);
        false
    }

    // A look was in vain: of the next sleeps 1, 3, 7 and so on begin without one.
    fn put_looks_off(&self) {
        let span = self.span.load(Ordering::SeqCst);
        let next = if span < UNLOOKED_MOST / 2 {
            2 * span + 1
        } else {
            UNLOOKED_MOST
        };
        self.span.store(next, Ordering::SeqCst);
        self.unlooked.store(next, Ordering::SeqCst);
    }

    // Sleeps in the system until it is woken, for so long at most. Who wakes it writes `woken` before reading `parked`, and
    // here it is the other way round: one of both sees what the other wrote.
    fn is_woken_later<R: Wait>(&self, rt: &R, most: Duration) -> bool {
        self.parked.store(true, Ordering::SeqCst);
        if !self.woken.load(Ordering::SeqCst) {
            self.parker.park_timeout(rt, most);
        }
        self.parked.store(false, Ordering::SeqCst);
        self.woken.load(Ordering::SeqCst)
    }

    /// Wakes who sleeps here; where nobody does, the next sleep ends at once. O(1), and a call of the system only where
    /// somebody sleeps in it.
    pub fn wake(&self) {
        self.woken.store(true, Ordering::SeqCst);
        if self.parked.load(Ordering::SeqCst) {
            self.parker.unpark();
        }
    }
}
