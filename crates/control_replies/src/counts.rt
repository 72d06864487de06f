//! What the counters count.

ghost use Rattle.std.specs.Prelude.{◌≡◌, ◌<◌};
ghost use Rattle.control_replies.specs.Counters.{dropped_count};
ghost use Rattle.control_replies.specs.Counting.{counter_at, nothing_counted, counted_with};

use savi_kinds::{Entry, Rule, Verdict};

/// How many rules there are, with the numbers 1 to 23.
const RULES: usize = 23;

/// How many counters there are: one for each rule, and `Pass`, `Cut`, `Probes` and `Lost`.
pub const COUNTERS: u32 = 27;

/// The counts of `show counters`, up to an entry of a history.
#[derive(Clone, Copy, PartialEq, Eq, Debug)]
pub struct Counts {
    /// How many frames each rule dropped: that of rule number n at index n - 1.
    pub by_rule: [u64; RULES],
    /// How many frames passed.
    pub pass: u64,
    /// How often a full queue left a frame out.
    pub cut: u64,
    /// How many probes were queued.
    pub probes: u64,
    /// How many probes a full queue left out.
    pub lost: u64,
}

impl Counts {
    /// Nothing was counted.
    pub fn none() -> Counts
        ensures { result ≡ nothing_counted }
    {
        Counts {
            by_rule: [0; RULES],
            pass: 0,
            cut: 0,
            probes: 0,
            lost: 0,
        }
    }

    /// How many frames a rule dropped. O(1).
    pub fn of(&self, rule: Rule) -> u64
        ensures { result ≡ dropped_count self.now rule }
    {
        self.by_rule[usize::from(rule.number() - 1)]
    }

    /// One of the 27 counts in the order of `show counters`, the first at 0. O(1).
    pub fn at(&self, i: u32) -> u64
        requires { i < COUNTERS }
        ensures { result ≡ counter_at i self.now }
    {
        match i {
            23 => self.pass,
            24 => self.cut,
            25 => self.probes,
            26 => self.lost,
            _ => self.by_rule[i as usize],
        }
    }

    /// Counts an entry: its verdict, the ports at which a full queue left its frame out, and its probes. A count that has
    /// reached 2^64 - 1 stays there. O(1).
    pub fn add(&mut self, entry: &Entry)
        ensures { self.new ≡ counted_with entry.now self.old }
    {
        match entry.verdict {
            Some(Verdict::Pass(_)) => self.pass = self.pass.saturating_add(1),
            Some(Verdict::Drop(rule)) => {
                let at = usize::from(rule.number() - 1);
                self.by_rule[at] = self.by_rule[at].saturating_add(1);
            }
            None => {}
        }
        self.cut = self
            .cut
            .saturating_add(u64::from(entry.cuts.0.count_ones()));
        self.probes = self.probes.saturating_add(u64::from(entry.probes));
        self.lost = self.lost.saturating_add(u64::from(entry.lost));
    }
}
