ghost use Rattle.std.specs.Prelude.{◌≡◌, ◌≤◌, ◌<◌, ◌+◌, ◌^◌, ◌↔◌, IsTrue, IsNone, IfNone, IfSome};
ghost use Rattle.batch_io.specs.Pace.{opening, IsStopped, Refuses, before_stop, share, after_fault, after_bytes};

use std::marker::Model;

/// Sets the pace of a source or a sink in memory: how many bytes a call handles, and which calls
/// fail.
#[derive(Drop)]
pub struct Pacer {
    // the most bytes of one call
    piece: usize,
    // the numbers of the calls that fail, from 1
    failing: Vec<u32>,
    // the most bytes of all calls, where there is a bound
    stop_after: Option<u64>,
    // how many bytes have gone, how many calls there were, and how many of those failed
    gone: u64,
    calls: u32,
    faults: u64,
}

impl Model for Pacer {
    ghost use Rattle.std.specs.Prelude.{◌≤◌};
    ghost use Rattle.batch_io.specs.Pace.{Pace};

    ghost Value = { Pace };

    ghost view = { λ p. record {
      piece = p.piece;
      failing = p.failing.items;
      stop_after = p.stop_after;
      gone = p.gone;
      calls = p.calls;
      faults = p.faults;
    } };

    ghost invariant = { λ p. 1 ≤ p.piece };
}

impl Pacer {
    /// Each call handles at most `piece` bytes, which is at least 1. A call fails where its number,
    /// from 1, is in `failing`, or where `stop_after` bytes have gone already.
    pub fn new(piece: usize, failing: Vec<u32>, stop_after: Option<u64>) -> Pacer
        requires { 1 ≤ piece }
        ensures { result ≡ opening piece failing.items stop_after }
    {
        Pacer {
            piece,
            failing,
            stop_after,
            gone: 0,
            calls: 0,
            faults: 0,
        }
    }

    /// How many bytes have gone.
    pub fn gone(&self) -> u64
        ensures { result ≡ self.now.gone }
    {
        self.gone
    }

    /// Counts a call that could handle `wanted` bytes, and says how many of them it handles, or
    /// `None` where it fails.
    pub fn pass(&mut self, wanted: usize) -> Option<usize>
        requires { self.old.gone + wanted < 2 ^ 64 }
        ensures fails { IsNone result ↔ Refuses self.old }
        ensures failed { IfNone result (self.new ≡ after_fault self.old) }
        ensures later { self.old.faults ≤ self.new.faults }

        ensures count { IfSome result (λ n. n ≡ share self.old wanted) }
        ensures bound { IfSome result (λ n. n ≤ wanted) }
        ensures some { IfSome result (λ n. 0 < wanted → 0 < n) }
        ensures passed { IfSome result (λ n. self.new ≡ after_bytes self.old n) }
    {
        self.calls = self.calls.saturating_add(1);
        if self.is_stopped() || self.failing.contains(&self.calls) {
            self.faults = self.faults.saturating_add(1);
            return None;
        }
        let passed = self.before_stop(wanted.min(self.piece));
        self.gone += passed as u64;
        Some(passed)
    }

    /// Whether all the bytes that may go have gone.
    fn is_stopped(&self) -> bool
        ensures { IsTrue result ↔ IsStopped self.now }
    {
        self.stop_after.is_some_and(|stop| stop <= self.gone)
    }

    /// As many of these bytes as may go before the stop.
    fn before_stop(&self, count: usize) -> usize
        ensures { result ≡ before_stop self.now.stop_after self.now.gone count }
    {
        match self.stop_after {
            None => count,
            Some(stop) => count.min(stop.saturating_sub(self.gone) as usize),
        }
    }
}
