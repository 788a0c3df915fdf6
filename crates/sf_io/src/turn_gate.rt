ghost use Rattle.std.specs.Prelude.{◌≡◌, [], ◌∷◌, ◌++◌, OnOk, OnErr};
ghost use Rattle.sf_base.specs.Results.{Appends};

use crate::gate::{Gate, Point};
use std::alloc::{AllocError, Global};
use std::marker::Model;
use std::sync::atomic::{AtomicU64, Ordering};
use std::thread::yield_now;

/// How often a point was passed.
#[derive(Drop)]
pub(crate) struct Passes {
    at: Point,
    count: AtomicU64,
}

/// A gate for tests. At some points it holds a caller until certain points were passed so many
/// times together, or its turns are used up: a caller that is held uses one up each time that it
/// looks. A pass of a point that the gate was told of is counted when the caller arrives there.
///
/// Contracts see what it was told. Passes and turns stand in atomics, of which no contract knows
/// anything.
#[derive(Drop)]
pub struct TurnGate {
    counted: Vec<Passes>,
    held: Vec<Point>,
    awaited: Vec<Point>,
    times: u64,
    turns: u64,
    left: AtomicU64,
}

impl Model for TurnGate {
    ghost use Rattle.sf_io.specs.TurnGate.{Told};

    ghost Value = { Told };

    ghost view = { λ s. record {
      held = s.held.items;
      awaited = s.awaited.items;
      times = s.times;
      turns = s.turns;
    } };
}

impl TurnGate {
    /// A gate that holds nobody yet, and will hold callers until the points that it is to wait for
    /// were passed that many times together, or so many turns are used up.
    pub fn new(alloc: Global, times: u64, turns: u64) -> TurnGate
        ensures { result ≡ record { held = []; awaited = []; times = times; turns = turns } }
    {
        TurnGate {
            counted: Vec::new(alloc),
            held: Vec::new(alloc),
            awaited: Vec::new(alloc),
            times,
            turns,
            left: AtomicU64::new(turns),
        }
    }

    /// From now on passes of that point are counted. An `Err` says that memory ran out.
    pub fn count_at(&mut self, at: &Point) -> Result<(), AllocError>
        ensures { self.new ≡ self.old }
    {
        self.counted.push(Passes {
            at: *at,
            count: AtomicU64::new(0),
        })?;
        Ok(())
    }

    /// From now on callers are held at that point, and its passes counted. An `Err` says that
    /// memory ran out, and nobody is held there.
    pub fn hold_at(&mut self, at: &Point) -> Result<(), AllocError>
        ensures ok { OnOk result (self.new ≡ record self.old { held = self.old.held ++ at.now ∷ [] }) }
        ensures err { OnErr result (self.new ≡ self.old) }
    {
        self.count_at(at)?;
        add(&mut self.held, *at)
    }

    /// From now on that point's passes count for those who are held. An `Err` says that memory ran
    /// out, and they don't.
    pub fn wait_for(&mut self, at: &Point) -> Result<(), AllocError>
        ensures ok { OnOk result
            (self.new ≡ record self.old { awaited = self.old.awaited ++ at.now ∷ [] }) }
        ensures err { OnErr result (self.new ≡ self.old) }
    {
        self.count_at(at)?;
        add(&mut self.awaited, *at)
    }

    /// How often that point was passed so far. 0 where its passes aren't counted.
    pub fn passes(&self, at: &Point) -> u64 {
        for one in &self.counted {
            if one.at == *at {
                return one.count.load(Ordering::SeqCst);
            }
        }
        0
    }

    /// How many turns are left.
    pub fn turns_left(&self) -> u64 {
        self.left.load(Ordering::SeqCst)
    }

    /// Counts a pass of that point, where its passes are counted.
    fn note(&self, at: &Point) {
        for one in &self.counted {
            if one.at == *at {
                one.count.fetch_add(1, Ordering::SeqCst);
                return;
            }
        }
    }

    /// Whether the points that the gate waits for were passed as often as it waits.
    fn is_released(&self) -> bool {
        let mut passed = 0u64;
        for at in &self.awaited {
            passed = passed.saturating_add(self.passes(at));
        }
        passed >= self.times
    }

    /// Uses up a turn. There may be none left.
    fn use_turn(&self) -> bool {
        self.left
            .fetch_update(Ordering::SeqCst, Ordering::SeqCst, |n| n.checked_sub(1))
            .is_ok()
    }
}

impl Gate for TurnGate {
    /// Counts the pass, and holds the caller where callers are held.
    fn pass(&self, at: &Point) {
        self.note(at);
        if !self.held.contains(at) {
            return;
        }
        for _ in 0..self.turns {
            if self.is_released() || !self.use_turn() {
                return;
            }
            yield_now();
        }
    }
}

/// Appends a point. An `Err` says that memory ran out, and nothing is changed.
fn add(points: &mut Vec<Point>, at: Point) -> Result<(), AllocError>
    ensures ok { Appends result points.old.items points.new.items (at ∷ []) }
    ensures err { OnErr result (points.new.items ≡ points.old.items) }
{
    points.push(at)?;
    Ok(())
}
