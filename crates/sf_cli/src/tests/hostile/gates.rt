//! Gates that hold threads up in the worst ways that a test can write. What threads say may then be
//! any answer that comes of some order of their steps, and no other.

use sf_base::Turn;
use sf_io::{Gate, Point};
use std::sync::atomic::{AtomicBool, AtomicU64, Ordering};
use std::thread::yield_now;

/// Whom a gate holds up.
#[derive(Clone, Copy, Debug, PartialEq, Eq)]
pub enum Manner {
    /// The first caller of all.
    First,
    /// Whoever came last, until another one comes.
    Latest,
    /// Every caller on that side.
    Side(Turn),
    /// Whoever is on the side of the one that was let go last.
    Alternate,
    /// Whoever draws a number that is no good, each time anew; with the number from which these are
    /// drawn.
    Chance(u64),
}

/// One gate of each kind, and three of chance.
pub const MANNERS: [Manner; 8] = [
    Manner::First,
    Manner::Latest,
    Manner::Side(Turn::Left),
    Manner::Side(Turn::Right),
    Manner::Alternate,
    Manner::Chance(1),
    Manner::Chance(2),
    Manner::Chance(3),
];

/// A gate that holds callers up in that manner, until its turns are used up: a caller that is held
/// uses up one each time that it looks.
#[derive(Drop)]
pub struct HostileGate {
    manner: Manner,
    turns: u64,
    left: AtomicU64,
    callers: AtomicU64,
    drawn: AtomicU64,
    left_went: AtomicBool,
    right_went: AtomicBool,
}

impl HostileGate {
    /// A gate that nobody has come to.
    pub fn new(manner: Manner, turns: u64) -> HostileGate {
        let first_drawn = match manner {
            Manner::Chance(number) => number,
            _ => 0,
        };
        HostileGate {
            manner,
            turns,
            left: AtomicU64::new(turns),
            callers: AtomicU64::new(0),
            drawn: AtomicU64::new(first_drawn),
            left_went: AtomicBool::new(false),
            right_went: AtomicBool::new(false),
        }
    }

    /// Whether some caller was held up.
    pub fn has_held(&self) -> bool {
        self.left.load(Ordering::SeqCst) < self.turns
    }

    /// Whether the one that was let go last was on that side.
    fn went_last(&self, side: Turn) -> bool {
        match side {
            Turn::Left => self.left_went.load(Ordering::SeqCst),
            Turn::Right => self.right_went.load(Ordering::SeqCst),
        }
    }

    /// Draws a number, of which three in four are no good.
    fn draws_badly(&self) -> bool {
        // (a linear congruential generator, with Knuth's numbers; its first bits are the best ones)
        self.drawn
            .fetch_update(Ordering::SeqCst, Ordering::SeqCst, |n| {
                Some(
                    n.wrapping_mul(6_364_136_223_846_793_005)
                        .wrapping_add(1_442_695_040_888_963_407),
                )
            })
            .is_ok_and(|n| n >> 62 != 0)
    }

    /// Whether the caller with that number, counted from 0, is to be held up now.
    fn holds(&self, caller: u64, side: Turn) -> bool {
        match self.manner {
            Manner::First => caller == 0,
            Manner::Latest => self.callers.load(Ordering::SeqCst) == caller.wrapping_add(1),
            Manner::Side(held) => side == held,
            Manner::Alternate => self.went_last(side),
            Manner::Chance(_) => self.draws_badly(),
        }
    }

    /// Uses up a turn. There may be none left.
    fn use_turn(&self) -> bool {
        self.left
            .fetch_update(Ordering::SeqCst, Ordering::SeqCst, |n| n.checked_sub(1))
            .is_ok()
    }
}

/// The side on which a caller is: that of its last turn, and of workers by their number.
fn side_of(at: &Point) -> Turn {
    match at {
        Point::Start(task) | Point::Region(task, _) => {
            task.turns().last().copied().unwrap_or(Turn::Left)
        }
        Point::Worker(number, _) if number % 2 == 1 => Turn::Right,
        Point::Worker(..) => Turn::Left,
    }
}

impl Gate for HostileGate {
    /// Holds the caller up while that is the gate's manner and there are turns left.
    fn pass(&self, at: &Point) {
        let caller = self.callers.fetch_add(1, Ordering::SeqCst);
        let side = side_of(at);
        for _ in 0..self.turns {
            if !self.holds(caller, side) || !self.use_turn() {
                break;
            }
            yield_now();
        }
        self.left_went.store(side == Turn::Left, Ordering::SeqCst);
        self.right_went.store(side == Turn::Right, Ordering::SeqCst);
    }
}
