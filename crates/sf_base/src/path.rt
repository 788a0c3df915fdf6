//! Where a task is in the tree of tasks.

ghost use Rattle.std.specs.Prelude.{◌≡◌, ◌<◌, ◌≤◌, [], ◌∷◌, ◌++◌, length};

use crate::limits::TURNS;
use std::marker::Model;

/// Which of the two calls of a parallel call a task runs.
#[derive(Clone, Copy, Debug, PartialEq, Eq)]
pub enum Turn {
    /// The left call, printed as 1.
    Left,
    /// The right call, printed as 2.
    Right,
}

/// Where a task is in the tree of tasks: the turns on the way from the entry's task to it, at
/// most `TURNS` of them. Contracts see the list of the turns.
#[derive(Clone, Copy, Debug, PartialEq, Eq)]
pub struct TaskPath {
    turns: [Turn; TURNS],
    len: usize,
}

impl Model for TaskPath {
    ghost use Rattle.std.specs.Prelude.{List};
    ghost use Rattle.sf_base.specs.declared.path.Turn.{Turn};

    ghost Value = { List Turn };

    ghost use Rattle.sf_base.specs.Checked.TaskPath.{turns_of, path_of, IsPadded, path_of-turns_of};

    ghost view = { turns_of };

    ghost invariant = { IsPadded };

    ghost inverse = { path_of };

    ghost inverse_ok = { path_of-turns_of };
}

impl TaskPath {
    /// The path of the entry's task, which has no turn.
    pub fn entry() -> TaskPath
        ensures { result ≡ [] }
    {
        TaskPath {
            turns: [Turn::Left; TURNS],
            len: 0,
        }
    }

    /// How many turns there are.
    pub fn len(&self) -> usize
        ensures count { result ≡ length self.now }
        ensures bound { result ≤ TURNS }
    {
        self.len
    }

    /// The path of the task that takes one turn more.
    pub fn child(self, turn: Turn) -> TaskPath
        requires { length self < TURNS }
        ensures { result ≡ self ++ turn ∷ [] }
    {
        let mut turns = self.turns;
        turns[self.len] = turn;
        TaskPath {
            turns,
            len: self.len + 1,
        }
    }

    /// The turns, from the entry on.
    pub fn turns(&self) -> &[Turn]
        ensures { result.now ≡ self.now }
    {
        &self.turns[..self.len]
    }
}
