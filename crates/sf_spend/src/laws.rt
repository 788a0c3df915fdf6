//! Laws of numbered lists of events and of what a task was given and has used in them. Each
//! function does nothing; its contract is the law.

ghost use Rattle.sf_spend.specs.Checked.Laws.{
  CountedListsAreNumbered,
  CountsAreUnique,
  CountsBeginAnew,
  CountsCompose,
  CountsDivide,
  CountsStayBalanced,
  NumberedListsAreCounted,
  SpendingListsAreCounted,
  SpentTasksHaveSpentSteps,
  StartsAreDivided,
  SuppliesStayDivided,
};

/// Each numbered list of events is a counted one, for each task, whatever it was given and had used
/// before.
#[tactic(auto, using(crate::proofs::Closing::numbered_lists_are_counted))]
pub fn numbered_lists_are_counted()
    ensures { NumberedListsAreCounted }
{}

/// A counted list is numbered, and what the task has spent in it is what is counted.
#[tactic(auto, using(crate::proofs::Closing::counted_lists_are_numbered))]
pub fn counted_lists_are_numbered()
    ensures { CountedListsAreNumbered }
{}

/// A list in which a task has spent something is a counted one.
#[tactic(auto, using(crate::proofs::Closing::spending_lists_are_counted))]
pub fn spending_lists_are_counted()
    ensures { SpendingListsAreCounted }
{}

/// What a counted list leaves is one thing: the configuration, the supply, and what the task was
/// given and has used.
#[tactic(auto, using(crate::proofs::Closing::counts_are_unique))]
pub fn counts_are_unique()
    ensures { CountsAreUnique }
{}

/// A counted list after another is one.
#[tactic(auto, using(crate::proofs::Closing::counts_compose))]
pub fn counts_compose()
    ensures { CountsCompose }
{}

/// A counted list is one up to each place, and from there.
#[tactic(auto, using(crate::proofs::Closing::counts_divide))]
pub fn counts_divide()
    ensures { CountsDivide }
{}

/// Units that are divided as the tree of tasks is stay so along a numbered list.
#[tactic(auto, using(crate::proofs::Closing::supplies_stay_divided))]
pub fn supplies_stay_divided()
    ensures { SuppliesStayDivided }
{}

/// At a start they are divided so: there is the entry's task alone, and it has all of them.
#[tactic(auto, using(crate::proofs::Closing::starts_are_divided))]
pub fn starts_are_divided()
    ensures { StartsAreDivided }
{}

/// Where they are, what a task has used and what it and its descendants have left stay what it was
/// given.
#[tactic(auto, using(crate::proofs::Closing::counts_stay_balanced))]
pub fn counts_stay_balanced()
    ensures { CountsStayBalanced }
{}

/// Of a task that comes up in a list, it doesn't matter what was given and used before.
#[tactic(auto, using(crate::proofs::Closing::counts_begin_anew))]
pub fn counts_begin_anew()
    ensures { CountsBeginAnew }
{}

/// Where a numbered list from the start leads to a configuration from which a task comes to have
/// used what it was given, and would go on then, the task has spent its steps: from the start on it
/// was given so many units and has used as many.
#[tactic(auto, using(crate::proofs::Closing::spent_tasks_have_spent_steps))]
pub fn spent_tasks_have_spent_steps()
    ensures { SpentTasksHaveSpentSteps }
{}
