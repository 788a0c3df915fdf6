//! The line of words of each rule.

use sf_sym::Tag;

/// What a rule does, in a line of words.
pub fn rule_words(tag: Tag) -> &'static str {
    match tag {
        Tag::Procedure(_) => "the procedure begins: its precondition, its body, its postcondition",
        Tag::Absurd | Tag::Drop(_) | Tag::Force(_) | Tag::Split(_, _) => of_state(tag),
        Tag::Unroll(_) | Tag::Back(_) => of_state(tag),
        Tag::Add | Tag::Bind | Tag::Same | Tag::Apart | Tag::Empty => of_conjunct(tag),
        Tag::Cell(_) | Tag::Exact(_) | Tag::Head(_) | Tag::Join(_) | Tag::Node(_) => {
            of_conjunct(tag)
        }
        _ => of_command(tag),
    }
}

/// The line of a rule on what is known.
fn of_state(tag: Tag) -> &'static str {
    match tag {
        Tag::Absurd => "what is known can't be: nothing is to be shown",
        Tag::Drop(_) => "an empty segment or tree goes",
        Tag::Force(_) => "a segment or tree that can only be empty is so",
        Tag::Split(_, _) => "two cases: the two values are the same, or they differ",
        Tag::Unroll(_) => "a segment or tree that isn't empty begins with a cell",
        _ => "a doubly linked segment that isn't empty ends with a cell",
    }
}

/// The line of a rule on what is assumed or to be shown.
fn of_conjunct(tag: Tag) -> &'static str {
    match tag {
        Tag::Add => "the next conjunct is assumed",
        Tag::Bind => "a wanted equality says what an existential stands for",
        Tag::Same => "a wanted equality of a value with itself is so",
        Tag::Apart => "a wanted inequality of values that differ is so",
        Tag::Empty => "a wanted segment or tree is empty",
        Tag::Cell(_) => "a wanted cell is this one, which is handed over",
        Tag::Exact(_) => "a wanted segment or tree is this one, which is handed over",
        Tag::Head(_) => "a wanted segment begins with this cell, which is handed over",
        Tag::Join(_) => "a wanted segment begins with this segment, which is handed over",
        _ => "a wanted tree begins with this cell, which is handed over",
    }
}

/// The line of a rule on a command, or on the end of one.
fn of_command(tag: Tag) -> &'static str {
    match tag {
        Tag::Assign => "a variable is set",
        Tag::Look(_) => "a field of this cell is looked up",
        Tag::Mutate(_) => "a field of this cell is set",
        Tag::New => "a new cell, with anything in its fields",
        Tag::Dispose(_) => "this cell goes",
        Tag::Then => "the test is true: the first branch",
        Tag::Else => "the test is false: the second branch",
        Tag::Loop => "the loop's invariant is due",
        Tag::Around => "two goals: the body once from the invariant, and what comes after the loop",
        Tag::Again => "the body's end: the invariant is due again",
        _ => of_call(tag),
    }
}

/// The line of a rule on a call, a region or an end.
fn of_call(tag: Tag) -> &'static str {
    match tag {
        Tag::Call => "the callee's precondition is due; its postcondition comes back",
        Tag::Fork => "both preconditions are due, on parts without a common cell",
        Tag::Enter => "the resource's invariant comes in with its variables",
        Tag::Exit => "the resource's invariant is due",
        Tag::Return => "the procedure's end: its postcondition is due",
        Tag::Give => "what was handed over is gone, and what the call may set is unknown",
        _ => "nothing is left over: all is done",
    }
}
