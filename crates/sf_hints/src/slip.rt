//! The slips of those who are new to the language, and the hint to each.

use crate::source::put;
use crate::words::spelling;
use sf_lex::Kind;
use std::alloc::AllocError;

/// What somebody meant who wrote what is refused.
#[derive(Clone, Copy, Debug, PartialEq, Eq)]
pub enum Slip {
    /// A reserved word with a wrong letter.
    Misspelt(Kind),
    /// A type before a name.
    Typed,
    /// A local with its first value.
    LocalBegins,
    /// A local after a command.
    LocalsFirst,
    /// `return`
    Returns,
    /// The value of a call.
    CallAlone,
    /// `malloc`
    Makes,
    /// `free`
    Frees,
    /// `null`
    Nothing,
    /// `false`
    NoTruth,
    /// `for`
    OneLoop,
    /// `new` with something in its brackets.
    NewAlone,
    /// Two look-ups in a command.
    OneCell,
    /// A look-up among the values of a call.
    ValueLooksUp,
    /// A look-up in a test.
    TestLooksUp,
    /// A field in an assertion as in a command.
    FieldOfCell,
    /// A test that compares nothing.
    TestCompares,
    /// A test without its brackets.
    TestInBrackets,
    /// `=` in a test.
    TwoEquals,
    /// `&&` or `||` in a test.
    NoConnective,
    /// `&&` in an assertion.
    JoinedByStar,
    /// `||` between commands.
    TwoCalls,
    /// `|`
    OneBar,
    /// `<`
    NoOrder,
    /// `+`
    NoSum,
    /// `//`
    Comment,
    /// `.`
    NoDot,
    /// `!`
    NoNegation,
    /// `?`
    NoChoice,
    /// `&x`
    NoAddress,
    /// `@`
    NoLocation,
    /// `"`
    NoText,
    /// A letter outside of ASCII.
    NotAscii,
    /// `;` after a brace.
    NoSemicolon,
    /// No `;` after a command.
    Semicolon,
    /// Nil or a number as a reference.
    ReferenceIsVariable,
    /// A value of a cell without its field.
    WhichField,
    /// `then` without `else`.
    ThenElse,
    /// `true` in an assertion.
    AnyHeap,
    /// A segment without its end.
    NoEnd,
    /// A doubly linked segment without its last cell.
    NoLastCell,
    /// A part that begins nowhere.
    NoRoot,
    /// References and values that aren't parted by `;`.
    ReferencesThenValues,
    /// A name that is declared twice.
    DeclaredTwice,
    /// A variable of two resources.
    OneOwner,
    /// Another's variable in an invariant.
    OwnVariables,
    /// A predicate without its field.
    DeclareFields,
    /// A name that nothing has.
    Undeclared,
    /// More than a limit.
    TooMany,
    /// A deep nest.
    TooDeep,
    /// `init` with a parameter or a contract.
    InitShape,
    /// A call of `init`.
    InitCalled,
    /// A variable of a resource outside of its regions.
    EnterFirst,
    /// A resource that is entered again.
    EnteredAgain,
    /// A variable that is passed twice as a reference.
    TwoVariables,
    /// A reference that the callee uses by its own name.
    UsedByCallee,
    /// Two parallel calls that share a variable.
    TwoTasks,
    /// A word that is too long.
    LongWord,
    /// A comment without its end.
    OpenComment,
    /// A number that doesn't fit.
    BadNumber,
    /// A file that is too long.
    LongFile,
}

/// Appends the hint to a slip. An `Err` says that memory ran out.
pub fn put_hint(text: &mut Vec<u8>, slip: Slip) -> Result<(), AllocError> {
    if let Slip::Misspelt(kind) = slip {
        put(text, "did you mean `")?;
        put(text, spelling(kind))?;
        return put(text, "`? a word that isn't reserved is a name");
    }
    put(text, of_habits(slip))?;
    put(text, of_tests(slip))?;
    put(text, of_signs(slip))?;
    put(text, of_assertions(slip))?;
    put(text, of_names(slip))?;
    put(text, of_sharing(slip))
}

/// The hint to a habit from another language; empty for other slips.
fn of_habits(slip: Slip) -> &'static str {
    match slip {
        Slip::Typed => {
            "nothing has a type: a procedure begins with its name, and a body with `local x, y;`"
        }
        Slip::LocalBegins => {
            "a local begins as nil, and a command of its own sets it: `local t; t = x;`"
        }
        Slip::LocalsFirst => "locals come first in a body, before its commands",
        Slip::Returns => {
            "nothing is returned: what comes out is a reference, which stands before the `;`: `f(y; x)`"
        }
        Slip::CallAlone => {
            "a call has no value: it stands alone and sets its references: `g(a; 1);`"
        }
        Slip::Makes => "a cell is made by `x = new();`, which has all fields",
        Slip::Frees => "a cell is freed by `dispose(x);`",
        Slip::Nothing => "what is no cell is `nil` or `NULL`",
        Slip::OneLoop => "the one loop is `while (B) [I] C`, with its invariant in square brackets",
        Slip::NewAlone => "`new()` has nothing in its brackets: a cell has all fields of the file",
        Slip::OneCell => {
            "a command touches one cell: look the other one up into a local before: `t = y->tl; x->tl = t;`"
        }
        Slip::ValueLooksUp => "a call's values are variables, nil and numbers: look up before it",
        _ => "",
    }
}

/// The hint to a slip in a test; empty for other slips.
fn of_tests(slip: Slip) -> &'static str {
    match slip {
        Slip::TestLooksUp => {
            "a test has no look-up: look up before it into a local, of a loop also at its body's end"
        }
        Slip::TestCompares => "a test compares two values: `x != nil`",
        Slip::TestInBrackets => "a test stands in round brackets: `if (x != nil)`",
        Slip::TwoEquals => "`=` sets a variable; what compares is `==`",
        Slip::NoConnective => {
            "a test has no connective: nest it, `if (A) if (B) C`, or go on with `else if`"
        }
        Slip::TwoCalls => "what runs at once are two calls: `f(a; 1) || g(b; 2);`",
        Slip::NoTruth => "the one test that is no comparison is `true`",
        _ => "",
    }
}

/// The hint to a sign that there isn't; empty for other slips.
fn of_signs(slip: Slip) -> &'static str {
    match slip {
        Slip::OneBar => "`||` joins two calls, and `|->` is said of a cell; there is no `|`",
        Slip::NoOrder => "numbers have no order: a test is `==` or `!=`",
        Slip::NoSum => "nothing is computed: a count may be a list that gets a cell more",
        Slip::Comment => "a comment is `/* .. */`",
        Slip::NoDot => "a field is written `x->tl`",
        Slip::NoNegation => "nothing is negated: a test is `==` or `!=`",
        Slip::NoChoice => "no value is a choice: write `if (B) C else D`",
        Slip::NoAddress =>
            "nothing has an address: what a call sets is a reference, before its `;`",
        Slip::NoLocation => "`@1` is the name of a cell in a state, and stands in no program",
        Slip::NoText => "there are no texts: values are nil, numbers and cells",
        Slip::NotAscii => "outside of comments a file has letters of ASCII alone",
        Slip::NoSemicolon => "after a brace comes no `;`",
        Slip::Semicolon => "each command ends with `;`",
        Slip::LongWord => "a name has at most 64 bytes",
        Slip::OpenComment => "this comment has no end: `*/`",
        Slip::BadNumber => "a number has 64 bits, and no letter right after it",
        _ => "",
    }
}

/// The hint to a slip in an assertion; empty for other slips.
fn of_assertions(slip: Slip) -> &'static str {
    match slip {
        Slip::FieldOfCell => "a field is said of its cell: `x|->tl:nil`",
        Slip::JoinedByStar => "parts are joined by `*`, and a test is a part without cells",
        Slip::WhichField => "which field has that value? `x|->tl:nil`",
        Slip::ThenElse => "each `if` has an `else`: `if x != nil then x|-> else emp`",
        Slip::AnyHeap => "nothing stands for any heap: what is left over has to be said",
        Slip::NoEnd => "where does it end? a segment's end is a variable, nil or a known field",
        Slip::NoLastCell => {
            "where is its last cell? a variable has to say it, or a field of a cell that is said before"
        }
        Slip::NoRoot => "where does it begin? a part begins at a variable, or at a known field",
        _ => "",
    }
}

/// The hint to a slip with names; empty for other slips.
fn of_names(slip: Slip) -> &'static str {
    match slip {
        Slip::ReferenceIsVariable => "a reference is a variable: the call may set it",
        Slip::ReferencesThenValues => {
            "references and values are parted by `;`, in a call too: `g(a; 1);`"
        }
        Slip::DeclaredTwice => "that name is declared twice",
        Slip::DeclareFields => {
            "the field isn't among the usual ones (hd, tl, l, r): declare it, and all others, at the top"
        }
        Slip::Undeclared => {
            "nothing here has that name: a parameter, a local, a resource's variable, a field?"
        }
        Slip::TooMany => "that is more than a file may have; LANGUAGE has the limits",
        Slip::TooDeep => "commands and assertions nest at most 64 deep",
        Slip::LongFile => "a file has at most 1,048,576 bytes",
        Slip::TwoVariables => "two references are two variables",
        _ => "",
    }
}

/// The hint to a slip with resources and tasks; empty for other slips.
fn of_sharing(slip: Slip) -> &'static str {
    match slip {
        Slip::OneOwner => "a variable belongs to one resource",
        Slip::OwnVariables => {
            "an invariant sees the variables of its own resource alone: one resource may have them all"
        }
        Slip::InitShape => "`init` has no parameter, and nothing in its pre and post",
        Slip::InitCalled => "`init` runs by itself before everything, and isn't called",
        Slip::EnterFirst => {
            "enter its resource first: `with r when (true) { .. }`; a region ends with its brace"
        }
        Slip::EnteredAgain => "the resource is held already: the task would wait for itself",
        Slip::UsedByCallee => "the callee uses this variable by its own name: pass another one",
        Slip::TwoTasks => "one of the two tasks may change what the other one uses",
        _ => "",
    }
}
