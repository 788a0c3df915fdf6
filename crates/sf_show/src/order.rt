//! What the words ask for.

/// What is said of words that ask for nothing.
pub const USAGE: &str = "usage: show explain FILE [PROOF]
       show goals FILE [PROOF]
       show trace FILE ENTRY STATE [SCHEDULE]
       show page FILE [ENTRY STATE [SCHEDULE]]
";

/// A run of a procedure: its name, and the names of two files.
#[derive(Clone, Copy, Debug)]
pub struct RunWords<'a> {
    /// The procedure's name.
    pub entry: &'a str,
    /// The file of the state in which it starts.
    pub state: &'a str,
    /// The file of the events that are made, if they are given.
    pub schedule: Option<&'a str>,
}

/// What is asked for.
#[derive(Clone, Copy, Debug)]
pub enum Order<'a> {
    /// Why the file, or the proof of it, is refused, or which obligation fails.
    Explain(&'a str, Option<&'a str>),
    /// The goals after the tags of the proof that is found, or of the one that is given.
    Goals(&'a str, Option<&'a str>),
    /// The states of a run.
    Trace(&'a str, RunWords<'a>),
    /// All of this as a page.
    Page(&'a str, Option<RunWords<'a>>),
}

/// The run that these words ask for.
fn run_of<'a>(words: &[&'a str]) -> Option<RunWords<'a>> {
    match words {
        [entry, state] => Some(RunWords {
            entry: *entry,
            state: *state,
            schedule: None,
        }),
        [entry, state, schedule] => Some(RunWords {
            entry: *entry,
            state: *state,
            schedule: Some(*schedule),
        }),
        _ => None,
    }
}

/// The file and the proof that these words name.
fn proof_of<'a>(words: &[&'a str]) -> Option<(&'a str, Option<&'a str>)> {
    match words {
        [file] => Some((*file, None)),
        [file, proof] => Some((*file, Some(*proof))),
        _ => None,
    }
}

/// The page that these words ask for.
fn page_of<'a>(words: &[&'a str]) -> Option<Order<'a>> {
    match words {
        [file] => Some(Order::Page(*file, None)),
        [file, rest @ ..] => Some(Order::Page(*file, Some(run_of(rest)?))),
        _ => None,
    }
}

/// The trace that these words ask for.
fn trace_of<'a>(words: &[&'a str]) -> Option<Order<'a>> {
    match words {
        [file, rest @ ..] => Some(Order::Trace(*file, run_of(rest)?)),
        _ => None,
    }
}

/// What the words ask for, if they ask for something.
pub fn order_of<'a>(words: &[&'a str]) -> Option<Order<'a>> {
    let (command, rest) = words.split_first()?;
    match *command {
        "explain" => {
            let (file, proof) = proof_of(rest)?;
            Some(Order::Explain(file, proof))
        }
        "goals" => {
            let (file, proof) = proof_of(rest)?;
            Some(Order::Goals(file, proof))
        }
        "trace" => trace_of(rest),
        "page" => page_of(rest),
        _ => None,
    }
}
