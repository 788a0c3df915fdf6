//! What a page shows, as plain data. Texts are bytes as they are, without the ends of lines.

/// A place in the source: from a line and column to just before another. Where no end is known it
/// is the beginning, and the rest of the line is meant. Line 0 is no place.
#[derive(Clone, Copy)]
pub struct Span {
    /// The line where it begins, counted from 1.
    pub line: u32,
    /// The column where it begins, counted from 1.
    pub column: u32,
    /// The line where it ends.
    pub end_line: u32,
    /// The column just behind its end.
    pub end_column: u32,
}

/// A page.
#[derive(Drop)]
pub struct Page {
    /// What it is of: the name of a file.
    pub title: Vec<u8>,
    /// One line that sums it up.
    pub summary: Vec<u8>,
    /// The lines of the source.
    pub source: Vec<Vec<u8>>,
    /// What stands out in the source.
    pub marks: Vec<Mark>,
    /// What can be walked step by step.
    pub tracks: Vec<Track>,
    /// How a run began and ended.
    pub run: Option<Run>,
}

/// A marked place of the source.
#[derive(Drop)]
pub struct Mark {
    /// Where.
    pub span: Span,
    /// What is said of it.
    pub said: Vec<u8>,
}

/// What is walked.
#[derive(Clone, Copy)]
pub enum TrackKind {
    /// The steps of a proof.
    Proof,
    /// The events of a schedule.
    Schedule,
}

/// How something ended.
#[derive(Clone, Copy)]
pub enum Verdict {
    /// As it should.
    Fine,
    /// With a fault.
    Bad,
    /// Nothing is known of it.
    Unknown,
}

/// What can be walked step by step: the proof of a procedure, or a schedule.
#[derive(Drop)]
pub struct Track {
    /// Which of both.
    pub kind: TrackKind,
    /// The name of the procedure.
    pub name: Vec<u8>,
    /// Where the procedure stands.
    pub span: Span,
    /// How it ended.
    pub verdict: Verdict,
    /// How it ended, in words.
    pub said: Vec<u8>,
    /// The steps, in order.
    pub steps: Vec<Step>,
    /// How many steps came behind these.
    pub left_out: u64,
    /// Why it failed, where it did.
    pub failure: Option<Failure>,
}

/// A step: a tag of a proof with the goal before it, or an event with the configuration after it.
#[derive(Drop)]
pub struct Step {
    /// How deep it is in the tree: the steps below one follow it, one deeper.
    pub depth: u32,
    /// Where its command stands.
    pub span: Span,
    /// The tag as a proof has it, or the event.
    pub name: Vec<u8>,
    /// The rule in one line.
    pub rule: Vec<u8>,
    /// Whether it is the one that fails.
    pub fails: bool,
    /// What is shown of it.
    pub scene: Option<Scene>,
}

/// What is shown of a step, or of a state of a run.
#[derive(Drop)]
pub struct Scene {
    /// Variables with their terms.
    pub variables: Vec<Value>,
    /// What differs.
    pub differ: Vec<Vec<u8>>,
    /// The parts of the heap.
    pub heap: Vec<Part>,
    /// What is wanted next.
    pub wanted: Vec<Vec<u8>>,
    /// The tasks of a configuration.
    pub tasks: Vec<Task>,
}

/// A name with its term: of a variable, or of a field.
#[derive(Drop)]
pub struct Value {
    /// The name.
    pub name: Vec<u8>,
    /// The term.
    pub term: Vec<u8>,
}

/// A part of the heap.
#[derive(Drop)]
pub struct Part {
    /// Its number, or nothing.
    pub label: Vec<u8>,
    /// What it is.
    pub shape: Shape,
    /// Whether it was handed over.
    pub gone: bool,
    /// Whose it is, by a number that has a colour.
    pub owner: Option<u8>,
}

/// What a part of the heap is. Terms are the same where their texts are.
#[derive(Drop)]
pub enum Shape {
    /// A cell.
    Cell {
        /// Its address.
        at: Vec<u8>,
        /// Its fields that are known.
        fields: Vec<Value>,
    },
    /// A segment of a list.
    List {
        /// Where it begins.
        at: Vec<u8>,
        /// Where it ends.
        to: Vec<u8>,
    },
    /// A tree.
    Tree {
        /// Its root.
        at: Vec<u8>,
    },
    /// A segment of a doubly linked list.
    Double {
        /// Where it begins.
        at: Vec<u8>,
        /// What stands before it.
        before: Vec<u8>,
        /// Its last cell.
        last: Vec<u8>,
        /// Where it ends.
        to: Vec<u8>,
    },
}

/// A task of a configuration.
#[derive(Drop)]
pub struct Task {
    /// Its path.
    pub path: Vec<u8>,
    /// What it does next.
    pub doing: Vec<u8>,
    /// Where that stands.
    pub span: Span,
    /// Its variables.
    pub variables: Vec<Value>,
    /// Its number among those that have a colour.
    pub owner: Option<u8>,
}

/// Why something failed.
#[derive(Drop)]
pub struct Failure {
    /// The failure in one line.
    pub title: Vec<u8>,
    /// Where it is.
    pub span: Span,
    /// What is known, in words.
    pub known: Vec<Vec<u8>>,
    /// What is wanted, in words; what it is itself is in the scene.
    pub wanted: Vec<Vec<u8>>,
    /// What often helps.
    pub helps: Vec<Vec<u8>>,
    /// What it fails at.
    pub scene: Option<Scene>,
    /// A state in which it fails.
    pub witness: Option<Witness>,
}

/// A state in which something fails.
#[derive(Drop)]
pub struct Witness {
    /// Its text.
    pub text: Vec<Vec<u8>>,
    /// What is shown of it.
    pub scene: Scene,
}

/// How a run began and ended.
#[derive(Drop)]
pub struct Run {
    /// The run in one line.
    pub said: Vec<u8>,
    /// Who owns cells, by number.
    pub owners: Vec<Vec<u8>>,
    /// The start.
    pub start: Scene,
    /// The end, where there is one.
    pub end: Option<Scene>,
}
