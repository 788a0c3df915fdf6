//! The elements, classes and attributes that a page is made of.

ghost use Rattle.std.specs.Prelude.{◌≡◌};
ghost use Rattle.sf_page.specs.Markup.{class_text, element_text, number_after, number_before};

/// An element.
#[derive(Clone, Copy)]
pub enum Element {
    /// A block.
    Div,
    /// A piece of a line.
    Span,
    /// A link.
    A,
    /// A section.
    Section,
    /// A list.
    Ol,
    /// An item of a list.
    Li,
    /// The title.
    H1,
    /// A heading.
    H2,
    /// A heading below it.
    H3,
    /// A paragraph.
    P,
    /// A piece of a program.
    Code,
    /// A drawing.
    Svg,
    /// A group of a drawing.
    G,
    /// A rectangle.
    Rect,
    /// A text in a drawing.
    Label,
    /// A line of a drawing.
    Path,
}

/// What an element is for.
#[derive(Clone, Copy)]
pub enum Class {
    /// The head of the page.
    Top,
    /// Its title.
    Title,
    /// What it sums up.
    Summary,
    /// A remark.
    Note,
    /// The source.
    Source,
    /// A line of it.
    Line,
    /// A line that stands out.
    Marked,
    /// The number of a line.
    Row,
    /// A text as it is written.
    Words,
    /// What is said of a line.
    Said,
    /// All that can be walked.
    Tracks,
    /// A walk that ended as it should.
    Fine,
    /// A walk that ended with a fault.
    Bad,
    /// A walk of which nothing is known.
    Unknown,
    /// How it ended.
    Verdict,
    /// The steps.
    Steps,
    /// A step.
    Step,
    /// The step that fails.
    Fails,
    /// The name of a step.
    Tag,
    /// The rule of a step.
    Rule,
    /// What is shown of a step.
    View,
    /// A state.
    Scene,
    /// What belongs together.
    Group,
    /// Its heading.
    Caption,
    /// Values beside each other.
    Values,
    /// One of them.
    Value,
    /// A name.
    Name,
    /// A term.
    Term,
    /// What is wanted next.
    Wanted,
    /// What often helps.
    Helps,
    /// Scenes beside each other.
    Beside,
    /// Tasks beside each other.
    Tasks,
    /// A task.
    Task,
    /// What it does next.
    Doing,
    /// Who owns cells.
    Owners,
    /// One of them.
    Owner,
    /// A drawn heap.
    Heap,
    /// A part of it.
    Figure,
    /// The box of a cell.
    Cell,
    /// The box of what stands for more cells.
    Dashed,
    /// The head of a box.
    Bar,
    /// The address of a part.
    At,
    /// Which part it is.
    Kind,
    /// The name of a field.
    Field,
    /// The term of a field.
    Content,
    /// The variables that point at a part.
    Pointers,
    /// An arrow.
    Arrow,
    /// A dashed arrow.
    Loose,
}

/// An attribute whose value is a number, or a part of one.
#[derive(Clone, Copy)]
pub enum Attribute {
    /// From the left.
    X,
    /// From the top.
    Y,
    /// How wide.
    Width,
    /// How high.
    Height,
    /// How wide a drawing is; `Last` comes next.
    Frame,
    /// Where a line begins, from the left; `MoveY` comes next.
    MoveX,
    /// Where a line begins, from the top; `Bend` comes next.
    MoveY,
    /// A number that others follow, the last of them `Last`.
    Bend,
    /// The last of several numbers.
    Last,
    /// The name of a line.
    IdLine,
    /// A link to a line.
    ToLine,
    /// The name of a step; `Last` comes next.
    IdStep,
    /// A link to a step; `Last` comes next.
    ToStep,
    /// How deep.
    Depth,
    /// The line where a command begins.
    FromLine,
    /// The column where it begins.
    FromColumn,
    /// The line where it ends.
    ToEndLine,
    /// The column just behind its end.
    ToEndColumn,
    /// Whose something is.
    Whose,
    /// Whether it was handed over.
    Gone,
}

/// An attribute with its value.
#[derive(Clone, Copy)]
pub struct Number {
    /// Which.
    pub attribute: Attribute,
    /// Its value.
    pub value: u32,
}

impl Attribute {
    /// The attribute with that value.
    pub fn with(self, value: u32) -> Number
        ensures attribute { result.attribute ≡ self }
        ensures value { result.value ≡ value }
    {
        Number {
            attribute: self,
            value,
        }
    }
}

/// The name of an element.
pub fn element_text(element: Element) -> &'static str
    ensures { result.now ≡ element_text element }
{
    match element {
        Element::Div => "div",
        Element::Span => "span",
        Element::A => "a",
        Element::Section => "section",
        Element::Ol => "ol",
        Element::Li => "li",
        Element::H1 => "h1",
        Element::H2 => "h2",
        Element::H3 => "h3",
        Element::P => "p",
        Element::Code => "code",
        Element::Svg => "svg",
        Element::G => "g",
        Element::Rect => "rect",
        Element::Label => "text",
        Element::Path => "path",
    }
}

/// The names of a class.
pub fn class_text(class: Class) -> &'static str
    ensures { result.now ≡ class_text class }
{
    match class {
        Class::Top => "top",
        Class::Title => "title",
        Class::Summary => "summary",
        Class::Note => "note",
        Class::Source => "source",
        Class::Line => "line",
        Class::Marked => "line marked",
        Class::Row => "row",
        Class::Words => "words",
        Class::Said => "said",
        Class::Tracks => "tracks",
        Class::Fine => "track fine",
        Class::Bad => "track bad",
        Class::Unknown => "track unknown",
        Class::Verdict => "verdict",
        Class::Steps => "steps",
        Class::Step => "step",
        Class::Fails => "step fails",
        Class::Tag => "tag",
        Class::Rule => "rule",
        Class::View => "view",
        Class::Scene => "scene",
        Class::Group => "group",
        Class::Caption => "caption",
        Class::Values => "values",
        Class::Value => "value",
        Class::Name => "name",
        Class::Term => "term",
        Class::Wanted => "wanted",
        Class::Helps => "helps",
        Class::Beside => "beside",
        Class::Tasks => "tasks",
        Class::Task => "task",
        Class::Doing => "doing",
        Class::Owners => "owners",
        Class::Owner => "owner",
        Class::Heap => "heap",
        Class::Figure => "figure",
        Class::Cell => "cell",
        Class::Dashed => "dashed",
        Class::Bar => "bar",
        Class::At => "at",
        Class::Kind => "kind",
        Class::Field => "field",
        Class::Content => "content",
        Class::Pointers => "pointers",
        Class::Arrow => "arrow",
        Class::Loose => "arrow loose",
    }
}

/// What stands before the value of an attribute.
pub fn number_before(attribute: Attribute) -> &'static str
    ensures { result.now ≡ number_before attribute }
{
    match attribute {
        Attribute::X => " x=\"",
        Attribute::Y => " y=\"",
        Attribute::Width => " width=\"",
        Attribute::Height => " height=\"",
        Attribute::Frame => " viewBox=\"0 0 ",
        Attribute::MoveX => " d=\"M",
        Attribute::MoveY => "",
        Attribute::Bend => "",
        Attribute::Last => "",
        Attribute::IdLine => " id=\"L",
        Attribute::ToLine => " href=\"#L",
        Attribute::IdStep => " id=\"step-",
        Attribute::ToStep => " href=\"#step-",
        Attribute::Depth => " style=\"--depth:",
        Attribute::FromLine => " data-line=\"",
        Attribute::FromColumn => " data-column=\"",
        Attribute::ToEndLine => " data-end-line=\"",
        Attribute::ToEndColumn => " data-end-column=\"",
        Attribute::Whose => " data-owner=\"",
        Attribute::Gone => " data-gone=\"",
    }
}

/// What stands behind the value of an attribute.
pub fn number_after(attribute: Attribute) -> &'static str
    ensures { result.now ≡ number_after attribute }
{
    match attribute {
        Attribute::X => "\"",
        Attribute::Y => "\"",
        Attribute::Width => "\"",
        Attribute::Height => "\"",
        Attribute::Frame => " ",
        Attribute::MoveX => " ",
        Attribute::MoveY => " C",
        Attribute::Bend => " ",
        Attribute::Last => "\"",
        Attribute::IdLine => "\"",
        Attribute::ToLine => "\"",
        Attribute::IdStep => "-",
        Attribute::ToStep => "-",
        Attribute::Depth => "\"",
        Attribute::FromLine => "\"",
        Attribute::FromColumn => "\"",
        Attribute::ToEndLine => "\"",
        Attribute::ToEndColumn => "\"",
        Attribute::Whose => "\"",
        Attribute::Gone => "\"",
    }
}
