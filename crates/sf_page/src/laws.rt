//! Laws of escaped text and of pages. Each function does nothing; its contract is the law.

ghost use Rattle.sf_page.specs.Checked.Laws.{EscapedHasNoMarkup, TagsAreTheSame};

/// An escaped text has no byte that can be markup.
#[tactic(auto, using(crate::proofs::Escaping::escaped_has_no_markup))]
pub fn escaped_has_no_markup()
    ensures { EscapedHasNoMarkup }
{}

/// Whatever texts a page shows, its tags are the same.
#[tactic(auto, using(crate::proofs::Tags::tags_are_the_same))]
pub fn tags_are_the_same()
    ensures { TagsAreTheSame }
{}
