//! Laws of reading words. Each function does nothing; its contract is the law.

ghost use Rattle.sf_words.specs.Checked.Laws.{EachOrderIsSpelled, WordsAreOneOrder};

/// Words are at most one order.
pub fn words_are_one_order()
    ensures { WordsAreOneOrder }
{}

/// Each order whose words are not blank, and whose numbers are in their ranges, is spelled by some
/// words.
pub fn each_order_is_spelled()
    ensures { EachOrderIsSpelled }
{}
