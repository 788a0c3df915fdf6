ghost use Rattle.std.specs.Prelude.{◌≡◌};
ghost use Rattle.std.specs.List.{list_any};
ghost use Rattle.sf_words.specs.Words.{is_blank};
ghost use Rattle.sf_words.specs.WordsOf.{words_of};
ghost use Rattle.sf_words.specs.Checked.Screen.{has_bundle, is_bundle};

/// Whether the word is empty or `-` alone.
fn is_blank(word: &str) -> bool
    ensures { result ≡ is_blank word.now }
{
    word.is_empty() || word == "-"
}

/// Whether one of the words is.
pub(crate) fn has_blank(words: &[&str]) -> bool
    ensures { result ≡ list_any is_blank (words_of words.now) }
{
    for word in words {
        if is_blank(word) {
            return true;
        }
    }
    false
}

/// Whether the word begins with `-` and goes on with something else.
fn is_bundle(word: &str) -> bool
    ensures { result ≡ is_bundle word.now }
{
    match word.as_bytes() {
        [first, second, ..] => *first == b'-' && *second != b'-',
        _ => false,
    }
}

/// Whether there is such a word before the end of the options. No command has an option of one
/// letter, so it is in no order.
pub(crate) fn has_bundle(words: &[&str]) -> bool
    ensures { result ≡ has_bundle (words_of words.now) }
{
    for word in words {
        if *word == "--" {
            return false;
        }
        if is_bundle(word) {
            return true;
        }
    }
    false
}
