ghost use Rattle.std.specs.Prelude.{◌≡◌, ◌≤◌, IfSome};
ghost use Rattle.std.specs.Char.{is_ascii_digit};
ghost use Rattle.std.specs.List.{list_all};
ghost use Rattle.sf_words.specs.Words.{chosen_of, is_numeral, number_of};
ghost use Rattle.sf_words.specs.Checked.Found.{texts_under};

// The most digits of a number.
const DIGITS: usize = 19;

/// Whether each byte is a decimal digit.
fn are_digits(bytes: &[u8]) -> bool
    ensures { result ≡ list_all is_ascii_digit bytes.now }
{
    bytes.iter().all(|byte| byte.is_ascii_digit())
}

/// Whether the text is 1 to 19 decimal digits.
fn is_numeral(text: &str) -> bool
    ensures { result ≡ is_numeral text.now }
{
    1 <= text.len() && text.len() <= DIGITS && are_digits(text.as_bytes())
}

/// The number that the text writes in 1 to 19 decimal digits. `None` exactly where it writes none
/// from 1 to `most`.
pub(crate) fn number(text: &str, most: u64) -> Option<u64>
    ensures number { result ≡ number_of most text.now }
    ensures bound { IfSome result (λ n. n ≤ most) }
{
    if !is_numeral(text) {
        return None;
    }
    match text.parse::<u64>() {
        Ok(number) if 1 <= number && number <= most => Some(number),
        _ => None,
    }
}

/// The number of an option, by the values that it was given: `default` where there is none. `None`
/// exactly where there are several, or the one is no number from 1 to `most`.
pub(crate) fn chosen(values: Option<&[&str]>, most: u64, default: u64) -> Option<u64>
    ensures number { result ≡ chosen_of most default (texts_under values.entry) }
    ensures bound { default ≤ most → IfSome result (λ n. n ≤ most) }
{
    match values {
        None | Some([]) => Some(default),
        Some([text]) => number(text, most),
        Some(_) => None,
    }
}
