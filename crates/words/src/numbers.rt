ghost use Rattle.std.specs.Prelude.{◌≡◌};
ghost use Rattle.std.specs.List.{list_all};
ghost use Rattle.words.specs.Numbers.{is_digit, number_of};

// Whether each byte of a text is a decimal digit.
fn is_digits(text: &str) -> bool
    ensures { result ≡ list_all is_digit text.now }
{
    text.bytes().all(|b| b.is_ascii_digit())
}

// The number that a text of decimal digits writes, or the largest of 32 bits where it is larger; none at any other text.
#[tactic(auto, using(crate::proofs::Reading::other_text, crate::proofs::Reading::digits_text))]
pub(crate) fn number(text: &str) -> Option<u32>
    ensures { result ≡ number_of text.now }
{
    if text.is_empty() || !is_digits(text) {
        return None;
    }
    Some(text.parse().unwrap_or(u32::MAX))
}
