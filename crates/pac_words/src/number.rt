// Numbers in words.

ghost use Rattle.std.specs.Prelude.{◌≡◌, ◌≤◌, IfSome, option_map};
ghost use Rattle.std.specs.List.{list_all};
ghost use Rattle.pac_words.specs.Values.{is_digit, is_number, number_in, number_or};

fn has_digits_only(text: &str) -> bool
    ensures { result ≡ list_all is_digit text.now }
{
    text.as_bytes().iter().all(|c| b'0' <= *c && *c <= b'9')
}

// Whether the text is 1 to 20 digits.
fn looks_a_number(text: &str) -> bool
    ensures { result ≡ is_number text.now }
{
    let length = text.len();
    let digits = has_digits_only(text);
    1 <= length && length <= 20 && digits
}

/// The number, where the text is 1 to 20 digits and the number is in the range.
pub(crate) fn number(text: &str, low: u64, high: u64) -> Option<u64>
    ensures number { result ≡ number_in low high text.now }
    ensures range { IfSome result (λ n. (low ≤ n) × (n ≤ high)) }
{
    if !looks_a_number(text) {
        return None;
    }
    match text.parse::<u64>() {
        Ok(value) => {
            if low <= value && value <= high {
                Some(value)
            } else {
                None
            }
        }
        Err(_) => None,
    }
}

/// The same of an option, and its usual value where it isn't given.
pub(crate) fn number_or(text: Option<&str>, usual: u64, low: u64, high: u64) -> Option<u64>
    requires low { low ≤ usual }
    requires high { usual ≤ high }
    ensures number { result ≡ number_or usual low high (option_map (λ t. t.now) text.entry) }
    ensures range { IfSome result (λ n. (low ≤ n) × (n ≤ high)) }
{
    match text {
        None => Some(usual),
        Some(text) => number(text, low, high),
    }
}
