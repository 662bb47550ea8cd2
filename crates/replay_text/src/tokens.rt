//! Single words: numbers and names.
ghost use Rattle.std.specs.Prelude.{◌≡◌, ◌≤◌, ◌<◌, Some, false, length, take, slice_index, IfSome};
ghost use Rattle.std.specs.Char.{is_ascii_digit};
ghost use Rattle.std.specs.List.{list_all};
ghost use Rattle.wire_base.specs.model.Configuration as configuration;
ghost use Rattle.replay_text.specs.Tokens.{number_of, number_after};
ghost use Rattle.replay_text.specs.Arguments as arguments;

/// Parses a number of 1 to 10 decimal digits. Returns `None` for any other text.
#[tactic(auto, unfolding(crate::specs::Tokens::number_of))]
pub fn number(text: &[u8]) -> Option<u64>
    ensures { result ≡ number_of text.now }
{
    if text.is_empty() || text.len() > 10 {
        return None;
    }
    let mut value = 0u64;
    for (i, octet) in text.iter().enumerate() {
        if !octet.is_ascii_digit() {
            return None;
        }
        value = value * 10 + u64::from(*octet - b'0');
    }
    Some(value)
}

/// Reads the digits at the front of a text, at most ten. Returns their number and how many they are.
pub fn front_number(text: &[u8]) -> (u64, usize)
    ensures value { number_after 0 (take result.1 text.now) ≡ Some result.0 }
    ensures few { result.1 ≤ 10 }
    ensures within { result.1 ≤ length text.now }
    ensures whole { result.1 < length text.now → result.1 < 10 → is_ascii_digit (slice_index text.now result.1) ≡ false }
{
    let most = text.len().min(10);
    let mut value = 0u64;
    let mut count = 0;
    'digits: while count < most && text[count].is_ascii_digit() {
        value = value * 10 + u64::from(text[count] - b'0');
        count += 1;
    }
    (value, count)
}

/// Parses a number up to the bound.
pub fn number_to(text: &[u8], bound: u64) -> Option<u64>
    ensures value { result ≡ arguments.number_to bound text.now }
    ensures within { IfSome result (λ n. n ≤ bound) }
{
    let number = number(text)?;
    if number > bound {
        return None;
    }
    Some(number)
}

/// Parses a number between the bounds.
pub fn number_from(text: &[u8], least: u64, most: u64) -> Option<u64>
    ensures value { result ≡ arguments.number_from least most text.now }
    ensures low { IfSome result (λ n. least ≤ n) }
    ensures high { IfSome result (λ n. n ≤ most) }
{
    let number = number_to(text, most)?;
    if number < least {
        return None;
    }
    Some(number)
}

fn is_name_octet(octet: u8) -> bool
    ensures { result ≡ configuration.is_name_octet octet }
{
    octet.is_ascii_alphanumeric() || octet == b'_' || octet == b'-'
}

fn are_name_octets(text: &[u8]) -> bool
    ensures { result ≡ list_all configuration.is_name_octet text.now }
{
    text.iter().all(|octet| is_name_octet(*octet))
}

/// Returns whether the text is a valid router name: a letter, followed by at most 31 letters, digits, `_` and `-`.
pub fn is_router_name(text: &[u8]) -> bool
    ensures { result ≡ configuration.is_name text.now }
{
    match text {
        [] => false,
        [first, rest @ ..] => {
            first.is_ascii_alphabetic() && are_name_octets(rest) && rest.len() <= 31
        }
    }
}
