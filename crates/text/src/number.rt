// Numbers in a line, read from its bytes.
ghost use Rattle.std.specs.Prelude.{◌≡◌, ◌<◌, ◌≤◌, length, None, IfSome, MatchOption};
ghost use Rattle.std.specs.Fn.{FnOnceReturnsAt};
ghost use Rattle.std.specs.Option.{option_map};
ghost use Rattle.std.specs.Str.Parse.{AllDigits, digits_value};
ghost use Rattle.text.specs.Numbers.{after, digits_in, field, last_field, last_signed_field, lone, number, signed};

// How many digits stand in front.
fn digit_count(text: &[u8]) -> usize
    ensures value { result ≡ digits_in text.now }
    ensures within { result ≤ length text.now }
{
    text.iter().take_while(|byte| byte.is_ascii_digit()).count()
}

// The number that digits write. By `str::parse` of std a line took twice as long, since it looks at each digit again.
fn digits_value(digits: &[u8]) -> u64
    requires few { length digits.now ≤ 10 }
    requires digits { AllDigits 10 digits.now }
    ensures value { result ≡ digits_value 10 digits.now }
    ensures range { result < 10000000000 }
{
    let mut value = 0;
    for digit in digits {
        value = 10 * value + u64::from(*digit - b'0');
    }
    value
}

// The number in front, of 1 to 10 digits, and what follows it.
fn number(text: &[u8]) -> Option<(u64, &[u8])>
    ensures value { option_map (λ x. (x.0, x.1.now)) result ≡ number text.now }
    ensures range { IfSome result (λ x. x.0 < 10000000000) }
{
    match digit_count(text) {
        count @ 1..=10 => {
            let (digits, rest) = text.split_at(count);
            Some((digits_value(digits), rest))
        }
        _ => None,
    }
}

// The number that a text is.
fn lone(text: &[u8]) -> Option<u64>
    ensures value { result ≡ lone text.now }
    ensures range { IfSome result (λ n. n < 10000000000) }
{
    match number(text)? {
        (value, []) => Some(value),
        _ => None,
    }
}

// What is read from all that follows a comma.
fn after_comma<'a, T, F: FnOnce(&'a [u8]) -> Option<T>>(text: &'a [u8], read: F) -> Option<T>
    requires { F.IsAlwaysCallable read }
    ensures { MatchOption (after 44 text.now) (result ≡ None) (λ rest. FnOnceReturnsAt F.FnOnce read rest result) }
{
    read(text.strip_prefix(b",")?)
}

// A field that more fields may follow: its number, and what follows it.
pub fn field(text: &[u8]) -> Option<(u64, &[u8])>
    ensures { option_map (λ x. (x.0, x.1.now)) result ≡ field text.now }
{
    after_comma(text, number)
}

// The last field.
pub fn last_field(text: &[u8]) -> Option<u64>
    ensures { result ≡ last_field text.now }
{
    after_comma(text, lone)
}

// A number that a minus may stand before. Ten digits are proved to fit, so no `try_from`.
fn signed(text: &[u8]) -> Option<i64>
    ensures { result ≡ signed text.now }
{
    match text.strip_prefix(b"-") {
        Some(digits) => lone(digits).map(|value| -(value as i64)),
        None => lone(text).map(|value| value as i64),
    }
}

// The last field, where it may be negative.
pub fn last_signed_field(text: &[u8]) -> Option<i64>
    ensures { result ≡ last_signed_field text.now }
{
    after_comma(text, signed)
}
