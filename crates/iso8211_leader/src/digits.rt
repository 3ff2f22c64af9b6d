//! Numbers in decimal digits.
//!
//! Each field of each record has two such numbers in its directory, so a file has many. Bytes are weighed by a table
//! and added up, and one comparison at the end tells whether all were digits.

ghost use Rattle.std.specs.Prelude.{◌≡◌, ◌-◌, ◌+◌, ◌*◌, ◌≤◌, ◌<◌, ◌^◌, length, IfSome};
ghost use Rattle.std.specs.Int.{IsInRange};
ghost use Rattle.std.specs.Option.{SomeIff};
ghost use Rattle.std.specs.Str.Parse.{digits_value};
ghost use Rattle.iso8211_leader.specs.Digits.{AreDigits, weight_sum, weight};

/// What a byte weighs that is no digit: more than any number of nine digits.
const NO_DIGIT: u32 = 1_000_000_000;

/// The same, in short for the table.
const N: u32 = NO_DIGIT;

/// What each byte weighs: a digit its value.
static WEIGHTS: [u32; 256] = [
    N, N, N, N, N, N, N, N, N, N, N, N, N, N, N, N, N, N, N, N, N, N, N, N, N, N, N, N, N, N, N, N,
    N, N, N, N, N, N, N, N, N, N, N, N, N, N, N, N, 0, 1, 2, 3, 4, 5, 6, 7, 8, 9, N, N, N, N, N, N,
    N, N, N, N, N, N, N, N, N, N, N, N, N, N, N, N, N, N, N, N, N, N, N, N, N, N, N, N, N, N, N, N,
    N, N, N, N, N, N, N, N, N, N, N, N, N, N, N, N, N, N, N, N, N, N, N, N, N, N, N, N, N, N, N, N,
    N, N, N, N, N, N, N, N, N, N, N, N, N, N, N, N, N, N, N, N, N, N, N, N, N, N, N, N, N, N, N, N,
    N, N, N, N, N, N, N, N, N, N, N, N, N, N, N, N, N, N, N, N, N, N, N, N, N, N, N, N, N, N, N, N,
    N, N, N, N, N, N, N, N, N, N, N, N, N, N, N, N, N, N, N, N, N, N, N, N, N, N, N, N, N, N, N, N,
    N, N, N, N, N, N, N, N, N, N, N, N, N, N, N, N, N, N, N, N, N, N, N, N, N, N, N, N, N, N, N, N,
];

/// The number of a text that is decimal digits and nothing else.
///
/// Each byte is weighed, and no digit looked at by itself: a byte that is none weighs more than all digits can.
pub(crate) fn number_in(text: &[u8]) -> Option<u32>
    requires { length text.now ≤ 9 }
    ensures value { SomeIff result (AreDigits text.now) (digits_value 10 text.now) }
    ensures below { IfSome result (λ number. number < 10 ^ length text.now) }
{
    let sum = sum_of(text);
    if sum < u64::from(NO_DIGIT) {
        Some(sum as u32)
    } else {
        None
    }
}

/// What the bytes weigh, each ten times as much as the next. A number of a leader has five digits, and so have those of
/// an entry in the files that are written here: five are summed without a loop.
fn sum_of(text: &[u8]) -> u64
    requires { length text.now ≤ 9 }
    ensures { result ≡ weight_sum 0 text.now }
{
    match text {
        [a, b, c, d, e] => with(with(with(with(with(0, *a), *b), *c), *d), *e),
        _ => sum_of_each(text),
    }
}

/// What the bytes weigh, however many they are.
fn sum_of_each(text: &[u8]) -> u64
    requires { length text.now ≤ 9 }
    ensures { result ≡ weight_sum 0 text.now }
{
    let mut sum: u64 = 0;
    for byte in text {
        sum = with(sum, *byte);
    }
    sum
}

/// What bytes weigh with one more behind them.
fn with(sum: u64, byte: u8) -> u64
    requires { sum ≤ 1000000000000000000 }
    ensures sum { result ≡ 10 * sum + weight byte }
    ensures most { result ≤ 10 * sum + 1000000000 }
{
    10 * sum + u64::from(WEIGHTS[byte as usize])
}

/// The size that one digit from 1 to 9 gives.
pub(crate) fn size_in(digit: u8) -> Option<u8>
    ensures { SomeIff result (IsInRange 49 57 digit) (digit - 48) }
{
    match digit {
        b'1'..=b'9' => Some(digit - b'0'),
        _ => None,
    }
}
