// Numbers of a turn list.
ghost use Rattle.std.specs.Prelude.{◌≡◌, ◌≤◌, length};
ghost use Rattle.script.specs.Numbers.{number_of, spelt, IsWriting};

const MOST_DIGITS: usize = 10;

// The number that the bytes write, where each is a digit.
// Kept a loop: the closure of `try_fold` does not know how many digits went before, so that each sum would need a test.
fn digits_value(word: &[u8]) -> Option<u64>
    requires { length word.now ≤ 10 }
    ensures { result ≡ spelt 0 word.now }
{
    let mut number: u64 = 0;
    for byte in word {
        if !byte.is_ascii_digit() {
            return None;
        }
        number = number * 10 + u64::from(*byte - b'0');
    }
    Some(number)
}

// A word of few digits, the first of which is no needless zero, and the number not too large.
// Kept apart from `number`, which adds the law once, and not at each of these answers.
fn checked_value(word: &[u8]) -> Option<u32>
    ensures { result ≡ number_of word.now }
{
    match word {
        [] | [b'0', _, ..] => None,
        _ if word.len() > MOST_DIGITS => None,
        _ => u32::try_from(digits_value(word)?).ok(),
    }
}

// The number that a word is, if it is one.
pub fn number(word: &[u8]) -> Option<u32>
    ensures value { result ≡ number_of word.now }
    ensures writing { IsWriting word.now result }
{
    checked_value(word)
}
