// The call that a line of a turn list is.
ghost use Rattle.std.specs.Prelude.{◌≡◌, ◌<◌, ◌==◌, length, count_by};
ghost use Rattle.script.specs.Commands.{counted, called, line_says};
ghost use Rattle.script.specs.Cuts.{words, WordsOfLine};
ghost use Rattle.script.specs.Letters.{numbers_after};
ghost use Rattle.script.specs.Reading.{numbers_left, NextNumber, FirstLetter};
ghost use Rattle.script.specs.Parts.{words_left};
ghost use Rattle.script.specs.Shown.{Told, ReadsBack};

use crate::fault::{LineCause, LineFault};
use crate::letter::Letter;
use crate::word::WordKind;
use crate::words::Words;
use bookfile::fault::located;
use calls::call::Call;
use calls::order::Order;

// How many spaces a line has. Kept summed: by `filter` and `count` the benchmark of a whole list took 1.11 times as long as
// plain Rust, above the 1.1 that it may take; so it takes 0.96 times as long.
fn count_spaces(line: &[u8]) -> usize
    ensures { result ≡ count_by (λ b. b == 32) line.now }
{
    line.iter().map(|byte| usize::from(*byte == b' ')).sum()
}

// How many words a line has: one more than its spaces.
fn count_words(line: &[u8]) -> usize
    ensures { result ≡ length (words line.now) }
{
    count_spaces(line) + 1
}

// Whether the line has a word for its letter and for each number after it.
fn check_count(line: &[u8], letter: Letter) -> Result<(), LineFault>
    ensures { result ≡ counted line.now letter }
{
    if count_words(line) != letter.number_count() + 1 {
        return located(Err(LineCause::WordCount), line.len());
    }
    Ok(())
}

// The letter that the first word is.
// Kept a match: a word without a letter and no word at all are the same fault.
fn first_letter(words: &mut Words) -> Result<Letter, LineFault>
    ensures { FirstLetter words.old words.new result }
{
    match words.next().map(|word| word.kind) {
        Some(WordKind::Letter(letter)) => Ok(letter),
        _ => located(Err(LineCause::UnknownLetter), 0),
    }
}

// The number that the next word is.
fn next_number(words: &mut Words) -> Result<u32, LineFault>
    requires { 0 < length (words_left words.old) }
    ensures { NextNumber words.old words.new result }
{
    let word = words.next().unwrap();
    match word.kind {
        WordKind::Number(number) => Ok(number),
        WordKind::Letter(_) | WordKind::Other => located(Err(LineCause::NotNumber), word.place),
    }
}

// The numbers that the words to come are, as many as there are.
// Kept a loop: in the closure of `array::try_from_fn` it is not known that a word is left, since each call reads one away.
fn numbers<const N: usize>(words: &mut Words) -> Result<[u32; N], LineFault>
    requires { length (words_left words.old) ≡ N }
    ensures { result ≡ numbers_left words.old }
{
    let mut all = [0; N];
    for number in all.iter_mut() {
        *number = next_number(words)?;
    }
    Ok(all)
}

// The call of a letter, from the words after it.
// Kept three arms of one shape: `numbers::<1>(words).map(|[seat]| Call::Step { seat })` was tried, and none of its returns was proved.
fn call_of(letter: Letter, words: &mut Words) -> Result<Call, LineFault>
    requires { length (words_left words.old) ≡ numbers_after letter }
    ensures { result ≡ called letter (numbers_left words.old) }
{
    match letter {
        Letter::Start => {
            let [seat, kind, a, b, c, d] = numbers::<6>(words)?;
            let order = Order { kind, a, b, c, d };
            Ok(Call::Start { seat, order })
        }
        Letter::Step => {
            let [seat] = numbers::<1>(words)?;
            Ok(Call::Step { seat })
        }
        Letter::Withdraw => {
            let [seat] = numbers::<1>(words)?;
            Ok(Call::Withdraw { seat })
        }
        Letter::Look => {
            let [line] = numbers::<1>(words)?;
            Ok(Call::Look { line })
        }
    }
}

// The letter, the count of words, and the numbers: the first that fails is the fault.
// Kept apart from `call_in`, which adds the laws once, and not at each of these answers.
fn read_call(line: &[u8]) -> Result<Call, LineFault>
    ensures { result ≡ line_says line.now }
{
    let mut words = Words::new(line);
    let letter = first_letter(&mut words)?;
    check_count(line, letter)?;
    call_of(letter, &mut words)
}

// The call that a line is, or what is wrong with it first, and where.
// A line is a call exactly if it is what the call shows.
pub fn call_in(line: &[u8]) -> Result<Call, LineFault>
    ensures says { result ≡ line_says line.now }
    ensures told { Told line.now result }
    ensures reads_back { ReadsBack }
    ensures words { WordsOfLine line.now (words line.now) }
{
    read_call(line)
}
