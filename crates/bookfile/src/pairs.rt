// The pairs of a book file whose head is right.
ghost use Rattle.std.specs.Prelude.{◌≡◌, ◌≤◌, length, IfOk};
ghost use Rattle.std.specs.Iterator.{YieldsFirst, item_count};
ghost use Rattle.bookfile.specs.Files.{pair_count, pairs_between, file_size, head_fault, Tells};

use crate::bytes::two_at;
use crate::fault::{FileCause, FileFault, located};
use crate::pair::Pair;
use std::marker::PhantomData;
use std::ops::Range;
use survey::row::Row;

// n and m, two bytes each.
pub const HEAD: usize = 4;

pub const MOST_PAIRS: usize = 4096;

// The bytes of a file that is as long as its number of pairs states.
#[derive(Drop)]
pub(crate) struct Pairs<'a, R: Row> {
    bytes: &'a [u8],
    count: usize,
    row: PhantomData<R>,
    ghost stated: { count ≡ pair_count bytes.now },
    ghost few: { count ≤ 4096 },
    ghost whole: { length bytes.now ≡ file_size R.Row.format count },
}

// The bytes that a file of so many pairs has.
pub(crate) fn file_size<R: Row>(pairs: usize) -> usize
    requires { pairs ≤ 4096 }
    ensures { result ≡ file_size R.Row.format pairs }
{
    HEAD + 2 * pairs + R::WIDTH * pairs
}

impl<'a, R: Row> Pairs<'a, R> {
    // The pairs of a file, where its head and its length are right for a book of `lines` lines.
    pub(crate) fn of_file(bytes: &'a [u8], lines: usize) -> Result<Pairs<'a, R>, FileFault>
        ensures tells { Tells (head_fault R.Row.format lines bytes.now) result }
        ensures same { IfOk result (λ pairs. pairs.bytes.now ≡ bytes.now) }
    {
        if bytes.len() < HEAD {
            return located(Err(FileCause::Short), bytes.len());
        }
        if two_at(bytes, 0) != lines {
            return located(Err(FileCause::Lines), 0);
        }
        let count = two_at(bytes, 2);
        if count > MOST_PAIRS {
            return located(Err(FileCause::Pairs), 2);
        }
        let size = file_size::<R>(count);
        if bytes.len() != size {
            return located(Err(FileCause::Length), bytes.len().min(size));
        }
        Ok(Pairs {
            bytes,
            count,
            row: PhantomData,
        })
    }

    // The pairs, in order.
    pub(crate) fn iter(&self) -> PairIter<'_, 'a, R>
        ensures { pairs_between R.Row.format result.pairs.now.count result.pairs.now.bytes.now result.numbers.start result.numbers.end ≡ pairs_between R.Row.format self.now.count self.now.bytes.now 0 self.now.count }
    {
        PairIter {
            pairs: self,
            numbers: 0..self.count,
        }
    }
}

// Yields the pairs whose numbers are left.
#[derive(Drop)]
pub(crate) struct PairIter<'p, 'a, R: Row> {
    pairs: &'p Pairs<'a, R>,
    numbers: Range<usize>,
    ghost to_the_end: { numbers.end ≡ pairs.now.count },
}

impl<'p, 'a, R: Row> Iterator for PairIter<'p, 'a, R> {
    type Item = Pair<R>;

    ghost next_gives = { YieldsFirst (λ it. pairs_between R.Row.format it.pairs.now.count it.pairs.now.bytes.now it.numbers.start it.numbers.end) };

    ghost remaining = { item_count (λ it. pairs_between R.Row.format it.pairs.now.count it.pairs.now.bytes.now it.numbers.start it.numbers.end) };

    fn next(&mut self) -> Option<Pair<R>> {
        let number = self.numbers.next()?;
        let Pairs { bytes, count, .. } = *self.pairs;
        let line_place = HEAD + 2 * number;
        let value_place = HEAD + 2 * count + R::WIDTH * number;
        let (_, values) = bytes.split_at(value_place);
        let (row, _) = R::decode(values).unwrap();
        Some(Pair {
            line_place,
            value_place,
            line: two_at(bytes, line_place),
            row,
        })
    }
}
