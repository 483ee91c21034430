// A book over lent memory of values.
ghost use Rattle.std.specs.Prelude.{◌≡◌, ◌≤◌, min, length, take};
ghost use Rattle.book.specs.Books.{Writes};
ghost use Rattle.book.specs.Chapters.{WrittenBelow};

use crate::book::{Book, MOST_LINES};
use crate::refusal::BookRefusal;

// The lines are the places of the memory, the first 1,024 at most; the places beyond are left alone.
#[derive(Drop)]
pub struct FlatBook<'a, V> {
    memory: &'a mut [V],
}

impl<'a, V: Copy> FlatBook<'a, V> {
    pub fn new(memory: &'a mut [V]) -> FlatBook<'a, V>
        ensures value { result.memory.now ≡ memory.old }
        ensures named { result.memory.ghost_name ≡ memory.entry.ghost_name }
    {
        FlatBook { memory }
    }
}

// How many places of the memory are lines.
fn line_count<V: Copy>(memory: &[V]) -> usize
    ensures { result ≡ min 1024 (length memory.now) }
{
    MOST_LINES.min(memory.len())
}

// The places of the memory that are lines.
fn line_places<V: Copy>(memory: &[V]) -> &[V]
    ensures value { result.now ≡ take 1024 memory.now }
    ensures bound { length result.now ≤ 1024 }
{
    &memory[..line_count(memory)]
}

// Gives one place a new value, where the memory has it.
fn put<V: Copy>(memory: &mut [V], place: usize, value: V) -> Result<(), BookRefusal>
    ensures { Writes memory.old place value memory.new result }
{
    // kept: std's `get_mut` says nothing of what the memory holds after a write through what it gives.
    if place >= memory.len() {
        return Err(BookRefusal::NoLine);
    }
    memory[place] = value;
    Ok(())
}

fn write_line<V: Copy>(memory: &mut [V], line: usize, value: V) -> Result<(), BookRefusal>
    ensures lines { Writes (take 1024 memory.old) line value (take 1024 memory.new) result }
    ensures places { WrittenBelow 0 memory.old line value memory.new result }
{
    let lines = line_count(memory);
    put(&mut memory[..lines], line, value)
}

impl<'a, V: Copy> Book for FlatBook<'a, V> {
    type Value = V;

    ghost lines = { λ b. take 1024 b.memory.now };

    fn size(&self) -> usize {
        line_places(self.memory).len()
    }

    fn read(&self, line: usize) -> Result<V, BookRefusal> {
        line_places(self.memory)
            .get(line)
            .copied()
            .ok_or(BookRefusal::NoLine)
    }

    fn write(&mut self, line: usize, value: V) -> Result<(), BookRefusal>
        ensures lines { Writes (take 1024 self.old.memory.now) line value (take 1024 self.new.memory.now) result }
        ensures memory { WrittenBelow 0 self.old.memory.now line value self.new.memory.now result }
        ensures named { self.new.memory.ghost_name ≡ self.old.memory.ghost_name }
    {
        write_line(self.memory, line, value)
    }
}
