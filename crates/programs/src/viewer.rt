// The program `show`: prints the book in the file `book` of the working folder.
use crate::files::book_file;
use crate::show::show;
use anyhow::anyhow;
use std::env;
use survey::leg::LegRow;
use survey::metres::MetresRow;
use survey::row::Row;

const USAGE: &str = "show legs    prints the legs of the file `book` in this folder
show ropes   prints the metres of rope of the file `book` in this folder

Each line of the book is printed as
    L line from to passage length    for legs, with passage 0 closed or 1 open and the length in millimetres
    L line metres                    for ropes
A file with a fault is not loaded; it prints
    ! 0 fault place cause            the fault's number, the byte at which it is, and the fault of the value there or 0
A missing file counts as empty.";

#[derive(Clone, Copy, Debug, PartialEq, Eq)]
enum Request {
    Legs,
    Ropes,
    Help,
}

// A word that asks for nothing known.
#[derive(Clone, Copy, Debug, PartialEq, Eq)]
struct UnknownWord;

impl<'a> TryFrom<&'a str> for Request {
    type Error = UnknownWord;

    fn try_from(word: &'a str) -> Result<Request, UnknownWord> {
        match word {
            "legs" => Ok(Request::Legs),
            "ropes" => Ok(Request::Ropes),
            "--help" => Ok(Request::Help),
            _ => Err(UnknownWord),
        }
    }
}

// What the arguments ask for, if they are understood.
fn asked(rt: &HostRuntime) -> anyhow::Result<Option<Request>> {
    let mut args = env::args(rt)?.skip(1);
    let (Some(word), None) = (args.next(), args.next()) else {
        return Ok(None);
    };
    Ok(Request::try_from(word.as_str()).ok())
}

// Prints the book in the file.
fn print_book<R: Row>(rt: &HostRuntime) -> anyhow::Result<()> {
    let file = book_file(rt)?;
    rt.print(show::<R>(rt.alloc(), file.as_slice())?)?;
    Ok(())
}

pub fn run(rt: &HostRuntime) -> anyhow::Result<()> {
    match asked(rt)? {
        Some(Request::Legs) => print_book::<LegRow>(rt),
        Some(Request::Ropes) => print_book::<MetresRow>(rt),
        Some(Request::Help) => Ok(rt.println(USAGE)?),
        None => {
            rt.eprintln(USAGE)?;
            Err(anyhow!("one argument is needed: legs, ropes or --help"))
        }
    }
}
