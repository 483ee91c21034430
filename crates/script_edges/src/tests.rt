use bookfile::fault::{FileCause, FileFault};
use calls::answer::Answer;
use calls::call::Call;
use calls::ending::Ending;
use calls::order::Order;
use calls::refusal::Refusal;
use script::call_line::CallLine;
use script::command::call_in;
use script::letter::Letter;
use script::list::TurnList;
use script::listing::{Fault, FaultLine, ListingLine, LookLine};
use script::number::number;
use script::reader::Reader;
use script::turns::Turns;
use script::word::WordKind;
use script::words::Words;
use std::alloc::Global;
use std::fmt::Write;
use std::process::Abort;
use std::test::Fail;
use survey::fault::ValueFault;

#[test]
fn numbers(rt: HostRuntime) {
    let cases: [(&[u8], Option<u32>); 16] = [
        (b"0", Some(0)),
        (b"7", Some(7)),
        (b"10", Some(10)),
        (b"999999999", Some(999_999_999)),
        (b"1000000000", Some(1_000_000_000)),
        (b"4294967295", Some(4_294_967_295)),
        (b"4294967296", None),
        (b"9999999999", None),
        (b"42949672950", None),
        (b"00", None),
        (b"007", None),
        (b"", None),
        (b"+1", None),
        (b"1.0", None),
        (b"1\r", None),
        (b"\xb21", None),
    ];
    for (word, want) in cases {
        assert_eq!(rt; number(word), want);
    }
}

// The words of a line, each by its kind and place.
fn described(heap: Global, line: &[u8]) -> Result<String, Fail> {
    let mut text = String::new(heap);
    for word in Words::new(line) {
        let place = word.place;
        match word.kind {
            WordKind::Letter(letter) => write!(text, "letter {letter} at {place};")?,
            WordKind::Number(number) => write!(text, "number {number} at {place};")?,
            WordKind::Other => write!(text, "other at {place};")?,
        }
    }
    Ok(text)
}

#[test]
fn words(rt: HostRuntime) -> Result<(), Fail> {
    let cases: [(&[u8], &str); 6] = [
        (b"", "other at 0;"),
        (b"S", "letter S at 0;"),
        (b"T 10", "letter T at 0;number 10 at 2;"),
        (
            b"W  7 ",
            "letter W at 0;other at 2;number 7 at 3;other at 5;",
        ),
        (b" L\n", "other at 0;other at 1;"),
        (
            b"SS t 0 4294967296 L",
            "other at 0;other at 3;number 0 at 5;other at 7;letter L at 18;",
        ),
    ];
    for (line, want) in cases {
        let text = described(rt.alloc(), line)?;
        assert_eq!(rt; text.as_str(), want);
    }
    Ok(())
}

#[test]
fn lines_and_words_of_one_reader(rt: HostRuntime) {
    let mut reader = Reader::new(b"T 0 x\nW 1");
    let kind = reader.word().map(|word| word.kind);
    assert!(rt; kind == Some(WordKind::Letter(Letter::Step)));
    assert!(rt; reader.line().unwrap_or(b"none") == b"0 x".as_slice());
    let place = reader.word().map(|word| word.place);
    assert!(rt; place == Some(6));
    assert!(rt; reader.line().unwrap_or(b"none") == b"1".as_slice());
    assert!(rt; reader.line().is_none());
}

#[test]
fn calls_and_their_lines(rt: HostRuntime) -> Result<(), Fail> {
    let small = Order {
        kind: 0,
        a: 1,
        b: 2,
        c: 3,
        d: 4,
    };
    let most = u32::MAX;
    let large = Order {
        kind: most,
        a: most,
        b: 0,
        c: most,
        d: most,
    };
    let cases: [(&[u8], Call); 7] = [
        (
            b"S 5 0 1 2 3 4",
            Call::Start {
                seat: 5,
                order: small,
            },
        ),
        (
            b"S 0 4294967295 4294967295 0 4294967295 4294967295",
            Call::Start {
                seat: 0,
                order: large,
            },
        ),
        (b"T 0", Call::Step { seat: 0 }),
        (b"T 4294967295", Call::Step { seat: most }),
        (b"W 6", Call::Withdraw { seat: 6 }),
        (b"L 0", Call::Look { line: 0 }),
        (b"L 1024", Call::Look { line: 1024 }),
    ];
    for (line, call) in cases {
        assert_eq!(rt; call_in(line)?, call);
        let text = CallLine(call).to_string(rt.alloc())?;
        assert!(rt; text.as_bytes() == line);
    }
    Ok(())
}

// The place and the number of a line's fault; a call has none. Kept numbers: the tables keep the values that they had.
fn fault_of(line: &[u8]) -> (usize, u32) {
    match call_in(line) {
        Ok(_) => (0, 0),
        Err(fault) => (fault.place, fault.cause.number()),
    }
}

#[test]
fn malformed_lines(rt: HostRuntime) {
    let cases: [(&[u8], (usize, u32)); 36] = [
        // The first word is no letter.
        (b"", (0, 21)),
        (b" ", (0, 21)),
        (b" T 0", (0, 21)),
        (b"t 0", (0, 21)),
        (b"TT 0", (0, 21)),
        (b"T\r", (0, 21)),
        (b"T\0 0", (0, 21)),
        (b"\xd4 0", (0, 21)),
        (b"0 T", (0, 21)),
        (b"X x x x", (0, 21)),
        (b"\tT 0", (0, 21)),
        // There are too few words, or too many, whatever they are.
        (b"T", (1, 23)),
        (b"T 0 ", (4, 23)),
        (b"T  0", (4, 23)),
        (b"T 0 0", (5, 23)),
        (b"T x x", (5, 23)),
        (b"S 0 0 0 0 0", (11, 23)),
        (b"S 0 0 0 0 0 0 0", (15, 23)),
        (b"S  0 0 0 0 0 0", (14, 23)),
        (b"S x", (3, 23)),
        (b"W", (1, 23)),
        (b"L 0 0 0 0 0 0", (13, 23)),
        // A word after the letter is no number.
        (b"T ", (2, 22)),
        (b"T 00", (2, 22)),
        (b"T 01", (2, 22)),
        (b"T -1", (2, 22)),
        (b"T +1", (2, 22)),
        (b"T T", (2, 22)),
        (b"T 0\r", (2, 22)),
        (b"T 0\0", (2, 22)),
        (b"T \xff", (2, 22)),
        (b"W 4294967296", (2, 22)),
        (b"L 12345678901", (2, 22)),
        (b"S 0 0 0 0 0 x", (12, 22)),
        (b"S 10 200 x 0 y 0", (9, 22)),
        (b"S 0 0 0 0  0", (10, 22)),
    ];
    for (line, want) in cases {
        assert!(rt; fault_of(line) == want);
    }
}

// Each line of a list as it was understood: the call's line again, or the fault.
fn all_turns(heap: Global, turns: Turns) -> Result<String, Fail> {
    let mut text = String::new(heap);
    for item in turns {
        match item {
            Ok(call) => {
                let line = CallLine(call);
                write!(text, "{line}\n")?;
            }
            Err(fault) => write!(text, "{fault}")?,
        }
    }
    Ok(text)
}

// The same of a list's bytes, or the fault of the whole list.
fn understood(heap: Global, bytes: &[u8]) -> Result<String, Fail> {
    match Turns::try_from(bytes) {
        Ok(turns) => all_turns(heap, turns),
        Err(fault) => Ok(Fault::from(fault).to_string(heap)?),
    }
}

#[test]
fn lists(rt: HostRuntime) -> Result<(), Fail> {
    let cases: [(&[u8], &str); 8] = [
        (b"", ""),
        (b"\n", "! 1 21 0 0\n"),
        (b"\n\n", "! 1 21 0 0\n! 2 21 0 0\n"),
        (b"T 0", "T 0\n"),
        (b"T 0\n", "T 0\n"),
        (b"T 0\n\n", "T 0\n! 2 21 0 0\n"),
        (
            b"S 0 1 2 3 4 5\nT x\nL 9\nW 1 1\nT 2",
            "S 0 1 2 3 4 5\n! 2 22 2 0\nL 9\n! 4 23 5 0\nT 2\n",
        ),
        (b"T 0\r\nT 1\r\nT 2", "! 1 22 2 0\n! 2 22 2 0\nT 2\n"),
    ];
    for (bytes, want) in cases {
        let text = understood(rt.alloc(), bytes)?;
        assert_eq!(rt; text.as_str(), want);
    }
    Ok(())
}

#[test]
fn lists_gone_through_twice(rt: HostRuntime) -> Result<(), Fail> {
    let list = TurnList::new(b"T 0\nT x\n")?;
    let first = all_turns(rt.alloc(), list.turns())?;
    let again = all_turns(rt.alloc(), list.turns())?;
    assert_eq!(rt; first.as_str(), "T 0\n! 2 22 2 0\n");
    assert_eq!(rt; again.as_str(), "T 0\n! 2 22 2 0\n");
    Ok(())
}

#[test]
fn long_lists(rt: HostRuntime) -> Result<(), Fail> {
    let mut bytes = vec![in rt.alloc(); b'x'; 60_000]?;
    let full = understood(rt.alloc(), bytes.as_slice())?;
    assert_eq!(rt; full.as_str(), "! 1 21 0 0\n");
    bytes.push(b'\n')?;
    let over = understood(rt.alloc(), bytes.as_slice())?;
    assert_eq!(rt; over.as_str(), "! 0 24 60000 0\n");
    Ok(())
}

fn shows(rt: &impl Abort, heap: Global, line: ListingLine<&str>, want: &str) -> Result<(), Fail> {
    let text = line.to_string(heap)?;
    assert_eq!(rt; text.as_str(), want);
    Ok(())
}

#[test]
fn steps_and_refusals(rt: HostRuntime) -> Result<(), Fail> {
    let steps = [
        (Answer::Read { line: 63 }, "T 5 read 63\n"),
        (Answer::Write { line: 1 }, "T 5 write 1\n"),
        (
            Answer::End(Ending {
                code: 0,
                number: 4_294_967_295,
            }),
            "T 5 end 0 4294967295\n",
        ),
        (Answer::Back { kept: 1 }, "T 5 back 1\n"),
    ];
    for (answer, want) in steps {
        shows(
            &rt,
            rt.alloc(),
            ListingLine::Stepped { seat: 5, answer },
            want,
        )?;
    }
    let refusals = [
        (Letter::Start, Refusal::NoSeat, "S 6 refused 1\n"),
        (Letter::Start, Refusal::SeatTaken, "S 6 refused 2\n"),
        (Letter::Withdraw, Refusal::SeatVacant, "W 6 refused 3\n"),
        (Letter::Look, Refusal::NoLine, "L 6 refused 4\n"),
        (Letter::Step, Refusal::TooManyWrites, "T 6 refused 5\n"),
        (Letter::Look, Refusal::LongBook, "L 6 refused 6\n"),
        (Letter::Step, Refusal::ShortMemory, "T 6 refused 7\n"),
    ];
    for (letter, refusal, want) in refusals {
        shows(
            &rt,
            rt.alloc(),
            ListingLine::Refused {
                letter,
                number: 6,
                refusal,
            },
            want,
        )?;
    }
    Ok(())
}

#[test]
fn other_listing_lines(rt: HostRuntime) -> Result<(), Fail> {
    let look = LookLine {
        line: 1,
        value: "1 2 1 7000",
    };
    let fault = Fault::from(FileFault {
        place: 12,
        cause: FileCause::Value(ValueFault::Passage),
    });
    shows(
        &rt,
        rt.alloc(),
        ListingLine::Started { seat: 0 },
        "S 0 ok\n",
    )?;
    shows(
        &rt,
        rt.alloc(),
        ListingLine::Withdrawn { seat: 3 },
        "W 3 ok\n",
    )?;
    shows(
        &rt,
        rt.alloc(),
        ListingLine::Looked(look),
        "L 1 1 2 1 7000\n",
    )?;
    shows(
        &rt,
        rt.alloc(),
        ListingLine::Faulty(fault),
        "! 0 35 12 13\n",
    )
}

// The fault of a file at its first byte.
fn file_fault(cause: FileCause) -> Fault {
    Fault::from(FileFault { place: 0, cause })
}

#[test]
fn equal_faults(rt: HostRuntime) {
    assert!(rt; file_fault(FileCause::Lines) == file_fault(FileCause::Pairs));
    assert!(rt; file_fault(FileCause::Lines) != file_fault(FileCause::Short));
}

#[test]
fn noted_faults(rt: HostRuntime) -> Result<(), Fail> {
    let cases = [
        ((0, 36, 9, 0), "! 0 36 9 0\n"),
        ((3, 31, 2, 0), "! 3 31 2 0\n"),
        ((1, 0, 60_000, 13), "! 1 0 60000 13\n"),
    ];
    for ((line, number, place, cause), want) in cases {
        let noted = FaultLine {
            line,
            number,
            place,
            cause,
        };
        let text = noted.to_string(rt.alloc())?;
        assert_eq!(rt; text.as_str(), want);
        shows(&rt, rt.alloc(), ListingLine::Noted(noted), want)?;
    }
    Ok(())
}
