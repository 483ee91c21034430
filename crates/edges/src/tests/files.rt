// Book files: each fault at its place, and a book saved and loaded.
use book::book::Book;
use book::flat::FlatBook;
use bookfile::copy::{CopyRefusal, copy};
use bookfile::fault::{FileCause, FileFault};
use bookfile::load::load;
use bookfile::save::{SaveRefusal, save};
use bookfile::stated_lines;
use survey::leg::LegRow;
use survey::metres::MetresRow;

const BLANK: LegRow = LegRow {
    from: 0,
    to: 0,
    passage: 0,
    length: 1,
};

// The fault of a file for a book of three legs: its number, its place and its cause; zeros where there is none.
// Kept numbers: the tables keep the values that they had.
fn fault(file: &[u8]) -> (u32, usize, u32) {
    let mut memory = [BLANK; 3];
    match load(file, &mut FlatBook::new(&mut memory)) {
        Ok(()) => (0, 0, 0),
        Err(FileFault { place, cause }) => {
            let inner = cause.inner().map_or(0, |fault| fault.number());
            (cause.number(), place, inner)
        }
    }
}

#[test]
fn the_head_of_a_file(rt: HostRuntime) {
    let cases: [(&[u8], (u32, usize, u32)); 11] = [
        (b"", (31, 0, 0)),
        (b"\x03", (31, 1, 0)),
        (b"\x03\x00\x00", (31, 3, 0)),
        (b"\x02\x00\x00\x00", (32, 0, 0)),
        (b"\x03\x01\x00\x00", (32, 0, 0)),
        // 4,097 pairs, and 4,096 that are not there
        (b"\x03\x00\x01\x10", (32, 2, 0)),
        (b"\x03\x00\x00\x10", (33, 4, 0)),
        (b"\x03\x00\x01\x00", (33, 4, 0)),
        (
            b"\x03\x00\x01\x00\x00\x00\x00\x00\x00\x01\x00\x00",
            (33, 12, 0),
        ),
        (b"\x03\x00\x00\x00\x00", (33, 4, 0)),
        (b"\x03\x00\x00\x00", (0, 0, 0)),
    ];
    for (file, want) in cases {
        assert_eq!(rt; fault(file), want);
    }
}

#[test]
fn the_pairs_of_a_file(rt: HostRuntime) {
    let cases: [(&[u8], (u32, usize, u32)); 9] = [
        (
            b"\x03\x00\x01\x00\x02\x00\x0f\x0f\x01\x80\x96\x98\x00",
            (0, 0, 0),
        ),
        (
            b"\x03\x00\x01\x00\x02\x00\x0f\x0f\x01\x81\x96\x98\x00",
            (35, 6, 12),
        ),
        (
            b"\x03\x00\x01\x00\x02\x00\x00\x10\x02\x00\x00\x00\x00",
            (35, 6, 11),
        ),
        (
            b"\x03\x00\x01\x00\x02\x00\x00\x00\x02\x00\x00\x00\x00",
            (35, 6, 12),
        ),
        (
            b"\x03\x00\x01\x00\x02\x00\x00\x00\x02\x01\x00\x00\x00",
            (35, 6, 13),
        ),
        // the line comes before the value
        (
            b"\x03\x00\x01\x00\x03\x00\x00\x10\x02\x00\x00\x00\x00",
            (34, 4, 0),
        ),
        // the second pair
        (
            b"\x03\x00\x02\x00\x00\x00\x00\x01\x00\x00\x00\x01\x00\x00\x00\x00\x00\x00\x01\x00\x00\x00",
            (34, 6, 0),
        ),
        (
            b"\x03\x00\x02\x00\x00\x00\x02\x00\x00\x00\x00\x01\x00\x00\x00\x00\x00\x02\x01\x00\x00\x00",
            (35, 15, 13),
        ),
        // a fault of the first pair comes before one of the second
        (
            b"\x03\x00\x02\x00\x00\x00\x03\x00\x00\x00\x02\x01\x00\x00\x00\x00\x00\x02\x01\x00\x00\x00",
            (35, 8, 13),
        ),
    ];
    for (file, want) in cases {
        assert_eq!(rt; fault(file), want);
    }
}

#[test]
fn a_refused_file_changes_no_line(rt: HostRuntime) {
    let mut memory = [MetresRow { count: 5 }; 2];
    let mut book = FlatBook::new(&mut memory);
    // the first pair is right, the second is not
    let file: &[u8] = b"\x02\x00\x02\x00\x00\x00\x01\x00\x09\x00\x00\x00\x41\x42\x0f\x00";
    assert!(rt; load(file, &mut book).is_err());
    assert_eq!(rt; book.read(0), Ok(MetresRow { count: 5 }));
}

#[test]
fn of_several_pairs_the_last_stands(rt: HostRuntime) {
    let mut memory = [MetresRow { count: 5 }; 2];
    let mut book = FlatBook::new(&mut memory);
    let file: &[u8] = b"\x02\x00\x02\x00\x01\x00\x01\x00\x09\x00\x00\x00\x40\x42\x0f\x00";
    assert!(rt; load(file, &mut book).is_ok());
    assert_eq!(rt; book.read(0), Ok(MetresRow { count: 5 }));
    assert_eq!(rt; book.read(1), Ok(MetresRow { count: 1_000_000 }));
}

#[test]
fn a_file_states_its_lines(rt: HostRuntime) {
    let cases: [(&[u8], usize); 7] = [
        (b"", 0),
        (b"\x05", 0),
        (b"\x00\x00", 0),
        (b"\x40\x00", 64),
        (b"\x00\x04", 1024),
        (b"\x01\x04", 1024),
        (b"\xff\xff", 1024),
    ];
    for (file, want) in cases {
        assert_eq!(rt; stated_lines(file), want);
    }
}

#[test]
fn a_book_saved_and_loaded_has_the_same_lines(rt: HostRuntime) {
    let mut memory = [
        MetresRow { count: 7 },
        MetresRow { count: 1_000_001 },
        MetresRow { count: 1_000_000 },
    ];
    let mut other = [MetresRow { count: 3 }; 3];
    let mut small = [MetresRow { count: 3 }; 2];
    let mut file = [255u8; 30];
    let book = FlatBook::new(&mut memory);
    assert_eq!(rt;
        save(&book, &mut file[0..21]),
        Err(SaveRefusal::ShortOutput)
    );
    assert_eq!(rt; file, [255u8; 30]);
    assert_eq!(rt; save(&book, &mut file), Ok(22));
    assert_eq!(rt; file[22], 255);
    let mut into = FlatBook::new(&mut other);
    assert_eq!(rt; copy(&book, &mut file, &mut into), Ok(()));
    for (line, count) in [7, 0, 1_000_000].iter().copied().enumerate() {
        assert_eq!(rt; into.read(line), Ok(MetresRow { count }));
    }
    let wrong = FileFault {
        place: 0,
        cause: FileCause::Lines,
    };
    assert_eq!(rt;
        copy(&book, &mut file, &mut FlatBook::new(&mut small)),
        Err(CopyRefusal::Load(wrong))
    );
}
