// What showing a book file prints.
use programs::show::show;
use std::test::Fail;
use survey::leg::LegRow;
use survey::metres::MetresRow;

#[test]
fn books_and_faults_are_printed(rt: HostRuntime) -> Result<(), Fail> {
    let cases: [(&[u8], &str); 6] = [
        (b"", "! 0 31 0 0\n"),
        (b"\x00\x00\x00\x00", ""),
        (b"\x01\x04\x00\x00", "! 0 32 0 0\n"),
        (b"\x02\x00\x00\x00", "L 0 0\nL 1 0\n"),
        (
            b"\x02\x00\x01\x00\x01\x00\x40\x42\x0f\x00",
            "L 0 0\nL 1 1000000\n",
        ),
        (b"\x02\x00\x01\x00\x01\x00\x41\x42\x0f\x00", "! 0 35 6 15\n"),
    ];
    for (file, want) in cases {
        assert_eq!(rt; show::<MetresRow>(rt.alloc(), file)?.as_str(), want);
    }
    Ok(())
}

#[test]
fn a_book_has_1024_lines_at_most(rt: HostRuntime) -> Result<(), Fail> {
    let cases: [(&[u8], usize); 3] = [
        (b"\x40\x00\x00\x00", 64),
        (b"\x00\x04\x00\x00", 1024),
        (b"\x00\x00\x00\x00", 0),
    ];
    for (file, want) in cases {
        assert_eq!(rt;
            show::<LegRow>(rt.alloc(), file)?.as_str().lines().count(),
            want
        );
    }
    Ok(())
}
