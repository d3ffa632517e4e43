use super::*;
use std::test::Fail;

fn dec(digits: u64, exp: i32) -> Option<Dec> {
    Some(Dec { digits, exp })
}

#[test]
fn lines_are_numbered_from_one(rt: HostRuntime) {
    let mut cursor = Cursor::new(b"a\r\n\nlast");
    for (number, bytes) in [
        (1, b"a\r".as_slice()),
        (2, b"".as_slice()),
        (3, b"last".as_slice()),
    ] {
        assert_eq!(rt; cursor.next_line(), Some(Line { number, bytes }));
    }
    assert_eq!(rt; cursor.next_line(), None);
    assert_eq!(rt; cursor.next_line(), None);
}

#[test]
fn an_empty_last_piece_is_no_line(rt: HostRuntime) {
    for (text, count) in [
        (b"".as_slice(), 0),
        (b"\n".as_slice(), 1),
        (b"a\n".as_slice(), 1),
        (b"a\n\n".as_slice(), 2),
    ] {
        let mut cursor = Cursor::new(text);
        for _ in 0..count {
            assert!(rt; cursor.next_line().is_some());
        }
        assert_eq!(rt; cursor.next_line(), None);
    }
}

#[test]
fn blanks_are_trimmed(rt: HostRuntime) {
    for (text, trimmed) in [(" \t a b\r ", "a b"), ("\r", ""), ("", ""), ("\na ", "\na")] {
        assert_eq!(rt; trim(text.as_bytes()), trimmed.as_bytes());
        assert_eq!(rt; trim_text(text), trimmed);
    }
}

#[test]
fn whole_numbers_are_read(rt: HostRuntime) {
    for (text, number) in [
        ("0", Some(0)),
        ("00000000000000000012", Some(12)),
        ("000000000000000000012", None),
        ("18446744073709551615", Some(18446744073709551615)),
        ("18446744073709551616", None),
        ("", None),
        ("+1", None),
        ("1 ", None),
    ] {
        assert_eq!(rt; read_u64(text.as_bytes()), number);
    }
}

#[test]
fn decimals_are_read(rt: HostRuntime) {
    for (text, value) in [
        ("5", dec(5, 0)),
        ("5.", dec(5, 0)),
        (".5", dec(5, -1)),
        ("12.50", dec(1250, -2)),
        ("999999999999999999", dec(999999999999999999, 0)),
        ("000000000000000001", dec(1, 0)),
        (".999999999999999999e-9", dec(999999999999999999, -27)),
        ("1e9", dec(1, 9)),
        ("1e+9", dec(1, 9)),
        ("1e-09", dec(1, -9)),
        ("1E5", dec(1, 5)),
        ("2.5E00", dec(25, -1)),
    ] {
        assert_eq!(rt; read_decimal(text.as_bytes()), value);
    }
}

#[test]
fn other_texts_are_no_decimals(rt: HostRuntime) {
    for text in [
        "",
        ".",
        "1e10",
        "1e-10",
        "1e009",
        "1e",
        "1e+",
        "e5",
        ".e5",
        "+1",
        "-1",
        "1 e5",
        " 1",
        "1.2.3",
        "1e5.",
        "1e1e1",
        "1E1e1",
        "1,5",
        "1000000000000000000",
        "0.000000000000000001",
    ] {
        assert_eq!(rt; read_decimal(text.as_bytes()), None);
    }
}

#[test]
fn texts_are_cut(rt: HostRuntime) {
    assert_eq!(rt;
        cut(b"a=b=c", b'='),
        Some((b"a".as_slice(), b"b=c".as_slice()))
    );
    assert_eq!(rt; cut(b"abc", b'='), None);
    assert_eq!(rt; cut_text("é = ö", b'='), Some(("é ", " ö")));
    assert_eq!(rt; cut_text("é", b'='), None);
    assert_eq!(rt; "é\tö".cut_blank(), Some(("é", "ö")));
    assert_eq!(rt; "é".cut_blank(), None);
    assert_eq!(rt; first_text_line("é\r\nö\n"), ("é\r", "ö\n"));
    assert_eq!(rt; first_text_line("é"), ("é", ""));
}

#[test]
fn words_stand_between_blanks(rt: HostRuntime) -> Result<(), Fail> {
    assert_eq!(rt;
        word_list(rt.alloc(), " A\t\tBB é\r")?.as_slice(),
        ["A", "BB", "é"].as_slice()
    );
    assert!(rt; word_list(rt.alloc(), " \t ")?.is_empty());
    Ok(())
}

#[test]
fn words_are_taken_one_after_the_other(rt: HostRuntime) {
    let mut words = Words::new(b" \xff\t\tb c".as_slice());
    assert_eq!(rt; words.next_word(), Some(b"\xff".as_slice()));
    assert_eq!(rt; words.rest(), b"\tb c".as_slice());
    assert_eq!(rt; words.next_word(), Some(b"b".as_slice()));
    assert_eq!(rt; words.next_word(), Some(b"c".as_slice()));
    assert_eq!(rt; words.next_word(), None);
}

#[test]
fn numbers_are_written(rt: HostRuntime) {
    for (number, text) in [
        (0, "0"),
        (907, "907"),
        (18446744073709551615, "18446744073709551615"),
    ] {
        assert_eq!(rt; Digits::of(number).bytes(), text.as_bytes());
    }
}
