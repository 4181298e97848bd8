//! Lines, words, names and numbers, at texts that were taken apart by hand.
use super::*;
use std::alloc::{AllocError, Global};
use std::process::Abort;
use std::test::Fail;

type Split<'a> = Option<(&'a [u8], &'a [u8])>;

#[test]
fn takes_the_first_line_off(rt: HostRuntime) {
    let cases: [(&[u8], Split); 7] = [
        (b"", None),
        (b"\n", Some((b"", b""))),
        (b"a b\nc\n", Some((b"a b", b"c\n"))),
        (b"a b\r\nc", Some((b"a b", b"c"))),
        (b"a\r\r\n", Some((b"a\r", b""))),
        (b"a", Some((b"a", b""))),
        (b"a\r", Some((b"a\r", b""))),
    ];
    for (text, want) in cases {
        assert_eq!(rt; next_line(text), want, "at {text:?}");
    }
}

fn expect_words(
    rt: &impl Abort,
    alloc: Global,
    line: &[u8],
    want: &[&[u8]],
) -> Result<(), AllocError> {
    let words = words_of(alloc, line)?;
    assert_eq!(rt; words.as_slice(), want, "at {line:?}");
    Ok(())
}

// No clause can say that memory is left, so a body that always refuses would meet that of `words_of`.
#[test]
fn cuts_a_line_into_words(rt: HostRuntime) -> Result<(), Fail> {
    let alloc = rt.alloc();
    expect_words(&rt, alloc, b"", &[])?;
    expect_words(&rt, alloc, b" \t ", &[])?;
    expect_words(&rt, alloc, b"fence", &[b"fence"])?;
    expect_words(&rt, alloc, b"\tprint  f\t", &[b"print", b"f"])?;
    expect_words(&rt, alloc, b"a\rb \x0bc", &[b"a\rb", b"\x0bc"])?;
    Ok(())
}

#[test]
fn passes_over_empty_lines_and_comments(rt: HostRuntime) {
    let cases: [(&[&[u8]], bool); 5] = [
        (&[], true),
        (&[b"#"], true),
        (&[b"#a", b"b"], true),
        (&[b"a", b"#"], false),
        (&[b"a#"], false),
    ];
    for (words, want) in cases {
        assert_eq!(rt; is_passed_over(words), want, "at {words:?}");
    }
}

#[test]
fn allows_tabs_and_printable_bytes(rt: HostRuntime) {
    let cases: [(&[u8], bool); 7] = [
        (b"", true),
        (b"\t a~", true),
        (b"\x1f", false),
        (b"a\x7f", false),
        (b"\xc3\xa9", false),
        (b"a\rb", false),
        (b"\n", false),
    ];
    for (line, want) in cases {
        assert_eq!(rt; has_allowed_bytes(line), want, "at {line:?}");
    }
}

#[test]
fn reads_names(rt: HostRuntime) {
    let cases: [(&[u8], bool); 7] = [
        (b"f", true),
        (b"abcdefghijklm_09", true),
        (b"abcdefghijklm_090", false),
        (b"", false),
        (b"0a", false),
        (b"_a", false),
        (b"aB", false),
    ];
    for (word, want) in cases {
        match Name::of_word(word) {
            Some(name) => {
                assert!(rt; want, "at {word:?}");
                assert_eq!(rt; name.bytes(), word);
            }
            None => assert!(rt; !want, "at {word:?}"),
        }
    }
}

#[test]
fn reads_numbers(rt: HostRuntime) {
    let cases: [(&[u8], Option<i64>); 8] = [
        (b"007", Some(7)),
        (b"-0", Some(0)),
        (b"-12", Some(-12)),
        (b"-999999999999999999", Some(-999_999_999_999_999_999)),
        (b"0000000000000000001", None),
        (b"-", None),
        (b"+1", None),
        (b"1a", None),
    ];
    for (word, want) in cases {
        assert_eq!(rt; number_of(word), want, "at {word:?}");
    }
    assert_eq!(rt; size_of_digits(b"42"), Some(42));
    assert_eq!(rt; size_of_digits(b"-42"), None);
    assert_eq!(rt; size_of_digits(b""), None);
}
