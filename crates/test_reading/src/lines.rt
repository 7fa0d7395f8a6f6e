//! Lines and words.

use cpl_text::{TextFault, lines, text_examples};
use std::alloc::Global;
use std::process::Abort;
use std::test::Fail;

/// The lines of a text, each by its number and its words joined by `|`, and each ended by `;`; or the
/// number of the faulty line.
fn shown(alloc: Global, bytes: &[u8]) -> Result<Result<Vec<u8>, u32>, Fail> {
    if bytes.len() > 1000 {
        return Err("too long".into());
    }
    let lines = match lines(alloc, bytes) {
        Ok(lines) => lines,
        Err(TextFault::NotAscii { line }) => return Ok(Err(line)),
        Err(TextFault::Memory) => return Err("memory".into()),
    };
    let mut shown = Vec::new(alloc);
    for line in &lines {
        shown.push(b'0' + (line.number % 10) as u8)?;
        for word in &line.words {
            shown.push(b'|')?;
            shown.extend_from_slice(bytes.get(word.start..word.end).unwrap_or(b"outside"))?;
        }
        shown.push(b';')?;
    }
    Ok(Ok(shown))
}

/// Compares what is shown of a text with what is wanted.
fn expect_shown(rt: &impl Abort, alloc: Global, bytes: &[u8], wanted: &[u8]) -> Result<(), Fail> {
    match shown(alloc, bytes)? {
        Ok(shown) => assert_eq!(rt; shown.as_slice(), wanted),
        Err(line) => assert_eq!(rt; line, 0),
    }
    Ok(())
}

#[test]
fn words_of_lines(rt: HostRuntime) -> Result<(), Fail> {
    let rows: [(&[u8], &[u8]); 9] = [
        (b"", b""),
        (b"a b", b"1|a|b;"),
        (b"a\r\nb \r\n", b"1|a;2|b;"),
        (b"\n \t\n\ta\tb\t\n", b"3|a|b;"),
        (b"a b#c d\n#e\nf", b"1|a|b;3|f;"),
        (b"a\n\r", b"1|a;"),
        (b"x:1 y: :z ::", b"1|x:1|y:|:z|::;"),
        (b"one # \xE9\r\ntwo", b"1|one;2|two;"),
        (b"~ !\n", b"1|~|!;"),
    ];
    for (bytes, wanted) in rows {
        expect_shown(&rt, rt.alloc(), bytes, wanted)?;
    }
    text_examples();
    Ok(())
}

#[test]
fn bytes_that_are_refused(rt: HostRuntime) -> Result<(), Fail> {
    let rows: [(&[u8], u32); 5] = [
        (b"x\ny = 0\xE9\n", 2),
        (b"\x7F", 1),
        (b"a\n\n\x00\n\x01", 3),
        (b"a\rb\n", 1),
        (b"a\r\r\n", 1),
    ];
    for (bytes, line) in rows {
        assert_eq!(rt; shown(rt.alloc(), bytes)?.err(), Some(line));
    }
    Ok(())
}
