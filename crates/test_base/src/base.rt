//! Numbers, texts, shelves and sinks.

use cpl_base::{
    FileShelf, GREATEST, LoadFault, MILLION, Many, MemShelf, MemSink, Memory, Shelf, Sink,
    SinkFailed, StdSink, Text, ValFault, clip, cut, decimal, first_repeat, is_blank, is_decimal,
    is_letter, is_name, is_name_byte, joined, number_between, number_word, place_of, read_numeral,
    read_val, rest_behind, signed_number_word, split_sign, text_examples, value_examples, words,
    write_all, write_number, write_val,
};
use std::alloc::Global;
use std::test::Fail;
use std::{env, fs, io};

#[test]
fn values(rt: HostRuntime) -> Result<(), Fail> {
    let read: [(&[u8], Result<i64, ValFault>); 9] = [
        (b"0", Ok(0)),
        (b"-0.000001", Ok(-1)),
        (b"007.5", Ok(7_500_000)),
        (b"1000000000", Ok(1_000_000_000_000_000)),
        (b"1000000000.000001", Err(ValFault::Range)),
        (b"-1000000001", Err(ValFault::Range)),
        (b"99999999999999999999.1234567", Err(ValFault::Places)),
        (b"1.", Err(ValFault::Digits)),
        (b"+1", Err(ValFault::Digits)),
    ];
    for (text, wanted) in read {
        assert_eq!(rt; read_val(text), wanted);
    }
    let written: [(i128, &[u8]); 5] = [
        (0, b"0.000000"),
        (-1, b"-0.000001"),
        (3_000_000, b"3.000000"),
        (-1_500_000, b"-1.500000"),
        (
            -170_141_183_460_469_231_731_687_303_715_884_105_728,
            b"-170141183460469231731687303715884.105728",
        ),
    ];
    for (value, wanted) in written {
        let mut out = Vec::from_slice(rt.alloc(), b"=")?;
        write_val(&mut out, value)?;
        assert_eq!(rt; &out[1..], wanted);
    }
    assert_eq!(rt; clip(1_000_000_000_000_001), 1_000_000_000_000_000);
    assert_eq!(rt; clip(-5), -5);
    assert_eq!(rt; clip(i128::MAX), 1_000_000_000 * MILLION as i64);
    assert_eq!(rt; clip(i128::MIN), -1_000_000_000_000_000);
    assert_eq!(rt; GREATEST, 1_000_000_000_000_000);
    value_examples();
    Ok(())
}

#[test]
fn numerals(rt: HostRuntime) -> Result<(), Fail> {
    // Weights: nine places, at most a thousand.
    let weights: [(&[u8], Result<i64, ValFault>); 8] = [
        (b"0.333333333", Ok(333_333_333)),
        (b"-1000", Ok(-1_000_000_000_000)),
        (b"1000.000000000", Ok(1_000_000_000_000)),
        (b"1000.000000001", Err(ValFault::Range)),
        (b"0.0000000001", Err(ValFault::Places)),
        (b"18446744073709551616", Err(ValFault::Range)),
        (b".5", Err(ValFault::Digits)),
        (b"-", Err(ValFault::Digits)),
    ];
    for (text, wanted) in weights {
        assert_eq!(rt; read_numeral(9, 1_000_000_000_000, text), wanted);
    }
    // No place, and eighteen places, up to the greatest of 63 bits.
    assert_eq!(rt; read_numeral(0, 7, b"7"), Ok(7));
    assert_eq!(rt; read_numeral(0, 7, b"7.0"), Err(ValFault::Places));
    assert_eq!(rt; read_numeral(0, 0, b"-0"), Ok(0));
    let most = 9_223_372_036_854_775_807;
    assert_eq!(rt;
        read_numeral(18, most, b"9.223372036854775807"),
        Ok(i64::MAX)
    );
    assert_eq!(rt;
        read_numeral(18, most, b"-9.223372036854775808"),
        Err(ValFault::Range)
    );
    Ok(())
}

#[test]
fn number_words(rt: HostRuntime) -> Result<(), Fail> {
    let numbers: [(&[u8], Option<u64>, Option<i64>); 6] = [
        (b"0", Some(0), Some(0)),
        (b"007", Some(7), Some(7)),
        (
            b"999999999999999999",
            Some(999_999_999_999_999_999),
            Some(999_999_999_999_999_999),
        ),
        (b"1000000000000000000", None, None),
        (b"-12", None, Some(-12)),
        (b"--12", None, None),
    ];
    for (word, plain, signed) in numbers {
        assert_eq!(rt; number_word(word), plain);
        assert_eq!(rt; signed_number_word(word), signed);
    }
    assert_eq!(rt; number_between(1, 64, b"64"), Some(64));
    assert_eq!(rt; number_between(1, 64, b"65"), None);
    assert_eq!(rt; number_between(1, 64, b"0"), None);
    assert_eq!(rt; split_sign(b"-x"), (true, b"x".as_slice()));
    assert_eq!(rt; split_sign(b"x-"), (false, b"x-".as_slice()));
    Ok(())
}

#[test]
fn names(rt: HostRuntime) -> Result<(), Fail> {
    let names: [(&[u8], bool); 6] = [
        (b"sst", true),
        (b"sea_ice_2", true),
        (b"_a", false),
        (b"2m", false),
        (b"", false),
        (b"a-b", false),
    ];
    for (word, wanted) in names {
        assert_eq!(rt; is_name(word), wanted);
    }
    assert!(rt; is_letter(b'Z') && !is_letter(b'_') && is_name_byte(b'_') && !is_name_byte(b'-'));
    assert!(rt; is_blank(b'\t') && is_blank(b' ') && !is_blank(b'\n'));
    assert_eq!(rt;
        rest_behind(b"ring_", b"ring_noon"),
        Some(b"noon".as_slice())
    );
    assert_eq!(rt; rest_behind(b"ring_", b"ring"), None);
    text_examples();
    Ok(())
}

/// These texts.
fn texts_of(alloc: Global, words: &[&[u8]]) -> Result<Vec<Text>, Memory> {
    let mut texts = Vec::new(alloc);
    for word in words {
        texts.push(Text::of(alloc, word)?)?;
    }
    Ok(texts)
}

#[test]
fn texts_among_others(rt: HostRuntime) -> Result<(), Fail> {
    let texts = texts_of(rt.alloc(), &[b"a", b"b", b"", b"b", b"a"])?;
    assert_eq!(rt; place_of(b"b", texts.as_slice()), Some(1));
    assert_eq!(rt; place_of(b"B", texts.as_slice()), None);
    assert_eq!(rt; first_repeat(rt.alloc(), texts.as_slice())?, Some(3));
    let distinct = texts_of(rt.alloc(), &[b"a", b"b", b""])?;
    assert_eq!(rt; first_repeat(rt.alloc(), distinct.as_slice())?, None);
    Ok(())
}

#[test]
fn texts_and_lists(rt: HostRuntime) -> Result<(), Fail> {
    let text = Text::of(rt.alloc(), b"sst")?;
    assert_eq!(rt; text.copy(rt.alloc())?.bytes(), b"sst".as_slice());
    let again = Text::from_vec(text.into_vec());
    assert_eq!(rt; again.bytes(), b"sst".as_slice());
    let mut many = Many::of(vec![in rt.alloc(); 1u8, 2]?);
    many.as_mut_slice().reverse();
    assert_eq!(rt; many.items(), [2, 1].as_slice());
    assert_eq!(rt; many.into_items().as_slice(), [2, 1].as_slice());
    Ok(())
}

#[test]
fn cuts(rt: HostRuntime) -> Result<(), Fail> {
    let split = words(rt.alloc(), b" a\tbc  d ")?;
    assert_eq!(rt; split.as_slice(), [b"a".as_slice(), b"bc", b"d"].as_slice());
    let whole = joined(rt.alloc(), split.as_slice())?;
    assert_eq!(rt; whole.as_slice(), b"a bc d".as_slice());
    assert_eq!(rt; joined(rt.alloc(), &[])?.as_slice(), b"".as_slice());
    assert_eq!(rt;
        cut(b"1:2:3", b':'),
        Some((b"1".as_slice(), b"2:3".as_slice()))
    );
    Ok(())
}

#[test]
fn digits(rt: HostRuntime) -> Result<(), Fail> {
    assert!(rt; is_decimal(b"0123") && !is_decimal(b"") && !is_decimal(b"1a"));
    assert_eq!(rt;
        if is_decimal(b"00042") {
            decimal(b"00042")
        } else {
            0
        },
        42
    );
    let mut out = Vec::new(rt.alloc());
    write_number(&mut out, u128::MAX)?;
    assert_eq!(rt;
        out.as_slice(),
        b"340282366920938463463374607431768211455".as_slice()
    );
    Ok(())
}

#[test]
fn shelf_in_memory(rt: HostRuntime) -> Result<(), Fail> {
    let alloc = rt.alloc();
    let mut shelf = MemShelf::new(alloc);
    shelf.add("a", b"one")?;
    shelf.add("a", b"seven")?;
    shelf.fail_on(7);
    shelf.fail_on(3);
    let loads = [
        ("a", 5, Ok(5)),
        ("a", 4, Err(LoadFault::TooLong)),
        ("b", 5, Err(LoadFault::Failed)),
        ("a", 5, Err(LoadFault::Failed)),
        ("a", 9, Ok(5)),
    ];
    for (name, limit, wanted) in loads {
        assert_eq!(rt;
            shelf.load(alloc, name, limit).map(|bytes| bytes.len()),
            wanted
        );
    }
    Ok(())
}

#[test]
fn sink_in_memory(rt: HostRuntime) -> Result<(), Fail> {
    let mut sink = MemSink::new(rt.alloc(), 4)?;
    assert_eq!(rt; write_all(&mut sink, b"ab"), Ok(()));
    assert_eq!(rt; write_all(&mut sink, b""), Ok(()));
    assert_eq!(rt; sink.write(b"cde"), Ok(2));
    assert_eq!(rt; write_all(&mut sink, b"e"), Err(SinkFailed));
    assert_eq!(rt; sink.bytes(), b"abcd".as_slice());
    assert_eq!(rt; sink.write(b""), Ok(0));
    Ok(())
}

#[test]
fn real_files(rt: HostRuntime) -> Result<(), Fail> {
    let alloc = rt.alloc();
    let folder = env::temp_dir(&rt)?;
    let path = folder.as_path().join(alloc, "esmcouple_file_shelf.txt")?;
    let name = path.as_path().as_str();
    fs::write(&rt, name, b"seven")?;
    let mut shelf = FileShelf::new(rt.clone()?);
    for (limit, wanted) in [
        (5, Ok(5)),
        (4, Err(LoadFault::TooLong)),
        (0, Err(LoadFault::TooLong)),
    ] {
        assert_eq!(rt;
            shelf.load(alloc, name, limit).map(|bytes| bytes.len()),
            wanted
        );
    }
    // A folder is no regular file.
    let place = folder.as_path().as_str();
    assert_eq!(rt; shelf.load(alloc, place, 5).err(), Some(LoadFault::Failed));
    fs::remove_file(&rt, name)?;
    assert_eq!(rt; shelf.load(alloc, name, 5).err(), Some(LoadFault::Failed));
    Ok(())
}

/// A stream that takes nothing.
#[derive(Drop)]
struct Full;

impl io::Write for Full {
    fn write(&mut self, _bytes: &[u8]) -> io::Result<usize> {
        Ok(0)
    }

    fn flush(&mut self) -> io::Result<()> {
        Ok(())
    }
}

#[test]
fn streams(rt: HostRuntime) -> Result<(), Fail> {
    let mut out = StdSink::new(rt.stdout());
    assert_eq!(rt;
        write_all(&mut out, b"a line for standard output\n"),
        Ok(())
    );
    assert_eq!(rt; out.write(b""), Ok(0));
    let mut full = StdSink::new(Full);
    assert_eq!(rt; full.write(b""), Ok(0));
    assert_eq!(rt; write_all(&mut full, b"x"), Err(SinkFailed));
    Ok(())
}
