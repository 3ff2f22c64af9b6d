//! Words of the command line, with what they say worked out by hand.
//!
//! Each range is met at its ends and past its end. The other rows are words that are easily taken by mistake: `+1` and
//! `01` for numbers, an option that is given twice, a value of `--pattern`.

use super::*;
use chart_model::{Settings, Shades};
use std::alloc::{AllocError, Global};
use std::test::Fail;

/// The settings and the day in a few words.
fn shown(alloc: Global, words: &Words) -> Result<String, AllocError> {
    let settings: &Settings = &words.settings;
    let shades = match settings.shades {
        Shades::Two => "two",
        Shades::Four => "four",
    };
    let pattern = if settings.pattern { "pattern" } else { "plain" };
    let mut text = format!(in alloc;
        "{} {} {} {} {} {} {shades} {pattern} {}",
        words.catalogue,
        words.table,
        settings.safety_contour,
        settings.safety_depth,
        settings.shallow,
        settings.deep,
        settings.scale
    )?;
    if let Some(day) = words.day {
        let day = format!(in alloc; " on {}-{}-{}", day.year, day.month, day.day)?;
        text.push_str(day.as_str())?;
    }
    Ok(text)
}

/// What the words of a line say, which single spaces part.
fn answer(alloc: Global, line: &str) -> Result<String, AllocError> {
    let mut words = Vec::new(alloc);
    for word in line.split(' ') {
        words.push(String::from_str(alloc, word)?)?;
    }
    match read_words(alloc, &words) {
        Ok(words) => shown(alloc, &words),
        Err(WordsFault::Refused) => String::from_str(alloc, "refused"),
        Err(WordsFault::NoMemory) => String::from_str(alloc, "no memory"),
    }
}

/// Words behind those of the catalogue and the table, and what all of them say.
static OPTIONS: [(&str, &str); 49] = [
    ("--safety-contour 0", "c t 0 3000 200 3000 four plain 1"),
    (
        "--safety-contour 1000000",
        "c t 1000000 3000 200 3000 four plain 1",
    ),
    ("--safety-contour 1000001", "refused"),
    ("--safety-depth 0", "c t 3000 0 200 3000 four plain 1"),
    (
        "--safety-depth=1000000",
        "c t 3000 1000000 200 3000 four plain 1",
    ),
    ("--safety-depth=1000001", "refused"),
    ("--shallow 0", "c t 3000 3000 0 3000 four plain 1"),
    (
        "--shallow 1000000",
        "c t 3000 3000 1000000 3000 four plain 1",
    ),
    ("--shallow 1000001", "refused"),
    ("--deep 0", "c t 3000 3000 200 0 four plain 1"),
    ("--deep 1000000", "c t 3000 3000 200 1000000 four plain 1"),
    ("--deep 1000001", "refused"),
    // a number has no sign, and no zero before it
    ("--deep 00", "refused"),
    ("--deep 01", "refused"),
    ("--deep +1", "refused"),
    ("--deep -1", "refused"),
    ("--deep=-1", "refused"),
    ("--deep=", "refused"),
    ("--deep ", "refused"),
    ("--deep", "refused"),
    ("--deep 1.5", "refused"),
    ("--deep 1x", "refused"),
    ("--deep 4294967297", "refused"),
    ("--deep 18446744073709551617", "refused"),
    ("--shades 1", "refused"),
    ("--shades 2", "c t 3000 3000 200 3000 two plain 1"),
    ("--shades 3", "refused"),
    ("--shades 4", "c t 3000 3000 200 3000 four plain 1"),
    ("--shades 02", "refused"),
    ("--shades two", "refused"),
    ("--scale 0", "refused"),
    ("--scale 1", "c t 3000 3000 200 3000 four plain 1"),
    (
        "--scale 100000000",
        "c t 3000 3000 200 3000 four plain 100000000",
    ),
    ("--scale 100000001", "refused"),
    ("--scale 010", "refused"),
    ("--pattern", "c t 3000 3000 200 3000 four pattern 1"),
    ("--pattern=true", "refused"),
    ("--pattern --pattern", "refused"),
    ("--deep 1 --deep 1", "refused"),
    ("--table=other", "refused"),
    ("--draught 1", "refused"),
    ("-d 1", "refused"),
    ("script", "refused"),
    ("--help", "refused"),
    ("-h", "refused"),
    ("--version", "refused"),
    // behind `--` stand no options
    ("--", "c t 3000 3000 200 3000 four plain 1"),
    ("-- script", "refused"),
    ("-- --pattern", "refused"),
];

/// The same of the option of the day, whose rows are apart from those of numbers.
static DAYS: [(&str, &str); 13] = [
    (
        "--day 20240701",
        "c t 3000 3000 200 3000 four plain 1 on 2024-7-1",
    ),
    (
        "--day=00010101",
        "c t 3000 3000 200 3000 four plain 1 on 1-1-1",
    ),
    (
        "--day 99991231",
        "c t 3000 3000 200 3000 four plain 1 on 9999-12-31",
    ),
    (
        "--day 20240229",
        "c t 3000 3000 200 3000 four plain 1 on 2024-2-29",
    ),
    ("--day 20230229", "refused"),
    ("--day 19000229", "refused"),
    ("--day 00000101", "refused"),
    ("--day 20241301", "refused"),
    ("--day 202407", "refused"),
    ("--day 2024-07-01", "refused"),
    ("--day=", "refused"),
    ("--day", "refused"),
    ("--day 20240701 --day 20240701", "refused"),
];

#[test]
fn options(rt: HostRuntime) -> Result<(), Fail> {
    for (more, said) in &OPTIONS {
        let line = format!(in rt.alloc(); "ecdis --catalogue c --table t {more}")?;
        let text = answer(rt.alloc(), line.as_str())?;
        assert!(rt; text.as_str() == *said, "{more}");
    }
    Ok(())
}

#[test]
fn days(rt: HostRuntime) -> Result<(), Fail> {
    for (more, said) in &DAYS {
        let line = format!(in rt.alloc(); "ecdis --catalogue c --table t {more}")?;
        let text = answer(rt.alloc(), line.as_str())?;
        assert!(rt; text.as_str() == *said, "{more}");
    }
    Ok(())
}

/// Whole lines, and what they say.
static LINES: [(&str, &str); 11] = [
    (
        "ecdis --catalogue c --table t",
        "c t 3000 3000 200 3000 four plain 1",
    ),
    (
        "/usr/bin/ecdis --table=t.txt --catalogue=ENC/c=1",
        "ENC/c=1 t.txt 3000 3000 200 3000 four plain 1",
    ),
    (
        " --scale 22000 --pattern --shades 2 --deep 4 --shallow 3 --safety-depth 2 --safety-contour 1 --table --catalogue c",
        "refused",
    ),
    (
        " --scale 22000 --pattern --shades 2 --deep 4 --shallow 3 --safety-depth 2 --safety-contour 1 --table t --catalogue c",
        "c t 1 2 3 4 two pattern 22000",
    ),
    ("ecdis", "refused"),
    ("ecdis --catalogue c", "refused"),
    ("ecdis --table t", "refused"),
    ("ecdis --catalogue c --table", "refused"),
    ("ecdis -catalogue c -table t", "refused"),
    ("--catalogue c --table t", "refused"),
    ("ecdis c t", "refused"),
];

#[test]
fn lines(rt: HostRuntime) -> Result<(), Fail> {
    for (line, said) in &LINES {
        let text = answer(rt.alloc(), line)?;
        assert!(rt; text.as_str() == *said, "{line}");
    }
    Ok(())
}

#[test]
fn no_words(rt: HostRuntime) {
    let none: [String; 0] = [];
    let refused = matches!(read_words(rt.alloc(), &none), Err(WordsFault::Refused));
    assert!(rt; refused);
}

#[test]
fn laws(_rt: HostRuntime) {
    numbers_are_spelled();
    settings_are_in_their_ranges();
    defaults_stand_alone();
    depths_are_set();
    looks_are_set();
    days_are_set();
    other_words_are_refused();
}
