//! Days of the calendar, and the texts that are none.

use date_display::read_day;
use std::test::Fail;

/// The first and the last year, and of the years that 4, 100 or 400 divides one each, with the days of February.
static YEARS: [(&[u8; 4], u8); 7] = [
    (b"0001", 28),
    (b"1900", 28),
    (b"2000", 29),
    (b"2023", 28),
    (b"2024", 29),
    (b"2100", 28),
    (b"9999", 28),
];

/// The last days of the months, but of February.
static LAST_DAYS: [u8; 12] = [31, 0, 31, 30, 31, 30, 31, 31, 30, 31, 30, 31];

static NO_DAYS: [&[u8]; 16] = [
    b"",
    b"2024",
    b"202402",
    b"2024010",
    b"202401011",
    b"00000101",
    b"20240001",
    b"20241301",
    b"20240100",
    b"20240199",
    b"2024-1-1",
    b"--240101",
    b"+2024010",
    b" 2024010",
    b"2024010 ",
    b"2024O101",
];

fn text_of(year: &[u8; 4], month: u8, day: u8) -> [u8; 8] {
    [
        year[0],
        year[1],
        year[2],
        year[3],
        b'0' + month / 10,
        b'0' + month % 10,
        b'0' + day / 10,
        b'0' + day % 10,
    ]
}

/// Whether the text is read as the day with these last numbers.
fn is_day(text: &[u8], month: u8, day: u8) -> bool {
    match read_day(text) {
        Some(read) => {
            i16::from(read.month) == i16::from(month) && i16::from(read.day) == i16::from(day)
        }
        None => false,
    }
}

#[test]
fn last_days(rt: HostRuntime) -> Result<(), Fail> {
    for (year, of_february) in &YEARS {
        for (month, listed) in (1..13u8).zip(LAST_DAYS.iter()) {
            let last = if month == 2 { *of_february } else { *listed };
            let text = text_of(year, month, last);
            assert!(rt; is_day(&text, month, last), "the last of {month}");
            let behind = text_of(year, month, last + 1);
            assert!(rt; read_day(&behind).is_none(), "behind the last of {month}");
        }
    }
    Ok(())
}

#[test]
fn years(rt: HostRuntime) -> Result<(), Fail> {
    let cases: [(&[u8], i16); 3] = [(b"00010101", 1), (b"20240229", 2024), (b"99991231", 9999)];
    for (text, year) in cases {
        match read_day(text) {
            Some(day) => assert_eq!(rt; day.year, year),
            None => assert!(rt; false, "a day of {year}"),
        }
    }
    Ok(())
}

#[test]
fn no_days(rt: HostRuntime) -> Result<(), Fail> {
    for (at, text) in NO_DAYS.iter().enumerate() {
        assert!(rt; read_day(text).is_none(), "text {at}");
    }
    Ok(())
}
