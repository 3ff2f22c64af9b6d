//! Words of the command line, with what they say worked out by hand.

use super::*;
use chart_svg::Spot;
use plane_geometry::Pt;
use std::alloc::{AllocError, Global};
use std::test::Fail;

/// What the words say, in a few words: the names, the width and the safety contour, the files, and where a point at 5
/// and 5 stands in the view.
fn shown(alloc: Global, words: &PictureWords) -> Result<String, AllocError> {
    let mut text = format!(in alloc;
        "{} {} {} {} {}",
        words.catalogue, words.table, words.colours, words.width, words.settings.safety_contour
    )?;
    if let Some(route) = &words.route {
        text.push_str(" along ")?;
        text.push_str(route.as_str())?;
    }
    if let Some(view) = &words.view {
        let Spot { x, y } = view.spot(Pt { x: 5, y: 5 });
        let spot = format!(in alloc; " at {x} {y}")?;
        text.push_str(spot.as_str())?;
    }
    for file in &words.files {
        text.push_str(" ")?;
        text.push_str(file.as_str())?;
    }
    Ok(text)
}

/// What the words of a line say, which single spaces part.
fn answer(alloc: Global, line: &str) -> Result<String, AllocError> {
    let mut words = Vec::new(alloc);
    for word in line.split(' ') {
        words.push(String::from_str(alloc, word)?)?;
    }
    match read_picture_words(alloc, &words) {
        Ok(words) => shown(alloc, &words),
        Err(WordsEnd::Asked(text)) => Ok(text),
        Err(WordsEnd::Refused) => String::from_str(alloc, "refused"),
        Err(WordsEnd::NoMemory) => String::from_str(alloc, "no memory"),
    }
}

/// Words behind those of the three tables, and what all of them say.
static LINES: [(&str, &str); 20] = [
    ("f", "c t o 1000 3000 f"),
    ("f g f", "c t o 1000 3000 f g f"),
    ("--width 1 f", "c t o 1 3000 f"),
    ("f --width 65535", "c t o 65535 3000 f"),
    ("--width 0 f", "refused"),
    ("--width 65536 f", "refused"),
    ("--safety-contour 500 f", "c t o 1000 500 f"),
    ("--safety-contour 1000001 f", "refused"),
    ("--route r f", "c t o 1000 3000 along r f"),
    ("--view 0 0 10 10 f", "c t o 1000 3000 at 500 500 f"),
    (
        "f --view -10 0 10 10 --width 200",
        "c t o 200 3000 at 150 50 f",
    ),
    ("f --view 0 0 10", "refused"),
    ("f --view 0 0 0 10", "refused"),
    ("f --view 0 10 10 10", "refused"),
    ("f --view 0 0 10 2147483648", "refused"),
    ("f --view 0 0 10 x", "refused"),
    ("f --view 0 0 10 10 --view 0 0 10 10", "refused"),
    ("", "refused"),
    ("--colours o f", "refused"),
    ("--version", "chart_picture 1\n"),
];

#[test]
fn words(rt: HostRuntime) -> Result<(), Fail> {
    let alloc = rt.alloc();
    for (line, wanted) in LINES.iter() {
        let before = "chart_picture --catalogue c --table t --colours o";
        let line = if line.is_empty() {
            String::from_str(alloc, before)?
        } else {
            format!(in alloc; "{before} {line}")?
        };
        let said = answer(alloc, line.as_str())?;
        assert_eq!(rt; said.as_str(), *wanted, "{line}");
    }
    Ok(())
}

#[test]
fn help(rt: HostRuntime) -> Result<(), Fail> {
    let said = answer(rt.alloc(), "chart_picture --help")?;
    let text = said.as_str();
    for part in [
        "not for navigation",
        "--colours <NAME>",
        "--view <X0> <Y0> <X1> <Y1>",
        "FILE",
    ] {
        assert!(rt; text.contains(part), "{part}");
    }
    Ok(())
}
