//! The command, built with `clap`.
//!
//! The names of the settings are those that `command_words` reads. Its rules are compared one by one with those of the
//! definition; what words they take is `clap`'s to say, and proved there. What the help says stands beside.

ghost use Rattle.std.specs.Prelude.{◌≡◌, IfOk, false};
ghost use Rattle.clap.specs.Words.{app_of, rule_of};
ghost use Rattle.picture_words.specs.Command.{cell_files, chart_picture, depths, flag, looks, optional};
ghost use Rattle.picture_words.specs.Command.{required_option, shown, tables, versioned, view, with_rules};

use clap::{Arg, ArgAction, Command};
use std::alloc::{AllocError, Global};

/// What the program is for, as `--help` has it.
const ABOUT: &str =
    "Draws the charts that cell files leave as a picture in SVG 1.1, on standard output. \
    Pictures are not for navigation.";

/// What `--version` has behind the program's name.
const VERSION: &str = "1";

/// The borders of a view, in the order in which they are given.
static BORDERS: [&str; 4] = ["X0", "Y0", "X1", "Y1"];

/// `--name VALUE`, which may be left out.
fn optional<'a>(alloc: Global, name: &'a str, value: &'a str, help: &'a str) -> Arg<'a>
    ensures rule { rule_of result ≡ optional name.entry.now }
    ensures local { result.global ≡ false }
{
    Arg::new(alloc, name)
        .long(name)
        .value_name(value)
        .help(help)
}

/// `--name NAME`, the name of a file, which has to be there.
fn required_option<'a>(alloc: Global, name: &'a str, help: &'a str) -> Arg<'a>
    ensures rule { rule_of result ≡ required_option name.entry.now }
    ensures local { result.global ≡ false }
{
    optional(alloc, name, "NAME", help).required(true)
}

/// `--name`, which is set or not.
fn flag<'a>(alloc: Global, name: &'a str, help: &'a str) -> Arg<'a>
    ensures rule { rule_of result ≡ flag name.entry.now }
    ensures local { result.global ≡ false }
{
    Arg::new(alloc, name)
        .long(name)
        .action(ArgAction::SetTrue)
        .help(help)
}

/// `--view`, with its four borders.
fn view<'a>(alloc: Global) -> Arg<'a>
    ensures rule { rule_of result ≡ view }
    ensures local { result.global ≡ false }
{
    Arg::new(alloc, "view")
        .long("view")
        .num_args(4)
        .value_names(&BORDERS)
        .help("from longitude X0 to X1 and from latitude Y0 to Y1, in degrees times 10,000,000")
}

/// The files by which cells are drawn.
fn with_tables<'a>(alloc: Global, command: Command<'a>) -> Result<Command<'a>, AllocError>
    ensures { IfOk result (λ r. app_of r ≡ with_rules (app_of command.entry) tables) }
{
    command
        .arg(required_option(alloc, "catalogue", "the object catalogue's file"))?
        .arg(required_option(alloc, "table", "the lookup table's file"))?
        .arg(required_option(alloc, "colours", "the file of colours"))
}

/// The depths that the mariner sets.
fn with_depths<'a>(alloc: Global, command: Command<'a>) -> Result<Command<'a>, AllocError>
    ensures { IfOk result (λ r. app_of r ≡ with_rules (app_of command.entry) depths) }
{
    let contour = "the safety contour, in centimetres [default: 3000]";
    let depth = "the safety depth, in centimetres [default: 3000]";
    let shallow = "the shallow contour, in centimetres [default: 200]";
    let deep = "the deep contour, in centimetres [default: 3000]";
    command
        .arg(optional(alloc, "safety-contour", "CM", contour))?
        .arg(optional(alloc, "safety-depth", "CM", depth))?
        .arg(optional(alloc, "shallow", "CM", shallow))?
        .arg(optional(alloc, "deep", "CM", deep))
}

/// How the mariner wants the chart to look.
fn with_looks<'a>(alloc: Global, command: Command<'a>) -> Result<Command<'a>, AllocError>
    ensures { IfOk result (λ r. app_of r ≡ with_rules (app_of command.entry) looks) }
{
    let shades = "2 or 4 shades of depth areas [default: 4]";
    let pattern = "a pattern on depth areas that aren't deeper than the safety contour";
    let scale = "the denominator of the display scale [default: 1]";
    command
        .arg(optional(alloc, "shades", "N", shades))?
        .arg(flag(alloc, "pattern", pattern))?
        .arg(optional(alloc, "scale", "N", scale))
}

/// What the picture shows.
fn with_view<'a>(alloc: Global, command: Command<'a>) -> Result<Command<'a>, AllocError>
    ensures { IfOk result (λ r. app_of r ≡ with_rules (app_of command.entry) shown) }
{
    let route = "the file of a route, which is drawn with its dangers";
    let width = "how many units the picture is wide, 1 to 65535 [default: 1000]";
    command
        .arg(optional(alloc, "route", "NAME", route))?
        .arg(view(alloc))?
        .arg(optional(alloc, "width", "N", width))
}

/// The cell files.
fn with_files<'a>(alloc: Global, command: Command<'a>) -> Result<Command<'a>, AllocError>
    ensures { IfOk result (λ r. app_of r ≡ with_rules (app_of command.entry) cell_files) }
{
    let files = Arg::new(alloc, "file")
        .value_name("FILE")
        .num_args(1..)
        .required(true)
        .help("cell files, which are loaded in this order");
    command.arg(files)
}

/// The command without arguments, which tells what it is for and its version.
fn versioned<'a>(alloc: Global) -> Command<'a>
    ensures { app_of result ≡ versioned }
{
    Command::new(alloc, "chart_picture")
        .about(ABOUT)
        .version(VERSION)
}

/// The command of the program.
pub(crate) fn chart_picture<'a>(alloc: Global) -> Result<Command<'a>, AllocError>
    ensures { IfOk result (λ command. app_of command ≡ chart_picture) }
{
    let command = with_tables(alloc, versioned(alloc))?;
    let command = with_depths(alloc, command)?;
    let command = with_looks(alloc, command)?;
    let command = with_view(alloc, command)?;
    with_files(alloc, command)
}
