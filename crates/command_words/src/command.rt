//! The command, built with `clap`.
//!
//! Its rules are compared one by one with those of the definition; what words they take is `clap`'s to say, and proved
//! there.

ghost use Rattle.std.specs.Prelude.{◌≡◌, IfOk, false};
ghost use Rattle.clap.specs.Words.{app_of, rule_of};
ghost use Rattle.command_words.specs.Command.{depths, ecdis, files, flag, looks, optional, required_option, with_rules};

use clap::{Arg, ArgAction, Command};
use std::alloc::{AllocError, Global};

/// `--name VALUE`, which has to be there.
fn required_option<'a>(alloc: Global, name: &'a str) -> Arg<'a>
    ensures rule { rule_of result ≡ required_option name.entry.now }
    ensures local { result.global ≡ false }
{
    Arg::new(alloc, name).long(name).required(true)
}

/// `--name VALUE`, which may be left out.
fn optional<'a>(alloc: Global, name: &'a str) -> Arg<'a>
    ensures rule { rule_of result ≡ optional name.entry.now }
    ensures local { result.global ≡ false }
{
    Arg::new(alloc, name).long(name)
}

/// `--name`, which is set or not.
fn flag<'a>(alloc: Global, name: &'a str) -> Arg<'a>
    ensures rule { rule_of result ≡ flag name.entry.now }
    ensures local { result.global ≡ false }
{
    Arg::new(alloc, name).long(name).action(ArgAction::SetTrue)
}

/// The files that the program is given.
fn with_files<'a>(alloc: Global, command: Command<'a>) -> Result<Command<'a>, AllocError>
    ensures { IfOk result (λ r. app_of r ≡ with_rules (app_of command.entry) files) }
{
    command
        .arg(required_option(alloc, "catalogue"))?
        .arg(required_option(alloc, "table"))
}

/// The depths that the mariner sets.
fn with_depths<'a>(alloc: Global, command: Command<'a>) -> Result<Command<'a>, AllocError>
    ensures { IfOk result (λ r. app_of r ≡ with_rules (app_of command.entry) depths) }
{
    command
        .arg(optional(alloc, "safety-contour"))?
        .arg(optional(alloc, "safety-depth"))?
        .arg(optional(alloc, "shallow"))?
        .arg(optional(alloc, "deep"))
}

/// How the mariner wants the chart to look, and on which day.
fn with_looks<'a>(alloc: Global, command: Command<'a>) -> Result<Command<'a>, AllocError>
    ensures { IfOk result (λ r. app_of r ≡ with_rules (app_of command.entry) looks) }
{
    command
        .arg(optional(alloc, "shades"))?
        .arg(flag(alloc, "pattern"))?
        .arg(optional(alloc, "scale"))?
        .arg(optional(alloc, "day"))
}

/// The command of the program.
pub fn ecdis<'a>(alloc: Global) -> Result<Command<'a>, AllocError>
    ensures { IfOk result (λ command. app_of command ≡ ecdis) }
{
    let command = with_files(alloc, Command::new(alloc, "ecdis"))?;
    let command = with_depths(alloc, command)?;
    with_looks(alloc, command)
}
