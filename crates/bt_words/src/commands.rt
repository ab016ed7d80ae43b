// The commands as clap reads them: one for each command word, without flags for help or the version.
ghost use Rattle.std.specs.Prelude.{◌≡◌, IfOk, false};
ghost use Rattle.clap.specs.Words.{App, app_of, rule_of, with_rule};
ghost use Rattle.bt_words.specs.Commands.{account_app, flag_rule, operand_rule, plain_app, run_app, two_app, verify_app, with_operands};

use clap::{Arg, ArgAction, Command};
use std::alloc::{AllocError, Global};

/// `run`, with its three options.
pub(crate) fn run_command<'a>(alloc: Global) -> Result<Command<'a>, AllocError>
    ensures { IfOk result (λ command. app_of command ≡ run_app) }
{
    let serial = with_flag(alloc, Ok(plain_command(alloc, "run")), "serial");
    let stats = with_flag(alloc, serial, "stats");
    let json = with_flag(alloc, stats, "json");
    with_operands(alloc, json, "script", "recording")
}

/// `account`, with its option.
pub(crate) fn account_command<'a>(alloc: Global) -> Result<Command<'a>, AllocError>
    ensures { IfOk result (λ command. app_of command ≡ account_app) }
{
    let serial = with_flag(alloc, Ok(plain_command(alloc, "account")), "serial");
    with_operands(alloc, serial, "script", "recording")
}

/// `verify`, with its three operands.
pub(crate) fn verify_command<'a>(alloc: Global) -> Result<Command<'a>, AllocError>
    ensures { IfOk result (λ command. app_of command ≡ verify_app) }
{
    let command = Ok(plain_command(alloc, "verify"));
    let files = with_operands(alloc, command, "script", "recording");
    with_operand(alloc, files, "account")
}

/// A command of two operands alone.
pub(crate) fn two_command<'a>(alloc: Global, name: &'a str) -> Result<Command<'a>, AllocError>
    ensures { IfOk result (λ command. app_of command ≡ two_app name.entry.now) }
{
    with_operands(alloc, Ok(plain_command(alloc, name)), "first", "second")
}

/// A command without flags for help or the version.
fn plain_command<'a>(alloc: Global, name: &'a str) -> Command<'a>
    ensures { app_of result ≡ plain_app name.entry.now }
{
    Command::new(alloc, name)
        .disable_help_flag(true)
        .disable_version_flag(true)
}

/// The command with an option more, where there was memory for what it has.
fn with_flag<'a>(
    alloc: Global,
    command: Result<Command<'a>, AllocError>,
    name: &'a str,
) -> Result<Command<'a>, AllocError>
    ensures { (app : App) → IfOk command.entry (λ c. app_of c ≡ app) → IfOk result (λ all. app_of all ≡ with_rule app (flag_rule name.entry.now)) }
{
    match command {
        Ok(command) => command.arg(flag(alloc, name)),
        Err(error) => Err(error),
    }
}

/// The command with an operand more, where there was memory for what it has.
fn with_operand<'a>(
    alloc: Global,
    command: Result<Command<'a>, AllocError>,
    name: &'a str,
) -> Result<Command<'a>, AllocError>
    ensures { (app : App) → IfOk command.entry (λ c. app_of c ≡ app) → IfOk result (λ all. app_of all ≡ with_rule app (operand_rule name.entry.now)) }
{
    match command {
        Ok(command) => command.arg(operand(alloc, name)),
        Err(error) => Err(error),
    }
}

/// The command with two operands more, where there was memory for what it has.
fn with_operands<'a>(
    alloc: Global,
    command: Result<Command<'a>, AllocError>,
    first: &'a str,
    second: &'a str,
) -> Result<Command<'a>, AllocError>
    ensures { (app : App) → IfOk command.entry (λ c. app_of c ≡ app) → IfOk result (λ all. app_of all ≡ with_operands app first.entry.now second.entry.now) }
{
    with_operand(alloc, with_operand(alloc, command, first), second)
}

/// The option `--name`.
fn flag<'a>(alloc: Global, name: &'a str) -> Arg<'a>
    ensures { (rule_of result ≡ flag_rule name.entry.now) × (result.global ≡ false) }
{
    Arg::new(alloc, name).long(name).action(ArgAction::SetTrue)
}

/// An operand that must be there.
fn operand<'a>(alloc: Global, name: &'a str) -> Arg<'a>
    ensures { (rule_of result ≡ operand_rule name.entry.now) × (result.global ≡ false) }
{
    Arg::new(alloc, name).required(true)
}
