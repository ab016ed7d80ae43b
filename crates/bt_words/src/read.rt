// Reading words: first the rule is tested, then clap reads the words that it admits.
ghost use Rattle.std.specs.Prelude.{◌≡◌, ◌↔◌, ◌∷◌, [], IsSome, None, Some, Err, IfOk, IfErr, drop, map, true, string_bytes};
ghost use Rattle.clap.specs.Words.{App, app_of, first_of, found_of, matches_of, rows_of, takes};
ghost use Rattle.bt_words.specs.Commands.{AreTwoOperands, IsFileCommand, IsNumberCommand};
ghost use Rattle.bt_words.specs.Words.{account_order, order_by, order_of, plain_order, run_order, verify_order, HasBounds, IsAnswer};

use crate::commands::{account_command, run_command, two_command, verify_command};
use crate::number::{Numbers, two_numbers};
use crate::order::{FileName, Order, WordsError};
use crate::rule::is_admitted;
use bt_core::beside::beside;
use clap::{ArgMatches, Command};
use std::alloc::{AllocError, Global};

/// What words ask for. The first is the command; behind it stand options and operands in any order,
/// none of them empty. Options begin with `-`: `run` takes `--serial`, `--stats` and `--json`, each once, and
/// `account` takes `--serial` once. `verify` takes three operands, and each other command two. The numbers of
/// `gen` and `big` are at most 2,147,483,647 and the limit of events.
///
/// # Errors
///
/// [`WordsError::Usage`] where the words break this rule, and only there. [`WordsError::Memory`] may
/// come at any other words.
pub fn read_words(alloc: Global, words: &[String]) -> Result<Order, WordsError>
    ensures found { IfOk result (λ order. order_of words.now ≡ Some order) }
    ensures bounded { IfOk result HasBounds }
    ensures usage { (result ≡ Err WordsError.Usage) ↔ (order_of words.now ≡ None) }
{
    if !is_admitted(words) {
        return Err(WordsError::Usage);
    }
    admitted_order(alloc, words[0].as_str(), words)
}

/// The order of words that obey the rule. The first is the command.
fn admitted_order(alloc: Global, command: &str, words: &[String]) -> Result<Order, WordsError>
    requires { IsSome (order_by command.now (drop 1 (map string_bytes words.now))) }
    ensures { IsAnswer (order_by command.now (drop 1 (map string_bytes words.now))) result }
{
    match command {
        "run" => run_order(alloc, words),
        "account" => account_order(alloc, words),
        "verify" => verify_order(alloc, words),
        _ => plain_order(alloc, command, two_operands(alloc, command, words)?),
    }
}

/// The order of `run`, as clap reads its options and operands.
fn run_order(alloc: Global, words: &[String]) -> Result<Order, WordsError>
    requires { IsSome (run_order (drop 1 (map string_bytes words.now))) }
    ensures { IsAnswer (run_order (drop 1 (map string_bytes words.now))) result }
{
    let Ok(matches) = parsed(run_command(alloc), words) else {
        return Err(WordsError::Memory);
    };
    let serial = matches.get_flag("serial");
    let stats = matches.get_flag("stats");
    let json = matches.get_flag("json");
    let first = text(&matches, "script");
    let second = text(&matches, "recording");
    drop(matches);
    match two_names(alloc, first, second) {
        Ok((script, recording)) => Ok(Order::Run {
            serial,
            stats,
            json,
            script,
            recording,
        }),
        Err(error) => Err(error),
    }
}

/// The order of `account`, as clap reads its option and operands.
fn account_order(alloc: Global, words: &[String]) -> Result<Order, WordsError>
    requires { IsSome (account_order (drop 1 (map string_bytes words.now))) }
    ensures { IsAnswer (account_order (drop 1 (map string_bytes words.now))) result }
{
    let Ok(matches) = parsed(account_command(alloc), words) else {
        return Err(WordsError::Memory);
    };
    let serial = matches.get_flag("serial");
    let first = text(&matches, "script");
    let second = text(&matches, "recording");
    drop(matches);
    match two_names(alloc, first, second) {
        Ok((script, recording)) => Ok(Order::Account {
            serial,
            script,
            recording,
        }),
        Err(error) => Err(error),
    }
}

/// The order of `verify`, as clap reads its operands.
fn verify_order(alloc: Global, words: &[String]) -> Result<Order, WordsError>
    requires { IsSome (verify_order (drop 1 (map string_bytes words.now))) }
    ensures { IsAnswer (verify_order (drop 1 (map string_bytes words.now))) result }
{
    let Ok(matches) = parsed(verify_command(alloc), words) else {
        return Err(WordsError::Memory);
    };
    let first = text(&matches, "script");
    let second = text(&matches, "recording");
    let third = text(&matches, "account");
    drop(matches);
    match three_names(alloc, first, second, third) {
        Ok(((script, recording), account)) => Ok(Order::Verify {
            script,
            recording,
            account,
        }),
        Err(error) => Err(error),
    }
}

/// The names that two texts are.
fn two_names(alloc: Global, first: &str, second: &str) -> Result<(FileName, FileName), WordsError>
    ensures names { IfOk result (λ names. (names.0 ≡ first.now) × (names.1 ≡ second.now)) }
    ensures memory { IfErr result (λ error. error ≡ WordsError.Memory) }
{
    let first = FileName::of(alloc, first)?;
    Ok(beside(first, FileName::of(alloc, second))?)
}

/// The names that three texts are.
fn three_names(
    alloc: Global,
    first: &str,
    second: &str,
    third: &str,
) -> Result<((FileName, FileName), FileName), WordsError>
    ensures names { IfOk result (λ names. (names.0.0 ≡ first.now) × (names.0.1 ≡ second.now) × (names.1 ≡ third.now)) }
    ensures memory { IfErr result (λ error. error ≡ WordsError.Memory) }
{
    let two = two_names(alloc, first, second)?;
    Ok(beside(two, FileName::of(alloc, third))?)
}

/// The order of a command that takes two operands and no options.
fn plain_order(alloc: Global, command: &str, operands: Operands<'_>) -> Result<Order, WordsError>
    ensures { IsAnswer (plain_order command.now (operands.entry.first.now ∷ operands.entry.second.now ∷ [])) result }
{
    match command {
        "check" | "code" | "vet" => file_order(alloc, command, operands),
        "gen" | "big" => number_order(command, operands),
        _ => Err(WordsError::Usage),
    }
}

/// The order of a command that takes the names of two files and no options.
fn file_order(alloc: Global, command: &str, operands: Operands<'_>) -> Result<Order, WordsError>
    requires { IsFileCommand command.now }
    ensures { IsAnswer (plain_order command.now (operands.entry.first.now ∷ operands.entry.second.now ∷ [])) result }
{
    let (script, recording) = two_names(alloc, operands.first, operands.second)?;
    Ok(match command {
        "check" => Order::Check { script, recording },
        "code" => Order::Code { script, recording },
        _ => Order::Vet { script, recording },
    })
}

/// The order of a command that takes two numbers.
fn number_order(command: &str, operands: Operands<'_>) -> Result<Order, WordsError>
    requires { IsNumberCommand command.now }
    ensures { IsAnswer (plain_order command.now (operands.entry.first.now ∷ operands.entry.second.now ∷ [])) result }
{
    let Some(Numbers { x, n }) = two_numbers(operands.first, operands.second) else {
        return Err(WordsError::Usage);
    };
    Ok(match command {
        "gen" => Order::Gen { x, n },
        _ => Order::Big { x, n },
    })
}

/// Two operands.
#[derive(Clone, Copy)]
struct Operands<'w> {
    first: &'w str,
    second: &'w str,
}

/// The operands behind a command that takes two and nothing else.
fn two_operands<'w>(
    alloc: Global,
    command: &'w str,
    words: &'w [String],
) -> Result<Operands<'w>, WordsError>
    requires { AreTwoOperands (drop 1 (map string_bytes words.now)) }
    ensures found { IfOk result (λ two. drop 1 (map string_bytes words.now) ≡ two.first.now ∷ two.second.now ∷ []) }
    ensures memory { IfErr result (λ error. error ≡ WordsError.Memory) }
{
    let Ok(matches) = parsed(two_command(alloc, command), words) else {
        return Err(WordsError::Memory);
    };
    let first = text(&matches, "first");
    let second = text(&matches, "second");
    drop(matches);
    Ok(Operands { first, second })
}

/// The text that clap read under a name.
fn text<'w>(matches: &ArgMatches<'w>, name: &str) -> &'w str
    requires { IsSome (first_of name.now (rows_of (found_of matches.now))) }
    ensures { first_of name.now (rows_of (found_of matches.now)) ≡ Some result.now }
{
    matches.get_str(name).unwrap()
}

/// What clap reads in words that the command takes, where there was memory for the command: it fails only
/// for want of memory.
fn parsed<'w>(
    command: Result<Command<'w>, AllocError>,
    words: &'w [String],
) -> Result<ArgMatches<'w>, WordsError>
    requires { IfOk command (λ c. takes (app_of c) (map string_bytes words.now) ≡ true) }
    ensures matches { (app : App) → IfOk command.entry (λ c. app_of c ≡ app)
        → IfOk result (λ m. rows_of (found_of m) ≡ matches_of app (map string_bytes words.entry.now)) }
    ensures memory { IfErr result (λ error. error ≡ WordsError.Memory) }
{
    let Ok(command) = command else {
        return Err(WordsError::Memory);
    };
    match command.try_get_matches_from(words) {
        Ok(matches) => Ok(matches),
        Err(_) => Err(WordsError::Memory),
    }
}
