// The rule of the command line, as a test that answers yes or no and takes no memory.
ghost use Rattle.std.specs.Prelude.{◌≡◌, ◌||◌, ℕ, codes, count_by, filter, is_some, length, map, string_bytes};
ghost use Rattle.std.specs.List.{list_all, list_any};
ghost use Rattle.std.specs.Str.{bytes_eq};
ghost use Rattle.bt_words.specs.declared.order.Order.{Order};
ghost use Rattle.bt_words.specs.Words.{has_place_in_account, has_place_in_run, is_empty, is_operand, of_two, order_by, order_of, two_numbers};

use crate::number::two_numbers;

/// Whether words obey the rule of the command line.
pub(crate) fn is_admitted(words: &[String]) -> bool
    ensures { result ≡ is_some (order_of words.now) }
{
    match words {
        [] => false,
        [command, later @ ..] => !has_empty(later) && suits(command.as_str(), later),
    }
}

/// Whether the words suit the command that they stand behind.
fn suits(command: &str, words: &[String]) -> bool
    ensures { result ≡ is_some (order_by command.now (map string_bytes words.now)) }
{
    match command {
        "run" => are_run_words(words),
        "account" => are_account_words(words),
        "verify" => are_three_operands(words),
        "check" | "code" | "vet" => are_two_operands(words),
        "gen" | "big" => are_two_numbers(words),
        _ => false,
    }
}

/// Whether the words are two operands, and options that `run` takes, each at most once.
fn are_run_words(words: &[String]) -> bool
    ensures { result ≡ is_some (order_by (codes "run") (map string_bytes words.now)) }
{
    have_place_in_run(words)
        && count(words, "--serial") <= 1
        && count(words, "--stats") <= 1
        && count(words, "--json") <= 1
        && count_operands(words) == 2
}

/// Whether the words are two operands, and the option that `account` takes, at most once.
fn are_account_words(words: &[String]) -> bool
    ensures { result ≡ is_some (order_by (codes "account") (map string_bytes words.now)) }
{
    have_place_in_account(words) && count(words, "--serial") <= 1 && count_operands(words) == 2
}

/// Whether the words are three operands alone.
fn are_three_operands(words: &[String]) -> bool
    ensures { result ≡ is_some (order_by (codes "verify") (map string_bytes words.now)) }
{
    are_operands(words) && words.len() == 3
}

/// Whether the words are two operands alone.
fn are_two_operands(words: &[String]) -> bool
    ensures for_check { result ≡ is_some (order_by (codes "check") (map string_bytes words.now)) }
    ensures for_code { result ≡ is_some (order_by (codes "code") (map string_bytes words.now)) }
    ensures for_vet { result ≡ is_some (order_by (codes "vet") (map string_bytes words.now)) }
{
    are_operands(words) && words.len() == 2
}

/// Whether the words are the two numbers of `gen` and `big`.
fn are_two_numbers(words: &[String]) -> bool
    ensures { (made : ℕ → ℕ → Order) → result ≡ is_some (of_two (two_numbers made) (map string_bytes words.now)) }
{
    match words {
        [x, n] => two_numbers(x.as_str(), n.as_str()).is_some(),
        _ => false,
    }
}

/// Whether one of the words is empty.
fn has_empty(words: &[String]) -> bool
    ensures { result ≡ list_any is_empty (map string_bytes words.now) }
{
    for word in words {
        if word.is_empty() {
            return true;
        }
    }
    false
}

/// Whether a word is an operand: it does not begin with `-`.
fn is_operand(word: &str) -> bool
    ensures { result ≡ is_operand word.now }
{
    match word.as_bytes() {
        [] => true,
        [first, ..] => *first != b'-',
    }
}

/// Whether all words are operands.
fn are_operands(words: &[String]) -> bool
    ensures { result ≡ list_all is_operand (map string_bytes words.now) }
{
    for word in words {
        if !is_operand(word.as_str()) {
            return false;
        }
    }
    true
}

/// Whether a word may stand behind `run`.
fn has_place_in_run(word: &str) -> bool
    ensures { result ≡ has_place_in_run word.now }
{
    is_operand(word) || word == "--serial" || word == "--stats" || word == "--json"
}

/// Whether all words may stand behind `run`, however often.
fn have_place_in_run(words: &[String]) -> bool
    ensures { result ≡ list_all has_place_in_run (map string_bytes words.now) }
{
    for word in words {
        if !has_place_in_run(word.as_str()) {
            return false;
        }
    }
    true
}

/// Whether a word may stand behind `account`.
fn has_place_in_account(word: &str) -> bool
    ensures { result ≡ has_place_in_account word.now }
{
    is_operand(word) || word == "--serial"
}

/// Whether all words may stand behind `account`, however often.
fn have_place_in_account(words: &[String]) -> bool
    ensures { result ≡ list_all has_place_in_account (map string_bytes words.now) }
{
    for word in words {
        if !has_place_in_account(word.as_str()) {
            return false;
        }
    }
    true
}

/// How many of the words are this option.
fn count(words: &[String], option: &str) -> usize
    ensures { result ≡ count_by (λ w. bytes_eq w option.now) (map string_bytes words.now) }
{
    let mut found = 0;
    for word in words {
        if word.as_str() == option {
            found += 1;
        }
    }
    found
}

/// How many of the words are operands.
fn count_operands(words: &[String]) -> usize
    ensures { result ≡ length (filter is_operand (map string_bytes words.now)) }
{
    let mut found = 0;
    for word in words {
        if is_operand(word.as_str()) {
            found += 1;
        }
    }
    found
}
