// Words whose order was worked out by hand.
use bt_words::order::{Order, WordsError};
use bt_words::read::read_words;
use std::alloc::{AllocError, Global};
use std::test::Fail;

fn words_of(alloc: Global, texts: &[&str]) -> Result<Vec<String>, AllocError> {
    let mut words = Vec::new(alloc);
    for text in texts {
        words.push(String::from_str(alloc, text)?)?;
    }
    Ok(words)
}

/// What these words ask for.
fn order_of(alloc: Global, texts: &[&str]) -> Result<Order, WordsError> {
    let words = words_of(alloc, texts)?;
    read_words(alloc, &words)
}

/// Each arrangement of `--serial`, `--stats` and two operands behind `run`, and some with `--json`, with whether each
/// of the three stands in it.
const RUNS: [(&[&str], bool, bool, bool); 27] = [
    (&["run", "a", "b"], false, false, false),
    (&["run", "--serial", "a", "b"], true, false, false),
    (&["run", "a", "--serial", "b"], true, false, false),
    (&["run", "a", "b", "--serial"], true, false, false),
    (&["run", "--stats", "a", "b"], false, true, false),
    (&["run", "a", "--stats", "b"], false, true, false),
    (&["run", "a", "b", "--stats"], false, true, false),
    (&["run", "--serial", "--stats", "a", "b"], true, true, false),
    (&["run", "--serial", "a", "--stats", "b"], true, true, false),
    (&["run", "--serial", "a", "b", "--stats"], true, true, false),
    (&["run", "a", "--serial", "--stats", "b"], true, true, false),
    (&["run", "a", "--serial", "b", "--stats"], true, true, false),
    (&["run", "a", "b", "--serial", "--stats"], true, true, false),
    (&["run", "--stats", "--serial", "a", "b"], true, true, false),
    (&["run", "--stats", "a", "--serial", "b"], true, true, false),
    (&["run", "--stats", "a", "b", "--serial"], true, true, false),
    (&["run", "a", "--stats", "--serial", "b"], true, true, false),
    (&["run", "a", "--stats", "b", "--serial"], true, true, false),
    (&["run", "a", "b", "--stats", "--serial"], true, true, false),
    (&["run", "--json", "a", "b"], false, false, true),
    (&["run", "a", "--json", "b"], false, false, true),
    (&["run", "a", "b", "--json"], false, false, true),
    (&["run", "--json", "--serial", "a", "b"], true, false, true),
    (&["run", "a", "--stats", "--json", "b"], false, true, true),
    (
        &["run", "--serial", "a", "--json", "b", "--stats"],
        true,
        true,
        true,
    ),
    (
        &["run", "a", "b", "--json", "--stats", "--serial"],
        true,
        true,
        true,
    ),
    (
        &["run", "--stats", "--serial", "--json", "a", "b"],
        true,
        true,
        true,
    ),
];

/// Whether an order is a run of `a` over `b` with these of the three options.
fn is_run(order: &Order, options: [bool; 3]) -> bool {
    match order {
        Order::Run {
            serial,
            stats,
            json,
            script,
            recording,
        } => {
            [*serial, *stats, *json] == options
                && script.as_str() == "a"
                && recording.as_str() == "b"
        }
        _ => false,
    }
}

#[test]
fn options_stand_anywhere(rt: HostRuntime) -> Result<(), Fail> {
    for (texts, serial, stats, json) in &RUNS {
        let order = order_of(rt.alloc(), texts)?;
        assert!(rt; is_run(&order, [*serial, *stats, *json]), "{texts:?}");
    }
    Ok(())
}

/// Commands over any two words.
const FILES: [[&str; 3]; 8] = [
    ["check", "s.bt", "r.bin"],
    ["code", "s.bt", "r.bin"],
    ["check", "a-b", "a--serial"],
    ["code", "same", "same"],
    ["check", "help", "check"],
    ["code", "\u{2212}-serial", "=\n x"],
    ["vet", "s.bt", "r.bin"],
    ["vet", "vet", "a-b"],
];

/// Whether an order is this command over these two files.
fn is_over(order: &Order, texts: &[&str; 3]) -> bool {
    let (command, script, recording) = match order {
        Order::Check { script, recording } => ("check", script, recording),
        Order::Code { script, recording } => ("code", script, recording),
        Order::Vet { script, recording } => ("vet", script, recording),
        _ => return false,
    };
    command == texts[0] && script.as_str() == texts[1] && recording.as_str() == texts[2]
}

#[test]
fn files_are_any_words(rt: HostRuntime) -> Result<(), Fail> {
    for texts in &FILES {
        let order = order_of(rt.alloc(), texts)?;
        assert!(rt; is_over(&order, texts), "{texts:?}");
    }
    Ok(())
}

/// Arrangements of `--serial` and two operands behind `account`, with whether it stands in them.
const ACCOUNTS: [(&[&str], bool); 4] = [
    (&["account", "a", "b"], false),
    (&["account", "--serial", "a", "b"], true),
    (&["account", "a", "--serial", "b"], true),
    (&["account", "a", "b", "--serial"], true),
];

/// Whether an order is an account of `a` over `b`, on one thread or not.
fn is_account(order: &Order, is_serial: bool) -> bool {
    match order {
        Order::Account {
            serial,
            script,
            recording,
        } => *serial == is_serial && script.as_str() == "a" && recording.as_str() == "b",
        _ => false,
    }
}

#[test]
fn accounts_are_serial_or_not(rt: HostRuntime) -> Result<(), Fail> {
    for (texts, is_serial) in &ACCOUNTS {
        let order = order_of(rt.alloc(), texts)?;
        assert!(rt; is_account(&order, *is_serial), "{texts:?}");
    }
    Ok(())
}

/// Accounts that are to be checked, over any three words.
const VERIFIED: [[&str; 4]; 3] = [
    ["verify", "s.bt", "r.bin", "a.bin"],
    ["verify", "same", "same", "same"],
    ["verify", "verify", "a--serial", "account"],
];

/// Whether an order is to check an account, over these three files.
fn is_verified(order: &Order, texts: &[&str; 4]) -> bool {
    match order {
        Order::Verify {
            script,
            recording,
            account,
        } => {
            script.as_str() == texts[1]
                && recording.as_str() == texts[2]
                && account.as_str() == texts[3]
        }
        _ => false,
    }
}

#[test]
fn three_files_are_verified(rt: HostRuntime) -> Result<(), Fail> {
    for texts in &VERIFIED {
        let order = order_of(rt.alloc(), texts)?;
        assert!(rt; is_verified(&order, texts), "{texts:?}");
    }
    Ok(())
}

/// Commands with two numbers.
const NUMBERS: [([&str; 3], u32, u32); 4] = [
    (
        ["gen", "2147483647", "0001048576"],
        2_147_483_647,
        1_048_576,
    ),
    (["big", "2147483647", "1048576"], 2_147_483_647, 1_048_576),
    (["gen", "0", "0000000000"], 0, 0),
    (["big", "0000000010", "7"], 10, 7),
];

/// The command of an order with two numbers, and these.
fn numbers_of(order: &Order) -> Option<(&'static str, u32, u32)> {
    match order {
        Order::Gen { x, n } => Some(("gen", *x, *n)),
        Order::Big { x, n } => Some(("big", *x, *n)),
        _ => None,
    }
}

#[test]
fn numbers_reach_their_limits(rt: HostRuntime) -> Result<(), Fail> {
    for (texts, first, second) in &NUMBERS {
        let order = order_of(rt.alloc(), texts)?;
        assert_eq!(rt; numbers_of(&order), Some((texts[0], *first, *second)));
    }
    Ok(())
}

/// Words that break the rule.
const REFUSED: [&[&str]; 74] = [
    &[],
    &[""],
    &["help"],
    &["--help"],
    &["Run", "a", "b"],
    &["", "a", "b"],
    &["a", "b"],
    // too few and too many operands
    &["run"],
    &["run", "a"],
    &["run", "--serial", "--stats"],
    &["run", "a", "--serial"],
    &["run", "a", "b", "c"],
    &["check", "a"],
    &["code", "a", "b", "c"],
    &["vet", "a"],
    &["vet", "a", "b", "c"],
    &["account", "a"],
    &["account", "--serial", "a"],
    &["account", "a", "b", "c"],
    &["verify", "a"],
    &["verify", "a", "b"],
    &["verify", "a", "b", "c", "d"],
    &["gen", "1"],
    &["big", "1", "2", "3"],
    // options that are none
    &["run", "--", "a", "b"],
    &["run", "a", "b", "--"],
    &["run", "-h", "a", "b"],
    &["run", "a", "b", "--help"],
    &["run", "a", "b", "-V"],
    &["run", "--serial=1", "a", "b"],
    &["run", "--serial=", "a", "b"],
    &["run", "--seri", "a", "b"],
    &["run", "--json=1", "a", "b"],
    &["run", "--JSON", "a", "b"],
    &["run", "--json", "a"],
    &["run", "-", "a"],
    &["run", "-", "a", "b"],
    &["run", "a", "-b"],
    &["account", "a", "-b"],
    &["account", "--account", "a", "b"],
    &["verify", "a", "b", "-c"],
    // options that come twice, or at another command
    &["run", "--serial", "--serial", "a", "b"],
    &["run", "--stats", "a", "b", "--stats"],
    &["run", "--serial", "a", "--stats", "b", "--serial"],
    &["run", "--json", "--json", "a", "b"],
    &["run", "--json", "a", "--serial", "b", "--json"],
    &["account", "--serial", "--serial", "a", "b"],
    &["account", "--serial", "a", "b", "--serial"],
    &["account", "--stats", "a", "b"],
    &["account", "a", "b", "--json"],
    &["account", "--serial", "a", "--stats", "b"],
    &["verify", "--serial", "a", "b", "c"],
    &["verify", "a", "b", "c", "--stats"],
    &["verify", "a", "--json", "b", "c"],
    &["verify", "--serial", "a", "b"],
    &["check", "--serial", "a", "b"],
    &["code", "a", "b", "--stats"],
    &["gen", "--stats", "1", "2"],
    &["vet", "--serial", "a", "b"],
    &["vet", "a", "b", "--json"],
    &["check", "--json", "a", "b"],
    &["big", "1", "2", "--json"],
    // empty words
    &["run", "", "a", "b"],
    &["run", "a", ""],
    &["check", "a", "b", ""],
    &["vet", "", "b"],
    &["account", "a", ""],
    &["verify", "a", "b", ""],
    // numbers
    &["gen", "2147483648", "1"],
    &["gen", "1", "1048577"],
    &["big", "1", "00000000001"],
    &["big", "00000000001", "1"],
    &["big", "+1", "1"],
    &["gen", "0x1", "1"],
];

#[test]
fn other_words_are_refused(rt: HostRuntime) {
    for texts in &REFUSED {
        let order = order_of(rt.alloc(), texts);
        assert!(rt; matches!(order, Err(WordsError::Usage)), "{texts:?}");
    }
}
