// The text of the script.

/// The script of the command `big`: it counts the calls of each program, draws a histogram of their numbers, and adds them.
pub const SCRIPT: [u8; 104] =
    *b"tracepoint:raw_syscalls:sys_enter { @calls[comm] = count(); @ids = hist(args.id); @sum = sum(args.id); }";
