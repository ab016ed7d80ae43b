// Scripts over three formats.
use body_fixtures::scripts::attached_over;
use bt_ast::attached::Attached;
use bt_attach::error::AttachError;
use std::alloc::Global;
use std::test::Fail;

/// A second in nanoseconds.
pub(crate) const SECOND: u64 = 1_000_000_000;

/// The formats of `t:e`, `t:f` and `u:f`.
const FORMATS: [(&[u8], &[u8]); 3] = [
    (b"t", b"name: e\nID: 1\nformat:\n"),
    (b"t", b"name: f\nID: 1\nformat:\n"),
    (b"u", b"name: f\nID: 1\nformat:\n"),
];

/// What the script of a text is attached to over these formats, or its first fault.
pub(crate) fn attached_to_three(
    alloc: Global,
    text: &[u8],
    start: u64,
    end: u64,
) -> Result<Result<Attached, AttachError>, Fail> {
    attached_over(alloc, text, &FORMATS[..], start, end)
}
