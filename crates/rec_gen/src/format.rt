// The one format of a made recording.
ghost use Rattle.std.specs.Prelude.{◌≡◌, IfOk, codes};
ghost use Rattle.bt_core.specs.Want.{out_of_memory};
ghost use Rattle.event_layout.specs.Layouts.{IsLayoutOf};

use bt_core::items::Items;
use bt_core::memory::Memory;
use event_layout::error::FormatError;
use event_layout::format::Format;
use std::alloc::Global;
use tracefs_format::reading::read_layout;

/// The format of the start of a system call, as tracefs shows it.
pub const TEXT: [u8; 414] =
    *b"name: sys_enter\nID: 21\nformat:\n\tfield:unsigned short common_type;\toffset:0;\tsize:2;\tsigned:0;\n\tfield:unsigned char common_flags;\toffset:2;\tsize:1;\tsigned:0;\n\tfield:unsigned char common_preempt_count;\toffset:3;\tsize:1;\tsigned:0;\n\tfield:int common_pid;\toffset:4;\tsize:4;\tsigned:1;\n\n\tfield:long id;\toffset:8;\tsize:8;\tsigned:1;\n\tfield:unsigned long args[6];\toffset:16;\tsize:48;\tsigned:0;\n\nprint fmt: \"NR %ld\", REC->id\n";

/// The want of memory that a fault is where the text breaks no rule.
fn want_of(fault: FormatError) -> Memory
    requires { fault ≡ FormatError.Memory out_of_memory }
{
    match fault {
        FormatError::Memory(memory) => memory,
        _ => unreachable!(),
    }
}

/// The format, with the layout that its text describes.
pub fn made_format(alloc: Global) -> Result<Format, Memory>
    ensures system { IfOk result (λ f. f.system ≡ codes "raw_syscalls") }
    ensures text { IfOk result (λ f. f.text ≡ TEXT) }
    ensures layout { IfOk result (λ f. IsLayoutOf TEXT f.layout) }
{
    let layout = match read_layout(alloc, &TEXT) {
        Ok(layout) => layout,
        Err(fault) => return Err(want_of(fault)),
    };
    Ok(Format {
        system: Items::from_slice(alloc, b"raw_syscalls")?,
        text: Items::from_slice(alloc, &TEXT)?,
        layout,
    })
}
