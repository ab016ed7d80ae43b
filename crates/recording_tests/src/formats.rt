// The layouts of format texts.
use crate::texts::*;
use event_layout::field::FieldKind;
use std::test::Fail;
use tracefs_format::reading::read_layout;

/// A text, with the name, the ID and the size that it has, and its fields in their order: common ones and those behind them.
type Row = (
    &'static [u8],
    &'static [u8],
    u16,
    u32,
    &'static [Wanted<'static>],
    &'static [Wanted<'static>],
);

/// Texts of Linux, and others that the rules let pass.
const TEXTS: [Row; 14] = [
    (SYS_ENTER, b"sys_enter", 21, 64, &COMMON, &SYS_ENTER_FIELDS),
    (
        RAW_SYS_ENTER,
        b"sys_enter",
        443,
        64,
        &COMMON,
        &SYS_ENTER_FIELDS,
    ),
    (
        SCHED_SWITCH,
        b"sched_switch",
        372,
        64,
        &COMMON,
        &SCHED_SWITCH_FIELDS,
    ),
    (
        BLOCK_RQ_ISSUE,
        b"block_rq_issue",
        2104,
        64,
        &COMMON,
        &BLOCK_RQ_ISSUE_FIELDS,
    ),
    (
        DMA_MAP_SG,
        b"dma_map_sg",
        431,
        48,
        &COMMON,
        &DMA_MAP_SG_FIELDS,
    ),
    (
        IRQ_HANDLER_ENTRY,
        b"irq_handler_entry",
        225,
        16,
        &COMMON,
        &IRQ_HANDLER_ENTRY_FIELDS,
    ),
    (
        NET_DEV_QUEUE,
        b"net_dev_queue",
        2304,
        24,
        &COMMON,
        &NET_DEV_QUEUE_FIELDS,
    ),
    (
        SCHED_PROCESS_EXEC,
        b"sched_process_exec",
        365,
        20,
        &COMMON,
        &SCHED_PROCESS_EXEC_FIELDS,
    ),
    (
        SYS_ENTER_OPENAT,
        b"sys_enter_openat",
        782,
        48,
        &COMMON,
        &SYS_ENTER_OPENAT_FIELDS,
    ),
    (
        SYS_EXIT_READ,
        b"sys_exit_read",
        841,
        24,
        &COMMON,
        &SYS_EXIT_READ_FIELDS,
    ),
    (b"name:x\nID:007\nformat:", b"x", 7, 0, &[], &[]),
    (
        b"name: x \t\r\r\nID:\t65535\r\nformat: \r\nfield:char a;offset:4095;size:1;signed:0;",
        b"x",
        65_535,
        4_096,
        &[],
        &[(b"a", 4_095, 1, false, FieldKind::Number)],
    ),
    (
        b"name: x\nID: 7\nformat:\n\
 \t field: int\tb ; offset: 0004\t;size:4;signed: 1 ; \r\nfield:;offset:0;size:0;signed:0;\nfield:;offset:0;size:0;signed:0;\n\
print fmt: read no more\nfield\n",
        b"x",
        7,
        8,
        &[],
        &[
            (b"b", 4, 4, true, FieldKind::Number),
            (b"", 0, 0, false, FieldKind::Other),
            (b"", 0, 0, false, FieldKind::Other),
        ],
    ),
    (
        b"name: x\nID: 7\nformat:\n\
field:const char * a;offset:0;size:8;signed:0;\n\
field:const char b[8];offset:0;size:8;signed:0;\n\
field:char *c[1];offset:0;size:8;signed:0;\n\
field:unsigned char d[8];offset:0;size:8;signed:0;\n\
field:char e [4];offset:0;size:4;signed:0;\n\
field:char f[4][8];offset:0;size:32;signed:0;\n\
field:int g];offset:0;size:4;signed:0;\n\
field:__rel_loc char[] h;offset:0;size:4;signed:0;\n\
field:__data_loc char[] i;offset:0;size:8;signed:0;\n\
field:__data_loc chars[] j;offset:0;size:4;signed:0;\n\
field:struct k k_1;offset:0;size:3;signed:0;\n",
        b"x",
        7,
        32,
        &[],
        &[
            (b"a", 0, 8, false, FieldKind::Number),
            (b"b", 0, 8, false, FieldKind::Chars),
            (b"c", 0, 8, false, FieldKind::Other),
            (b"d", 0, 8, false, FieldKind::Other),
            (b"", 0, 4, false, FieldKind::Other),
            (b"", 0, 32, false, FieldKind::Other),
            (b"", 0, 4, false, FieldKind::Number),
            (b"h", 0, 4, false, FieldKind::Other),
            (b"i", 0, 8, false, FieldKind::Other),
            (b"j", 0, 4, false, FieldKind::Other),
            (b"k_1", 0, 3, false, FieldKind::Other),
        ],
    ),
];

#[test]
fn texts_have_their_layouts(rt: HostRuntime) -> Result<(), Fail> {
    for (text, name, id, size, common, others) in TEXTS {
        assert!(rt; text.len() < 5_000);
        let layout = read_layout(rt.alloc(), text)?;
        assert!(rt; layout.name.as_slice() == name);
        assert!(rt; layout.id == id && layout.size == size);
        assert!(rt; layout.fields.len().checked_sub(common.len()) == Some(others.len()));
        let wanted = common.iter().chain(others);
        for (field, wanted) in layout.fields.as_slice().iter().zip(wanted) {
            let found = (
                field.name.as_slice(),
                field.offset,
                field.size,
                field.signed,
                field.kind,
            );
            assert!(rt; found == *wanted);
        }
    }
    Ok(())
}
