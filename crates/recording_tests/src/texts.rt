// Format texts of Linux, with the fields that their lines describe.
use event_layout::field::FieldKind;

/// What is wanted of a field: its name, offset, size, sign and kind.
pub type Wanted<'a> = (&'a [u8], u32, u32, bool, FieldKind);

/// The first fields of each event of Linux.
pub const COMMON: [Wanted<'static>; 4] = [
    (b"common_type", 0, 2, false, FieldKind::Number),
    (b"common_flags", 2, 1, false, FieldKind::Number),
    (b"common_preempt_count", 3, 1, false, FieldKind::Number),
    (b"common_pid", 4, 4, true, FieldKind::Number),
];

/// The entry of a system call, of 414 bytes.
pub const SYS_ENTER: &[u8] = b"name: sys_enter\n\
ID: 21\n\
format:\n\
\tfield:unsigned short common_type;\toffset:0;\tsize:2;\tsigned:0;\n\
\tfield:unsigned char common_flags;\toffset:2;\tsize:1;\tsigned:0;\n\
\tfield:unsigned char common_preempt_count;\toffset:3;\tsize:1;\tsigned:0;\n\
\tfield:int common_pid;\toffset:4;\tsize:4;\tsigned:1;\n\
\n\
\tfield:long id;\toffset:8;\tsize:8;\tsigned:1;\n\
\tfield:unsigned long args[6];\toffset:16;\tsize:48;\tsigned:0;\n\
\n\
print fmt: \"NR %ld\", REC->id\n";

/// The text of `sys_enter` on a Linux 6.18.
pub const RAW_SYS_ENTER: &[u8] = b"name: sys_enter\n\
ID: 443\n\
format:\n\
\tfield:unsigned short common_type;\toffset:0;\tsize:2;\tsigned:0;\n\
\tfield:unsigned char common_flags;\toffset:2;\tsize:1;\tsigned:0;\n\
\tfield:unsigned char common_preempt_count;\toffset:3;\tsize:1;\tsigned:0;\n\
\tfield:int common_pid;\toffset:4;\tsize:4;\tsigned:1;\n\
\n\
\tfield:long id;\toffset:8;\tsize:8;\tsigned:1;\n\
\tfield:unsigned long args[6];\toffset:16;\tsize:48;\tsigned:0;\n\
\n\
print fmt: \"NR %ld (%lx, %lx, %lx, %lx, %lx, %lx)\", REC->id, REC->args[0], REC->args[1], REC->args[2], REC->\
args[3], REC->args[4], REC->args[5]\n";

/// The text of `sched_switch`.
pub const SCHED_SWITCH: &[u8] = b"name: sched_switch\n\
ID: 372\n\
format:\n\
\tfield:unsigned short common_type;\toffset:0;\tsize:2;\tsigned:0;\n\
\tfield:unsigned char common_flags;\toffset:2;\tsize:1;\tsigned:0;\n\
\tfield:unsigned char common_preempt_count;\toffset:3;\tsize:1;\tsigned:0;\n\
\tfield:int common_pid;\toffset:4;\tsize:4;\tsigned:1;\n\
\n\
\tfield:char prev_comm[16];\toffset:8;\tsize:16;\tsigned:0;\n\
\tfield:pid_t prev_pid;\toffset:24;\tsize:4;\tsigned:1;\n\
\tfield:int prev_prio;\toffset:28;\tsize:4;\tsigned:1;\n\
\tfield:long prev_state;\toffset:32;\tsize:8;\tsigned:1;\n\
\tfield:char next_comm[16];\toffset:40;\tsize:16;\tsigned:0;\n\
\tfield:pid_t next_pid;\toffset:56;\tsize:4;\tsigned:1;\n\
\tfield:int next_prio;\toffset:60;\tsize:4;\tsigned:1;\n\
\n\
print fmt: \"prev_comm=%s prev_pid=%d prev_prio=%d prev_state=%s%s ==> next_comm=%s next_pid=%d next_prio=%d\"\
, REC->prev_comm, REC->prev_pid, REC->prev_prio, (REC->prev_state & ((((0x00000000 | 0x00000001 | 0x00000002 | \
0x00000004 | 0x00000008 | 0x00000010 | 0x00000020 | 0x00000040) + 1) << 1) - 1)) ? __print_flags(REC->prev_sta\
te & ((((0x00000000 | 0x00000001 | 0x00000002 | 0x00000004 | 0x00000008 | 0x00000010 | 0x00000020 | 0x00000040\
) + 1) << 1) - 1), \"|\", { 0x00000001, \"S\" }, { 0x00000002, \"D\" }, { 0x00000004, \"T\" }, { 0x00000008, \"\
t\" }, { 0x00000010, \"X\" }, { 0x00000020, \"Z\" }, { 0x00000040, \"P\" }, { 0x00000080, \"I\" }) : \"R\", RE\
C->prev_state & (((0x00000000 | 0x00000001 | 0x00000002 | 0x00000004 | 0x00000008 | 0x00000010 | 0x00000020 | \
0x00000040) + 1) << 1) ? \"+\" : \"\", REC->next_comm, REC->next_pid, REC->next_prio\n";

/// The text of `block_rq_issue`.
pub const BLOCK_RQ_ISSUE: &[u8] = b"name: block_rq_issue\n\
ID: 2104\n\
format:\n\
\tfield:unsigned short common_type;\toffset:0;\tsize:2;\tsigned:0;\n\
\tfield:unsigned char common_flags;\toffset:2;\tsize:1;\tsigned:0;\n\
\tfield:unsigned char common_preempt_count;\toffset:3;\tsize:1;\tsigned:0;\n\
\tfield:int common_pid;\toffset:4;\tsize:4;\tsigned:1;\n\
\n\
\tfield:dev_t dev;\toffset:8;\tsize:4;\tsigned:0;\n\
\tfield:sector_t sector;\toffset:16;\tsize:8;\tsigned:0;\n\
\tfield:unsigned int nr_sector;\toffset:24;\tsize:4;\tsigned:0;\n\
\tfield:unsigned int bytes;\toffset:28;\tsize:4;\tsigned:0;\n\
\tfield:unsigned short ioprio;\toffset:32;\tsize:2;\tsigned:0;\n\
\tfield:char rwbs[10];\toffset:34;\tsize:10;\tsigned:0;\n\
\tfield:char comm[16];\toffset:44;\tsize:16;\tsigned:0;\n\
\tfield:__data_loc char[] cmd;\toffset:60;\tsize:4;\tsigned:0;\n\
\n\
print fmt: \"%d,%d %s %u (%s) %llu + %u %s,%u,%u [%s]\", ((unsigned int) ((REC->dev) >> 20)), ((unsigned int) \
((REC->dev) & ((1U << 20) - 1))), REC->rwbs, REC->bytes, __get_str(cmd), (unsigned long long)REC->sector, REC-\
>nr_sector, __print_symbolic((((REC->ioprio) >> 13) & (8 - 1)), { IOPRIO_CLASS_NONE, \"none\" }, { IOPRIO_CLAS\
S_RT, \"rt\" }, { IOPRIO_CLASS_BE, \"be\" }, { IOPRIO_CLASS_IDLE, \"idle\" }, { IOPRIO_CLASS_INVALID, \"invali\
d\"}), (((REC->ioprio) >> 3) & ((1 << 10) - 1)), ((REC->ioprio) & ((1 << 3) - 1)), REC->comm\n";

/// The text of `dma_map_sg`.
pub const DMA_MAP_SG: &[u8] = b"name: dma_map_sg\n\
ID: 431\n\
format:\n\
\tfield:unsigned short common_type;\toffset:0;\tsize:2;\tsigned:0;\n\
\tfield:unsigned char common_flags;\toffset:2;\tsize:1;\tsigned:0;\n\
\tfield:unsigned char common_preempt_count;\toffset:3;\tsize:1;\tsigned:0;\n\
\tfield:int common_pid;\toffset:4;\tsize:4;\tsigned:1;\n\
\n\
\tfield:__data_loc char[] device;\toffset:8;\tsize:4;\tsigned:0;\n\
\tfield:int full_nents;\toffset:12;\tsize:4;\tsigned:1;\n\
\tfield:int full_ents;\toffset:16;\tsize:4;\tsigned:1;\n\
\tfield:bool truncated;\toffset:20;\tsize:1;\tsigned:0;\n\
\tfield:__data_loc u64[] phys_addrs;\toffset:24;\tsize:4;\tsigned:0;\n\
\tfield:__data_loc u64[] dma_addrs;\toffset:28;\tsize:4;\tsigned:0;\n\
\tfield:__data_loc unsigned int[] lengths;\toffset:32;\tsize:4;\tsigned:0;\n\
\tfield:enum dma_data_direction dir;\toffset:36;\tsize:4;\tsigned:0;\n\
\tfield:unsigned long attrs;\toffset:40;\tsize:8;\tsigned:0;\n\
\n\
print fmt: \"%s dir=%s nents=%d/%d ents=%d/%d%s dma_addrs=%s sizes=%s phys_addrs=%s attrs=%s\", __get_str(devi\
ce), __print_symbolic(REC->dir, { 0, \"BIDIRECTIONAL\" }, { 1, \"TO_DEVICE\" }, { 2, \"FROM_DEVICE\" }, { 3, \"\
NONE\" }), ({ int __UNIQUE_ID_x_921 = (REC->full_nents); int __UNIQUE_ID_y_922 = (128); ((__UNIQUE_ID_x_921) < \
(__UNIQUE_ID_y_922) ? (__UNIQUE_ID_x_921) : (__UNIQUE_ID_y_922)); }), REC->full_nents, ({ int __UNIQUE_ID_x_92\
3 = (REC->full_ents); int __UNIQUE_ID_y_924 = (128); ((__UNIQUE_ID_x_923) < (__UNIQUE_ID_y_924) ? (__UNIQUE_ID\
_x_923) : (__UNIQUE_ID_y_924)); }), REC->full_ents, REC->truncated ? \" [TRUNCATED]\" : \"\", __print_array(__\
get_dynamic_array(dma_addrs), __get_dynamic_array_len(dma_addrs) / sizeof(u64), sizeof(u64)), __print_array(__\
get_dynamic_array(lengths), __get_dynamic_array_len(lengths) / sizeof(unsigned int), sizeof(unsigned int)), __\
print_array(__get_dynamic_array(phys_addrs), __get_dynamic_array_len(phys_addrs) / sizeof(u64), sizeof(u64)), \
__print_flags(REC->attrs, \"|\", { (1UL << 1), \"WEAK_ORDERING\" }, { (1UL << 2), \"WRITE_COMBINE\" }, { (1UL \
<< 4), \"NO_KERNEL_MAPPING\" }, { (1UL << 5), \"SKIP_CPU_SYNC\" }, { (1UL << 6), \"FORCE_CONTIGUOUS\" }, { (1U\
L << 7), \"ALLOC_SINGLE_PAGES\" }, { (1UL << 8), \"NO_WARN\" }, { (1UL << 9), \"PRIVILEGED\" }, { (1UL << 10), \
\"MMIO\" }, { (1UL << 11), \"CACHE_CLEAN\" })\n";

/// The text of `irq_handler_entry`.
pub const IRQ_HANDLER_ENTRY: &[u8] = b"name: irq_handler_entry\n\
ID: 225\n\
format:\n\
\tfield:unsigned short common_type;\toffset:0;\tsize:2;\tsigned:0;\n\
\tfield:unsigned char common_flags;\toffset:2;\tsize:1;\tsigned:0;\n\
\tfield:unsigned char common_preempt_count;\toffset:3;\tsize:1;\tsigned:0;\n\
\tfield:int common_pid;\toffset:4;\tsize:4;\tsigned:1;\n\
\n\
\tfield:int irq;\toffset:8;\tsize:4;\tsigned:1;\n\
\tfield:__data_loc char[] name;\toffset:12;\tsize:4;\tsigned:0;\n\
\n\
print fmt: \"irq=%d name=%s\", REC->irq, __get_str(name)\n";

/// The text of `net_dev_queue`.
pub const NET_DEV_QUEUE: &[u8] = b"name: net_dev_queue\n\
ID: 2304\n\
format:\n\
\tfield:unsigned short common_type;\toffset:0;\tsize:2;\tsigned:0;\n\
\tfield:unsigned char common_flags;\toffset:2;\tsize:1;\tsigned:0;\n\
\tfield:unsigned char common_preempt_count;\toffset:3;\tsize:1;\tsigned:0;\n\
\tfield:int common_pid;\toffset:4;\tsize:4;\tsigned:1;\n\
\n\
\tfield:void * skbaddr;\toffset:8;\tsize:8;\tsigned:0;\n\
\tfield:unsigned int len;\toffset:16;\tsize:4;\tsigned:0;\n\
\tfield:__data_loc char[] name;\toffset:20;\tsize:4;\tsigned:0;\n\
\n\
print fmt: \"dev=%s skbaddr=%p len=%u\", __get_str(name), REC->skbaddr, REC->len\n";

/// The text of `sched_process_exec`.
pub const SCHED_PROCESS_EXEC: &[u8] = b"name: sched_process_exec\n\
ID: 365\n\
format:\n\
\tfield:unsigned short common_type;\toffset:0;\tsize:2;\tsigned:0;\n\
\tfield:unsigned char common_flags;\toffset:2;\tsize:1;\tsigned:0;\n\
\tfield:unsigned char common_preempt_count;\toffset:3;\tsize:1;\tsigned:0;\n\
\tfield:int common_pid;\toffset:4;\tsize:4;\tsigned:1;\n\
\n\
\tfield:__data_loc char[] filename;\toffset:8;\tsize:4;\tsigned:0;\n\
\tfield:pid_t pid;\toffset:12;\tsize:4;\tsigned:1;\n\
\tfield:pid_t old_pid;\toffset:16;\tsize:4;\tsigned:1;\n\
\n\
print fmt: \"filename=%s pid=%d old_pid=%d\", __get_str(filename), REC->pid, REC->old_pid\n";

/// The text of `sys_enter_openat`.
pub const SYS_ENTER_OPENAT: &[u8] = b"name: sys_enter_openat\n\
ID: 782\n\
format:\n\
\tfield:unsigned short common_type;\toffset:0;\tsize:2;\tsigned:0;\n\
\tfield:unsigned char common_flags;\toffset:2;\tsize:1;\tsigned:0;\n\
\tfield:unsigned char common_preempt_count;\toffset:3;\tsize:1;\tsigned:0;\n\
\tfield:int common_pid;\toffset:4;\tsize:4;\tsigned:1;\n\
\n\
\tfield:int __syscall_nr;\toffset:8;\tsize:4;\tsigned:1;\n\
\tfield:int dfd;\toffset:16;\tsize:8;\tsigned:0;\n\
\tfield:const char * filename;\toffset:24;\tsize:8;\tsigned:0;\n\
\tfield:int flags;\toffset:32;\tsize:8;\tsigned:0;\n\
\tfield:umode_t mode;\toffset:40;\tsize:8;\tsigned:0;\n\
\n\
print fmt: \"dfd: 0x%08lx, filename: 0x%08lx, flags: 0x%08lx, mode: 0x%08lx\", ((unsigned long)(REC->dfd)), ((\
unsigned long)(REC->filename)), ((unsigned long)(REC->flags)), ((unsigned long)(REC->mode))\n";

/// The text of `sys_exit_read`.
pub const SYS_EXIT_READ: &[u8] = b"name: sys_exit_read\n\
ID: 841\n\
format:\n\
\tfield:unsigned short common_type;\toffset:0;\tsize:2;\tsigned:0;\n\
\tfield:unsigned char common_flags;\toffset:2;\tsize:1;\tsigned:0;\n\
\tfield:unsigned char common_preempt_count;\toffset:3;\tsize:1;\tsigned:0;\n\
\tfield:int common_pid;\toffset:4;\tsize:4;\tsigned:1;\n\
\n\
\tfield:int __syscall_nr;\toffset:8;\tsize:4;\tsigned:1;\n\
\tfield:long ret;\toffset:16;\tsize:8;\tsigned:1;\n\
\n\
print fmt: \"0x%lx\", REC->ret\n";

/// Its fields behind the common ones.
pub const SYS_ENTER_FIELDS: [Wanted<'static>; 2] = [
    (b"id", 8, 8, true, FieldKind::Number),
    (b"args", 16, 48, false, FieldKind::Other),
];

/// Its fields behind the common ones.
pub const SCHED_SWITCH_FIELDS: [Wanted<'static>; 7] = [
    (b"prev_comm", 8, 16, false, FieldKind::Chars),
    (b"prev_pid", 24, 4, true, FieldKind::Number),
    (b"prev_prio", 28, 4, true, FieldKind::Number),
    (b"prev_state", 32, 8, true, FieldKind::Number),
    (b"next_comm", 40, 16, false, FieldKind::Chars),
    (b"next_pid", 56, 4, true, FieldKind::Number),
    (b"next_prio", 60, 4, true, FieldKind::Number),
];

/// Its fields behind the common ones.
pub const BLOCK_RQ_ISSUE_FIELDS: [Wanted<'static>; 8] = [
    (b"dev", 8, 4, false, FieldKind::Number),
    (b"sector", 16, 8, false, FieldKind::Number),
    (b"nr_sector", 24, 4, false, FieldKind::Number),
    (b"bytes", 28, 4, false, FieldKind::Number),
    (b"ioprio", 32, 2, false, FieldKind::Number),
    (b"rwbs", 34, 10, false, FieldKind::Chars),
    (b"comm", 44, 16, false, FieldKind::Chars),
    (b"cmd", 60, 4, false, FieldKind::DataLoc),
];

/// Its fields behind the common ones.
pub const DMA_MAP_SG_FIELDS: [Wanted<'static>; 9] = [
    (b"device", 8, 4, false, FieldKind::DataLoc),
    (b"full_nents", 12, 4, true, FieldKind::Number),
    (b"full_ents", 16, 4, true, FieldKind::Number),
    (b"truncated", 20, 1, false, FieldKind::Number),
    (b"phys_addrs", 24, 4, false, FieldKind::Other),
    (b"dma_addrs", 28, 4, false, FieldKind::Other),
    (b"lengths", 32, 4, false, FieldKind::Other),
    (b"dir", 36, 4, false, FieldKind::Number),
    (b"attrs", 40, 8, false, FieldKind::Number),
];

/// Its fields behind the common ones.
pub const IRQ_HANDLER_ENTRY_FIELDS: [Wanted<'static>; 2] = [
    (b"irq", 8, 4, true, FieldKind::Number),
    (b"name", 12, 4, false, FieldKind::DataLoc),
];

/// Its fields behind the common ones.
pub const NET_DEV_QUEUE_FIELDS: [Wanted<'static>; 3] = [
    (b"skbaddr", 8, 8, false, FieldKind::Number),
    (b"len", 16, 4, false, FieldKind::Number),
    (b"name", 20, 4, false, FieldKind::DataLoc),
];

/// Its fields behind the common ones.
pub const SCHED_PROCESS_EXEC_FIELDS: [Wanted<'static>; 3] = [
    (b"filename", 8, 4, false, FieldKind::DataLoc),
    (b"pid", 12, 4, true, FieldKind::Number),
    (b"old_pid", 16, 4, true, FieldKind::Number),
];

/// Its fields behind the common ones.
pub const SYS_ENTER_OPENAT_FIELDS: [Wanted<'static>; 5] = [
    (b"__syscall_nr", 8, 4, true, FieldKind::Number),
    (b"dfd", 16, 8, false, FieldKind::Number),
    (b"filename", 24, 8, false, FieldKind::Number),
    (b"flags", 32, 8, false, FieldKind::Number),
    (b"mode", 40, 8, false, FieldKind::Number),
];

/// Its fields behind the common ones.
pub const SYS_EXIT_READ_FIELDS: [Wanted<'static>; 2] = [
    (b"__syscall_nr", 8, 4, true, FieldKind::Number),
    (b"ret", 16, 8, true, FieldKind::Number),
];
