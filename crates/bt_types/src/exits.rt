// Whether `exit()` stands in a script.
ghost use Rattle.std.specs.Prelude.{◌≡◌, ◌||◌};
ghost use Rattle.std.specs.List.{list_any};
ghost use Rattle.bt_types.specs.Exits.{block_exits, kind_exits, script_exits, stmt_exits};

use bt_ast::probe::Script;
use bt_ast::stmt::{Block, Stmt, StmtKind};

/// Whether `exit()` stands in a block.
#[cycle(exits)]
fn block_exits(block: &Block) -> bool
    ensures { result ≡ block_exits block.now }
{
    for stmt in block.stmts.as_slice() {
        if stmt_exits(stmt) {
            return true;
        }
    }
    false
}

/// Whether `exit()` stands in a statement.
#[cycle(exits)]
fn stmt_exits(stmt: &Stmt) -> bool
    ensures { result ≡ stmt_exits stmt.now }
{
    kind_exits(&stmt.kind)
}

/// Whether a statement is `exit()`, or has a block in which it stands.
#[cycle(exits)]
fn kind_exits(kind: &StmtKind) -> bool
    ensures { result ≡ kind_exits kind.now }
{
    match kind {
        StmtKind::Exit => true,
        StmtKind::If { arms, otherwise } => {
            for arm in arms.as_slice() {
                if block_exits(&arm.1) {
                    return true;
                }
            }
            match otherwise {
                None => false,
                Some(block) => block_exits(block),
            }
        }
        StmtKind::While { block, .. } => block_exits(block),
        StmtKind::Unroll { block, .. } => block_exits(block),
        StmtKind::SetAgg { .. } => false,
        StmtKind::Assign { .. } => false,
        StmtKind::Step(_) => false,
        StmtKind::Printf { .. } => false,
        StmtKind::Print { .. } => false,
        StmtKind::Clear(_) => false,
        StmtKind::Zero(_) => false,
        StmtKind::Delete(_) => false,
        StmtKind::DeleteKey { .. } => false,
        StmtKind::Break => false,
        StmtKind::Continue => false,
        StmtKind::Return => false,
    }
}

/// Whether `exit()` stands in a script.
pub(crate) fn script_exits(script: &Script) -> bool
    ensures { result ≡ script_exits script.now }
{
    for probe in script.probes.as_slice() {
        if block_exits(&probe.block) {
            return true;
        }
    }
    false
}
