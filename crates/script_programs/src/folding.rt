// Lowered bodies without operators and branches on literals.
ghost use Rattle.std.specs.Prelude.{IfOk};
ghost use Rattle.std.specs.List.{AllZip};
ghost use Rattle.ir_fold.specs.Folded.{IsFoldOf};

use bt_core::items::Items;
use bt_core::memory::Memory;
use ir_code::probe::IrProbe;
use ir_fold::fold::fold;
use std::alloc::Global;

/// Folds each body.
pub fn fold_all(alloc: Global, probes: Items<IrProbe>) -> Result<Items<IrProbe>, Memory>
    ensures { IfOk result (λ folded. AllZip IsFoldOf probes folded) }
{
    let mut folded = Items::new(alloc);
    for probe in probes.into_vec() {
        folded.push(fold(alloc, probe)?)?;
    }
    Ok(folded)
}
