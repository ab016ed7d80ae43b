// Lowering of scripts.
ghost use Rattle.std.specs.Prelude.{◌≡◌, IfOk, map};
ghost use Rattle.fmt_text.specs.Arguments.{argument_shapes};
ghost use Rattle.typed_tree.specs.Script.{IsIn};
ghost use Rattle.bt_lower.specs.Bodies.{IsLowered, LowersScript};

use crate::body::lower_tree;
use crate::body_need::tree_need;
use bt_core::items::Items;
use bt_core::map::Shape;
use bt_core::memory::{Memory, TryCopy};
use fmt_text::arguments::argument_shapes;
use fmt_text::piece::Piece;
use ir_code::blocks::Blocks;
use ir_code::probe::IrProbe;
use std::alloc::Global;
use typed_tree::body::TypedBody;
use typed_tree::script::Typed;

/// The types of the arguments that formats want.
fn shapes_of_formats(alloc: Global, formats: &[Items<Piece>]) -> Result<Items<Items<Shape>>, Memory>
    ensures { IfOk result (λ shapes. shapes ≡ map argument_shapes formats.now) }
{
    let mut shapes = Items::new(alloc);
    for pieces in formats {
        shapes.push(argument_shapes(alloc, pieces.as_slice())?)?;
    }
    Ok(shapes)
}

/// Lowers a body of a script, with the types of the arguments of the script's formats.
fn lower_body(
    alloc: Global,
    script: &Typed,
    formats: &Items<Items<Shape>>,
    body: &TypedBody,
) -> Result<IrProbe, Memory>
    requires here { IsIn script.now.maps script.now.formats body.now }
    requires shapes { formats.now ≡ map argument_shapes script.now.formats }
    ensures { IfOk result (λ probe. IsLowered script.now.maps (map argument_shapes script.now.formats) body.now probe) }
{
    let need = tree_need(&body.tree)?;
    let list = lower_tree(alloc, &body.tree)?;
    let variables = body.tree.variables.try_copy(alloc)?;
    let maps = script.maps.try_copy(alloc)?;
    let formats = formats.try_copy(alloc)?;
    Ok(IrProbe {
        blocks: Blocks { list },
        variables,
        maps,
        formats,
        frame_need: need.frame,
        code_need: need.code,
    })
}

/// Lowers a script: a probe for each body, in their order.
///
/// The run of a probe asks the same objects for the same as the walk of its body, reply by reply, and ends as the walk does, for
/// every context, payload, actor and number of actors. Each probe carries how many bytes of frame and slots of code its body may
/// take. [`Memory`] comes only where memory ran out.
pub fn lower(alloc: Global, script: &Typed) -> Result<Items<IrProbe>, Memory>
    ensures { IfOk result (λ probes. LowersScript script.now probes) }
{
    let formats = shapes_of_formats(alloc, script.formats.as_slice())?;
    let mut probes = Items::new(alloc);
    for body in script.bodies.as_slice() {
        let probe = lower_body(alloc, script, &formats, body)?;
        probes.push(probe)?;
    }
    Ok(probes)
}
