// The code of a body as it is made: from its end to its start.
ghost use Rattle.std.specs.Prelude.{◌≡◌, ◌+◌, ◌≤◌, ◌^◌, ◌++◌, OnOk, OnErr, IfOk, length, reverse};
ghost use Rattle.ir_code.specs.Typing.{operand_shapes, gives, front_of};
ghost use Rattle.bt_lower.specs.Code.{pushed, closed, begun, untyped, reserved, gated, patched, taken_back};

use bt_core::beside::beside;
use bt_core::ending::Ending;
use bt_core::items::Items;
use bt_core::map::Shape;
use bt_core::memory::{Memory, TryCopy, fitting};
use ir_code::blocks::{Block, Exit};
use ir_code::instr::Instr;
use std::alloc::Global;
use std::mem;

/// The blocks that are done, and the block that is open: the types on the stack at its start, its instructions, the last first,
/// its exit, and how many loops lie round it.
#[derive(Drop)]
pub struct Code {
    pub blocks: Items<Block>,
    pub stack: Items<Shape>,
    pub instrs: Items<Instr>,
    pub exit: Exit,
    pub depth: usize,
}

/// The blocks that `break` and `continue` go to.
#[derive(Clone, Copy)]
pub struct Ways {
    pub leave: usize,
    pub again: usize,
}

/// Takes so many types off a stack, and puts these there.
fn retype(alloc: Global, stack: &mut Items<Shape>, off: usize, on: &[Shape]) -> Result<(), Memory>
    ensures { OnOk result (stack.new ≡ front_of off stack.old ++ on.now) }
{
    let mut list = mem::replace(stack, Items::new(alloc)).into_vec();
    let keep = list.len().saturating_sub(off);
    list.truncate(keep);
    list.extend_from_slice(on)?;
    *stack = Items::of(list);
    Ok(())
}

/// The types on the stack before an instruction, from those after it.
fn take_back(alloc: Global, instr: &Instr, stack: &mut Items<Shape>) -> Result<(), Memory>
    ensures { OnOk result (stack.new ≡ taken_back instr.now stack.old) }
{
    match instr {
        Instr::Put(_)
        | Instr::Builtin(_)
        | Instr::Comm
        | Instr::NumberField(_)
        | Instr::TextField(_)
        | Instr::Load { .. }
        | Instr::StepVar { .. } => { retype(alloc, stack, 1, &[]) }
        Instr::Store { shape, .. } => retype(alloc, stack, 0, &[*shape]),
        Instr::UpdateVar { .. } | Instr::Pop => retype(alloc, stack, 0, &[Shape::Int]),
        Instr::Unary(_) | Instr::Truth => retype(alloc, stack, 1, &[Shape::Int]),
        Instr::Binary(_) => retype(alloc, stack, 1, &[Shape::Int, Shape::Int]),
        Instr::Compare { .. } => retype(alloc, stack, 1, &[Shape::Str, Shape::Str]),
        Instr::Get { key, .. } | Instr::ReadAgg { key, .. } | Instr::StepMap { key, .. } => retype(
            alloc,
            stack,
            1,
            key.as_slice(),
        ),
        Instr::Delete { key, .. } | Instr::Count { key, .. } => retype(
            alloc,
            stack,
            0,
            key.as_slice(),
        ),
        Instr::Printf { shapes, .. } => retype(alloc, stack, 0, shapes.as_slice()),
        Instr::Set { key, shape, .. } => {
            retype(alloc, stack, 0, key.as_slice())?;
            retype(alloc, stack, 0, &[*shape])
        }
        Instr::Update { key, .. } | Instr::Add { key, .. } => {
            retype(alloc, stack, 0, key.as_slice())?;
            retype(alloc, stack, 0, &[Shape::Int])
        }
        Instr::Print { .. } | Instr::Clear(_) | Instr::Zero(_) | Instr::Cut(_) | Instr::Stop =>
            retype(alloc, stack, 0, &[]),
    }
}

impl Code {
    /// Puts an instruction before what is open.
    pub fn push(&mut self, alloc: Global, instr: Instr) -> Result<(), Memory>
        ensures { OnOk result (self.new ≡ pushed instr self.old) }
    {
        let taken = take_back(alloc, &instr, &mut self.stack);
        match beside(instr, taken) {
            Ok((instr, ())) => self.instrs.push(instr),
            Err(error) => Err(error),
        }
    }

    /// Makes what is open a block, and answers its number. What is open then goes on to it.
    pub fn close(&mut self, alloc: Global) -> Result<usize, Memory>
        ensures closed { OnOk result (self.new ≡ closed self.old) }
        ensures number { IfOk result (λ number. number ≡ length self.old.blocks) }
    {
        let number = self.blocks.len();
        let stack = self.stack.try_copy(alloc)?;
        let instrs = mem::replace(&mut self.instrs, Items::new(alloc));
        self.blocks.push(Block {
            stack,
            instrs: turned(instrs),
            exit: self.exit,
            depth: self.depth,
        })?;
        self.exit = Exit::Goto(number);
        Ok(number)
    }

    /// Likewise, and lets the last type on the stack go.
    pub fn close_below(&mut self, alloc: Global) -> Result<usize, Memory>
        ensures closed { OnOk result (self.new ≡ untyped (closed self.old)) }
        ensures number { IfOk result (λ number. number ≡ length self.old.blocks) }
    {
        let number = self.close(alloc)?;
        self.untype();
        Ok(number)
    }

    /// Lets the last type on the stack go.
    fn untype(&mut self)
        ensures { self.new ≡ untyped self.old }
    {
        let len = self.stack.len();
        if len > 0 {
            self.stack.remove(len - 1);
        }
    }

    /// Begins another block, of which so far the exit is known, and the types that it finds on the stack above those that are
    /// there. What was open is let go.
    pub fn begin(&mut self, alloc: Global, exit: Exit, on: &[Shape]) -> Result<(), Memory>
        ensures { OnOk result (self.new ≡ begun exit on.now self.old) }
    {
        retype(alloc, &mut self.stack, 0, on)?;
        self.instrs = Items::new(alloc);
        self.exit = exit;
        Ok(())
    }

    /// Goes one loop deeper, and keeps a place for the block that will end its turns.
    pub fn reserve(&mut self, alloc: Global) -> Result<usize, Memory>
        ensures reserved { OnOk result (self.new ≡ reserved self.old) }
        ensures number { IfOk result (λ number. number ≡ length self.old.blocks) }
    {
        let number = self.blocks.len();
        let depth = deeper(self.depth)?;
        let stack = self.stack.try_copy(alloc)?;
        self.blocks.push(Block {
            stack,
            instrs: Items::new(alloc),
            exit: Exit::End(Ending::End),
            depth,
        })?;
        self.instrs = Items::new(alloc);
        self.exit = Exit::Goto(number);
        self.depth = depth;
        Ok(number)
    }

    /// Begins the gate of a loop, which lies one loop less deep than its block.
    pub fn gate(&mut self, alloc: Global, block: usize, cut: usize)
        ensures { self.new ≡ gated block cut self.old }
    {
        self.instrs = Items::new(alloc);
        self.exit = Exit::Gate { block, cut };
        self.depth = self.depth.saturating_sub(1);
    }

    /// Fills the place of the block that ends a loop's turns.
    pub fn patch(&mut self, alloc: Global, at: usize, head: usize) -> Result<(), Memory>
        ensures { OnOk result (self.new ≡ patched at head self.old) }
    {
        if at < self.blocks.len() {
            let depth = deeper(self.depth)?;
            let stack = self.stack.try_copy(alloc)?;
            self.blocks.set(
                at,
                Block {
                    stack,
                    instrs: Items::new(alloc),
                    exit: Exit::Again(head),
                    depth,
                },
            );
        }
        Ok(())
    }
}

/// The instructions in the other order.
fn turned(instrs: Items<Instr>) -> Items<Instr>
    ensures { result ≡ reverse instrs }
{
    let mut list = instrs.into_vec();
    list.reverse();
    Items::of(list)
}

/// One deeper. Loops that nest deeper than memory could hold are answered as want of it.
fn deeper(depth: usize) -> Result<usize, Memory>
    ensures deeper { IfOk result (λ deeper. deeper ≡ depth + 1) }
    ensures beyond { OnErr result (2 ^ 64 ≤ depth + 1) }
{
    fitting(depth.checked_add(1))
}
