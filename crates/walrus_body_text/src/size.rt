//! The size of a body.

ghost use Rattle.std.specs.Prelude.{◌≡◌, IfOk, IfErr, OnOk};
ghost use Rattle.walrus_tree.specs.walrus_builder.Functions.{seqs_of};
ghost use Rattle.walrus_tree.specs.Text.{operators};
ghost use Rattle.walrus_tree.specs.Trees.{IsTree};
ghost use Rattle.walrus_body_text.specs.Walking.{IsCause};
ghost use Rattle.walrus_body_text.specs.Visiting.{text_size};

use crate::todo::Closer;
use crate::visit::{TextVisitor, visit_once};
use std::alloc::{AllocError, Global};
use walrus_body_env::BodyError;
use walrus_tree::builder::FunctionBuilder;
use walrus_tree::instr::{Instr, InstrLocId};

// Counts operators.
#[derive(Drop)]
struct Size {
    count: u64,
}

impl TextVisitor for Size {
    ghost use Rattle.std.specs.Prelude.{◌≡◌, ◌+◌};
    ghost use Rattle.walrus_body_text.specs.Visiting.{weight};

    ghost step = { λ old piece new. new.count ≡ old.count + weight piece.0 };

    ghost same = { λ old new. new ≡ old };

    fn instr(&mut self, _instr: &Instr, _place: InstrLocId) -> Result<(), AllocError> {
        let Some(count) = self.count.checked_add(1) else {
            return Err(AllocError);
        };
        self.count = count;
        Ok(())
    }

    fn end(&mut self, _closer: Closer, _place: InstrLocId) -> Result<(), AllocError> {
        Ok(())
    }
}

/// The size of a body: the number of its operators other than `else`, `end`, `catch`, `catch_all` and `delegate`.
///
/// # Errors
///
/// `NoTree` exactly where the sequences that the body's own reaches form no tree in which each label names a sequence around it; else
/// want of memory alone.
pub fn body_size(alloc: Global, body: &FunctionBuilder) -> Result<u64, BodyError>
    ensures tree { OnOk result (IsTree (seqs_of body.now) 0) }
    ensures counted { IfOk result (λ size. size ≡ text_size (operators (seqs_of body.now) 0)) }
    ensures refused { IfErr result (IsCause (seqs_of body.now)) }
{
    let mut size = Size { count: 0 };
    visit_once(alloc, &mut size, body)?;
    Ok(size.count)
}
