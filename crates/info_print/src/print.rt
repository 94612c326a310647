//! Annotations as text.
ghost use Rattle.std.specs.Prelude.{◌≡◌, ◌++◌, IfOk, OnOk};
ghost use Rattle.info_read.specs.Texts.{IsInfoText};
ghost use Rattle.info_print.specs.Canonical.{info_text};
ghost use Rattle.info_print.specs.ReadsBack.{HasInfoText};

use crate::lines::{write_blocks, write_head, write_ties, write_visols};
use emp_ast::annot::Annot;
use emp_ast::model::Model;
use emp_list::memory::NoMemory;
use std::alloc::{AllocError, Global};

/// Writes the text of an annotation behind what is written.
#[tactic(auto, using(crate::proofs::Flat::flat))]
fn write_info(out: &mut Vec<u8>, model: &Model, annot: &Annot) -> Result<(), AllocError>
    ensures { OnOk result (out.new.items ≡ out.old.items ++ info_text model.now annot.now) }
{
    write_head(out, model, annot)?;
    write_blocks(out, model, annot.blocks.as_slice())?;
    write_ties(out, b"dualvar", model, annot.duals.as_slice())?;
    write_visols(out, model, annot.visols.as_slice())?;
    write_ties(out, b"implicit", model, annot.implicits.as_slice())
}

/// The canonical text of an annotation of the model, as `specs/Canonical.antt` defines it. It stands for the same
/// annotation.
///
/// A number that no variable or equation of the model has is printed as an empty name.
pub fn print_info(alloc: Global, model: &Model, annot: &Annot) -> Result<Vec<u8>, NoMemory>
    ensures canonical { IfOk result (λ v. v.items ≡ info_text model.now annot.now) }
    ensures reads_back { HasInfoText model.now annot.now → IfOk result (λ v. IsInfoText v.items model.now annot.now) }
{
    let mut out = Vec::new(alloc);
    write_info(&mut out, model, annot)?;
    Ok(out)
}
