//! Markets from a seed.
ghost use Rattle.emp_make.specs.Making.{MakeGives};

use crate::annot::market_annot;
use crate::fault::MakeFault;
use crate::model::market_model;
use emp_ast::annot::Annot;
use emp_ast::model::Model;
use std::alloc::Global;

/// The model and the annotation of the market of a seed with so many firms, as `specs/Markets.antt` says what it is.
///
/// `Firms` exactly where the firms are fewer than 2 or more than 40. No text has the model: each place in it is line 1,
/// column 1.
pub fn make(alloc: Global, seed: u64, firms: u64) -> Result<(Model, Annot), MakeFault>
    ensures { MakeGives seed firms result }
{
    if firms < 2 || firms > 40 {
        return Err(MakeFault::Firms);
    }
    let firms = firms as u32;
    let model = market_model(alloc, seed, firms)?;
    let annot = market_annot(alloc, firms)?;
    Ok((model, annot))
}
