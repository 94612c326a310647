//! The annotation of a market.
ghost use Rattle.std.specs.Prelude.{◌≡◌, ◌<◌, ◌≤◌, IfOk};
ghost use Rattle.emp_make.specs.Markets.{firm_block, IsMarketAnnot};
ghost use Rattle.emp_make.specs.Parts.{firm_blocks};

use crate::model::quantity;
use emp_ast::annot::{Annot, Block};
use emp_ast::model::Sense;
use emp_ast::tree::{EquId, VarId};
use emp_list::memory::NoMemory;
use emp_list::seq::Seq;
use std::alloc::Global;

/// The block of the firm, which chooses its quantity for its greatest profit.
fn firm_block(alloc: Global, firms: u32, firm: u32) -> Result<Block, NoMemory>
    requires few { firms ≤ 40 }
    requires within { firm < firms }
    ensures { IfOk result (λ b. b ≡ firm_block firms firm) }
{
    let vars = Seq::of_slice(alloc, &[quantity(firms, firm)])?;
    let equs = Seq::of_slice(alloc, &[EquId { at: firm }])?;
    Ok(Block::Agent {
        sense: Sense::Max,
        objective: VarId { at: firm },
        vars,
        equs,
    })
}

/// The blocks of all firms.
#[tactic(auto, using(crate::proofs::Lists::made_more))]
fn firm_blocks(alloc: Global, firms: u32) -> Result<Seq<Block>, NoMemory>
    requires few { firms ≤ 40 }
    ensures { IfOk result (λ bs. bs ≡ firm_blocks firms firms) }
{
    let mut blocks = Seq::new(alloc);
    for firm in 0..firms {
        blocks.push(firm_block(alloc, firms, firm)?)?;
    }
    Ok(blocks)
}

/// The annotation of a market of so many firms: an equilibrium of their blocks.
pub fn market_annot(alloc: Global, firms: u32) -> Result<Annot, NoMemory>
    requires few { firms ≤ 40 }
    ensures { IfOk result (IsMarketAnnot firms) }
{
    let blocks = firm_blocks(alloc, firms)?;
    Ok(Annot {
        bilevel: false,
        leader: Seq::new(alloc),
        blocks,
        duals: Seq::new(alloc),
        visols: Seq::new(alloc),
        implicits: Seq::new(alloc),
    })
}
