//! Annotations.
ghost use Rattle.std.specs.Prelude.{◌≡◌, IfOk};

use crate::model::Sense;
use crate::tree::{EquId, VarId};
use emp_list::memory::NoMemory;
use emp_list::seq::Seq;
use std::alloc::Global;

/// A block of an annotation. What its own variables, equations and constraints are stands in `specs/Parties.antt`.
#[derive(Drop)]
pub enum Block {
    /// `min` or `max`: an agent with its objective variable, its further variables and its equations.
    Agent {
        sense: Sense,
        objective: VarId,
        vars: Seq<VarId>,
        equs: Seq<EquId>,
    },
    /// `vi`: a variational inequality with its variables of function zero, its pairs and its constraints.
    Vi {
        zeros: Seq<VarId>,
        pairs: Seq<(EquId, VarId)>,
        equs: Seq<EquId>,
    },
}

impl Block {
    /// The same block once more.
    pub fn copy(&self, alloc: Global) -> Result<Block, NoMemory>
        ensures { IfOk result (λ b. b ≡ self.now) }
    {
        match self {
            Block::Agent {
                sense,
                objective,
                vars,
                equs,
            } => {
                let vars = vars.copy(alloc)?;
                let equs = equs.copy(alloc)?;
                Ok(Block::Agent {
                    sense: *sense,
                    objective: *objective,
                    vars,
                    equs,
                })
            }
            Block::Vi { zeros, pairs, equs } => {
                let zeros = zeros.copy(alloc)?;
                let pairs = pairs.copy(alloc)?;
                let equs = equs.copy(alloc)?;
                Ok(Block::Vi { zeros, pairs, equs })
            }
        }
    }
}

/// An annotation of a model.
#[derive(Drop)]
pub struct Annot {
    pub bilevel: bool,
    /// The variables listed after `bilevel`.
    pub leader: Seq<VarId>,
    pub blocks: Seq<Block>,
    /// The dual variables, each with its equation.
    pub duals: Seq<(VarId, EquId)>,
    /// The equations with one multiplier for all blocks.
    pub visols: Seq<EquId>,
    /// The implicit variables, each with the equation that ties it. Each block that lists the variable owns it and has the
    /// equation as a constraint of its own.
    pub implicits: Seq<(VarId, EquId)>,
}

/// The same blocks once more.
fn copy_blocks(alloc: Global, blocks: &Seq<Block>) -> Result<Seq<Block>, NoMemory>
    ensures { IfOk result (λ list. list ≡ blocks.now) }
{
    let mut copies = Seq::new(alloc);
    for at in 0..blocks.len() {
        copies.push(blocks.get(at).copy(alloc)?)?;
    }
    Ok(copies)
}

impl Annot {
    /// The same annotation once more.
    pub fn copy(&self, alloc: Global) -> Result<Annot, NoMemory>
        ensures { IfOk result (λ a. a ≡ self.now) }
    {
        let leader = self.leader.copy(alloc)?;
        let blocks = copy_blocks(alloc, &self.blocks)?;
        let duals = self.duals.copy(alloc)?;
        let visols = self.visols.copy(alloc)?;
        let implicits = self.implicits.copy(alloc)?;
        Ok(Annot {
            bilevel: self.bilevel,
            leader,
            blocks,
            duals,
            visols,
            implicits,
        })
    }
}
