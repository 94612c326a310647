//! Lexemes that are taken into a draft.
ghost use Rattle.std.specs.Prelude.{◌≡◌, ◌<◌, [], IfOk, OnOk, length};
ghost use Rattle.info_read.specs.Machine.{start_draft, noted, closed, ends_item, step, Steps, Finishes, draft as draft_of};

use crate::draft::Draft;
use crate::lexeme::Sort;
use crate::moves::{ends_item, item_stage, move_at};
use crate::stage::{Move, Note, Stage};
use emp_ast::annot::{Annot, Block};
use emp_list::seq::Seq;
use std::alloc::{AllocError, Global};

impl Draft {
    /// Nothing is read.
    pub fn new(alloc: Global) -> Draft
        ensures { result ≡ start_draft }
    {
        Draft {
            stage: Stage::Start,
            annot: Annot {
                bilevel: false,
                leader: Seq::new(alloc),
                blocks: Seq::new(alloc),
                duals: Seq::new(alloc),
                visols: Seq::new(alloc),
                implicits: Seq::new(alloc),
            },
            vars: Seq::new(alloc),
            pairs: Seq::new(alloc),
            equs: Seq::new(alloc),
        }
    }

    fn note(&mut self, stage: Stage, note: Note) -> Result<(), AllocError>
        ensures { OnOk result (self.new ≡ noted stage note self.old) }
    {
        match note {
            Note::Nothing => {}
            Note::Bilevel => self.annot.bilevel = true,
            Note::Leader(v) => self.annot.leader.push(v)?,
            Note::Variable(v) => self.vars.push(v)?,
            Note::Equation(e) => self.equs.push(e)?,
            Note::Equations(e, f) => {
                self.equs.push(e)?;
                self.equs.push(f)?;
            }
            Note::Pair(e, v) => self.pairs.push((e, v))?,
            Note::Dual(v, e) => self.annot.duals.push((v, e))?,
            Note::Visol(e) => self.annot.visols.push(e)?,
            Note::Implicit(v, e) => self.annot.implicits.push((v, e))?,
        }
        self.stage = stage;
        Ok(())
    }

    /// Puts the block that is read, if there is one, behind the others.
    fn close(&mut self, alloc: Global, stage: Stage) -> Result<(), AllocError>
        ensures { OnOk result (self.new ≡ draft_of stage (closed self.old) [] [] []) }
    {
        if let Stage::Function(e) = self.stage {
            self.equs.push(e)?;
        }
        let vars = std::mem::replace(&mut self.vars, Seq::new(alloc));
        let pairs = std::mem::replace(&mut self.pairs, Seq::new(alloc));
        let equs = std::mem::replace(&mut self.equs, Seq::new(alloc));
        match self.stage {
            Stage::AgentVariables(sense, objective) | Stage::AgentEquations(sense, objective) => {
                self.annot.blocks.push(Block::Agent {
                    sense,
                    objective,
                    vars,
                    equs,
                })?;
            }
            Stage::Zeros | Stage::Function(_) | Stage::Pairs | Stage::Constraints => {
                self.annot.blocks.push(Block::Vi {
                    zeros: vars,
                    pairs,
                    equs,
                })?;
            }
            _ => {}
        }
        self.stage = stage;
        Ok(())
    }

    /// Takes one lexeme, where it can come.
    pub fn advance(&mut self, alloc: Global, sort: Sort) -> Result<bool, AllocError>
        ensures { IfOk result (Steps self.old self.new (step self.old sort)) }
    {
        match item_stage(sort) {
            Some(stage) => {
                if !ends_item(self.stage) {
                    return Ok(false);
                }
                self.close(alloc, stage)?;
            }
            None => match move_at(self.stage, sort) {
                Move::Fail => return Ok(false),
                Move::Take(stage, note) => self.note(stage, note)?,
            },
        }
        Ok(true)
    }

    /// The annotation, where the text may end.
    pub fn finish(self, alloc: Global) -> Result<Option<Annot>, AllocError>
        ensures { IfOk result (Finishes self) }
    {
        if !ends_item(self.stage) {
            return Ok(None);
        }
        let mut draft = self;
        draft.close(alloc, Stage::Start)?;
        if draft.annot.blocks.len() == 0 {
            return Ok(None);
        }
        Ok(Some(draft.annot))
    }
}
