//! An annotation as far as it is read.
use crate::stage::Stage;
use emp_ast::annot::Annot;
use emp_ast::tree::{EquId, VarId};
use emp_list::seq::Seq;

/// An annotation as far as it is read.
#[derive(Drop)]
pub struct Draft {
    pub stage: Stage,
    /// All but the block that is read.
    pub annot: Annot,
    /// The further variables of the block that is read.
    pub vars: Seq<VarId>,
    /// Its pairs.
    pub pairs: Seq<(EquId, VarId)>,
    /// Its equations, or constraints.
    pub equs: Seq<EquId>,
}
