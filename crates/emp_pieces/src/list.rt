//! All pieces of a row system.
ghost use Rattle.std.specs.Prelude.{IfOk};
ghost use Rattle.emp_pieces.specs.Lists.{ListGives, ListShows};

use crate::walk::{Piece, Walk};
use emp_list::memory::NoMemory;
use emp_list::seq::Seq;
use emp_rows::system::RowSystem;
use emp_walk::fault::WalkFault;
use emp_walk::kept::FaceSteps;
use std::alloc::Global;

/// The pieces of a row system in order, and the units of work and the nodes that the walk took.
#[derive(Drop)]
pub struct PieceList {
    pub work: u64,
    pub nodes: u64,
    pub items: Seq<Piece>,
}

/// Lists the pieces of a row system, with so many units of work. A node takes one unit when it is opened, and each pivot one.
///
/// The row points are exactly those of the faces of the pieces' paths, and each piece's point is on its own face. `Wide` exactly where a pivot of the
/// walk forms a number with absolute value 2^126 or more, `Spent` exactly where it asks for more units. Want of memory is free.
pub fn pieces(alloc: Global, system: &RowSystem, work: u64) -> Result<PieceList, WalkFault>
    ensures gives { ListGives system.now work result }
    ensures shown { IfOk result (ListShows system.now) }
{
    let Ok(mut walk) = Walk::start(alloc, system, work) else {
        return Err(WalkFault::NoMemory);
    };
    let mut items = Seq::new(alloc);
    loop {
        match walk.next(&mut FaceSteps, alloc, system) {
            Ok(Some(piece)) => match items.push(piece) {
                Ok(()) => {}
                Err(_) => return Err(WalkFault::NoMemory),
            },
            Ok(None) => {
                return Ok(PieceList {
                    work: walk.budget.used,
                    nodes: walk.nodes,
                    items,
                });
            }
            Err(fault) => return Err(fault),
        }
    }
}
