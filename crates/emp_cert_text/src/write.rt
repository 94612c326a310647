//! The call that writes a certificate's text.
ghost use Rattle.std.specs.Prelude.{◌≡◌, ◌++◌, ◌+◌, ◌≤◌, ◌<◌, [], ℕ, List, length, codes, OnOk, IfOk, IfErr};
ghost use Rattle.std.specs.List.{All};
ghost use Rattle.emp_cert_text.specs.Text.{cert_text, version_text, counts_text, links_text, is_second, verdict_text, nodes_text, point_text, ray_text, line};
ghost use Rattle.emp_cert_text.specs.Writing.{HasFew, VerdictHasFew, AddsText, WriteFails, longest};

use crate::pieces::{add_counts, add_node, add_pairs, add_point, add_ray};
use emp_cert::cert::{Cert, Verdict};
use emp_cert::tree::{Node, Tree};
use emp_num::frac::Frac;
use std::alloc::{AllocError, Global};

/// The longest text of a certificate, in bytes.
pub const LONGEST: usize = 16777216;

/// Why a certificate is not written.
#[derive(Clone, Copy, Debug, PartialEq, Eq)]
pub enum WriteFault {
    /// The text has more than 16,777,216 bytes.
    TooLong,
    /// No memory is left.
    NoMemory,
}

impl From<AllocError> for WriteFault {
    ghost use Rattle.std.specs.Prelude.{◌≡◌};
    ghost use Rattle.emp_cert_text.specs.declared.write.WriteFault.TheVariants.{NoMemory as no_memory};

    ghost from_gives = { λ _ e. e ≡ no_memory };

    fn from(_refused: AllocError) -> WriteFault {
        WriteFault::NoMemory
    }
}

/// Adds the lines of the nodes. It stops where the text is too long already.
#[tactic(auto, using(crate::proofs::Joining::node_lines))]
fn add_nodes(out: &mut Vec<u8>, second: bool, nodes: &[Node]) -> Result<(), WriteFault>
    requires few { All HasFew nodes.now }
    ensures { AddsText out.old.items (nodes_text second nodes.now) out.new.items result }
{
    for at in 0..nodes.len() {
        if out.len() > LONGEST {
            return Err(WriteFault::TooLong);
        }
        add_node(out, second, &nodes[at])?;
    }
    Ok(())
}

/// Adds the lines that say that none is there, by a tree.
#[tactic(auto, using(crate::proofs::Joining::parts))]
fn add_missing(out: &mut Vec<u8>, second: bool, tree: &Tree) -> Result<(), WriteFault>
    requires few { All HasFew tree.now.nodes }
    ensures { AddsText out.old.items (line (codes "none") [] ++ nodes_text second tree.now.nodes) out.new.items result }
{
    out.extend_from_slice(b"none\n")?;
    add_nodes(out, second, tree.nodes.as_slice())
}

/// Adds the lines of a point that is best, by a tree.
#[tactic(auto, using(crate::proofs::Joining::parts))]
fn add_best(out: &mut Vec<u8>, second: bool, point: &[Frac], tree: &Tree) -> Result<(), WriteFault>
    requires few { All HasFew tree.now.nodes }
    ensures { AddsText out.old.items (line (codes "best") [] ++ (point_text point.now ++ nodes_text second tree.now.nodes)) out.new.items result }
{
    out.extend_from_slice(b"best\n")?;
    add_point(out, point)?;
    add_nodes(out, second, tree.nodes.as_slice())
}

/// Adds the lines of a ray.
#[tactic(auto, using(crate::proofs::Adding::adding))]
fn add_unbounded(out: &mut Vec<u8>, point: &[Frac], step: &[Frac]) -> Result<(), AllocError>
    ensures { OnOk result (out.new.items ≡ out.old.items ++ (line (codes "unbounded") [] ++ (point_text point.now ++ ray_text step.now))) }
{
    out.extend_from_slice(b"unbounded\n")?;
    add_point(out, point)?;
    add_ray(out, step)
}

/// Adds the lines of a verdict.
fn add_verdict(out: &mut Vec<u8>, second: bool, verdict: &Verdict) -> Result<(), WriteFault>
    requires few { VerdictHasFew verdict.now }
    ensures { AddsText out.old.items (verdict_text second verdict.now) out.new.items result }
{
    match verdict {
        Verdict::Point(point) => {
            add_point(out, point.as_slice())?;
            Ok(())
        }
        Verdict::Missing(tree) => add_missing(out, second, tree),
        Verdict::Best(point, tree) => add_best(out, second, point.as_slice(), tree),
        Verdict::Unbounded(point, step) => {
            add_unbounded(out, point.as_slice(), step.as_slice())?;
            Ok(())
        }
    }
}

/// Adds the lines before the verdict.
#[tactic(auto, using(crate::proofs::Adding::adding))]
fn add_head(out: &mut Vec<u8>, cert: &Cert) -> Result<(), AllocError>
    ensures { OnOk result (out.new.items ≡ out.old.items ++ (version_text (is_second cert.now.links) ++ (counts_text cert.now ++ links_text cert.now.links))) }
{
    match &cert.links {
        Some(links) => {
            out.extend_from_slice(b"emp certificate 2\n")?;
            add_counts(out, cert.base, cert.quantities, cert.pairs)?;
            add_pairs(out, links.as_slice())
        }
        None => {
            out.extend_from_slice(b"emp certificate 1\n")?;
            add_counts(out, cert.base, cert.quantities, cert.pairs)
        }
    }
}

/// Adds the whole text.
#[tactic(auto, using(crate::proofs::Joining::whole))]
fn add_cert(out: &mut Vec<u8>, cert: &Cert) -> Result<(), WriteFault>
    requires few { VerdictHasFew cert.now.verdict }
    ensures { AddsText out.old.items (cert_text cert.now) out.new.items result }
{
    add_head(out, cert)?;
    add_verdict(out, cert.links.is_some(), &cert.verdict)?;
    out.extend_from_slice(b"end\n")?;
    Ok(())
}

/// The text of the certificate (`cert_text` of `specs/Text.antt`): version 1 where it names no pairs, and version 2 where it
/// does.
///
/// `WriteFault::TooLong` exactly where the text has more than 16,777,216 bytes.
#[tactic(auto, using(crate::proofs::Joining::writing))]
pub fn write(alloc: Global, cert: &Cert) -> Result<Vec<u8>, WriteFault>
    ensures text { IfOk result (λ bytes. bytes.items ≡ cert_text cert.now) }
    ensures short { IfOk result (λ bytes. length (cert_text cert.now) ≤ longest) }
    ensures fault { IfErr result (λ e. WriteFails (cert_text cert.now) e) }
{
    let mut out = Vec::new(alloc);
    add_cert(&mut out, cert)?;
    if out.len() > LONGEST {
        return Err(WriteFault::TooLong);
    }
    Ok(out)
}
