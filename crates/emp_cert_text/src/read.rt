//! The call that reads a certificate's text, line by line and without recursion.
ghost use Rattle.std.specs.Prelude.{◌≡◌, ◌≢◌, ◌++◌, ◌∷◌, ◌+◌, ◌-◌, ◌≤◌, ◌<◌, [], ℕ, List, length, take, drop, codes, Some, IfOk, IfErr, Bool, true};
ghost use Rattle.std.specs.List.{All};
ghost use Rattle.std.specs.Bool.{Decides};
ghost use Rattle.std.specs.Io.BufRead.{take_through, drop_through};
ghost use Rattle.emp_rows.specs.Points.{IsNumber};
ghost use Rattle.emp_cert.specs.declared.cert.Cert.{Cert};
ghost use Rattle.emp_cert.specs.Certs.{Counts, LinksFit, NodeFits, TreeFits, VerdictFits};
ghost use Rattle.emp_cert.specs.declared.tree.Node.{Node};
ghost use Rattle.emp_cert.specs.Nodes.{AreTrees};
ghost use Rattle.emp_cert_text.specs.Text.{cert_text, version_text, links_text, is_second, verdict_text, nodes_text, node_text, pair_text, pairs_text, point_text, ray_text, sizes_text};
ghost use Rattle.emp_cert_text.specs.Lines.{LineFails};
ghost use Rattle.emp_cert_text.specs.declared.read.Spot.{Spot};
ghost use Rattle.emp_cert_text.specs.Course.{Head, Part, Stands, Right, head_of, pairs_before, behind_counts, behind_node, trees_before, TakesPoint};
ghost use Rattle.emp_cert_text.specs.Course.Part.{counts, pair, verdict, point, ray, tree, last};
ghost use Rattle.emp_cert_text.specs.Reading.{ReadFails, IsRead, IsAt};
ghost use Rattle.emp_cert_text.specs.Writing.{longest};

use crate::lines::{LineFault, Sizes, counts_line, node_line, pair_line, point_line, ray_line};
use crate::write::LONGEST;
use emp_cert::cert::{Cert, Verdict};
use emp_cert::tree::{Node, Tree};
use emp_list::seq::Seq;
use emp_num::frac::Frac;
use emp_rows::point::RowPoint;
use std::alloc::{AllocError, Global};
use thiserror::Error;

/// Why a text is no certificate's. Lines count from 1.
#[derive(Clone, Copy, Debug, PartialEq, Eq, Error)]
pub enum CertFault {
    /// The text has more than 16,777,216 bytes.
    #[error("too long")]
    TooLong,
    /// The first line is that of no version.
    #[error("no such version")]
    Version,
    /// The line has the right words, counts and order, and a number is outside its range.
    #[error("line {0}: range")]
    Range(u64),
    /// Another fault of the first line that no certificate has at that place. A line that is missing and a rest after the
    /// last line are such faults too.
    #[error("line {0}: syntax")]
    Syntax(u64),
    /// There was no memory.
    #[error("no memory")]
    NoMemory,
}

impl From<AllocError> for CertFault {
    ghost use Rattle.std.specs.Prelude.{◌≡◌};
    ghost use Rattle.emp_cert_text.specs.declared.read.CertFault.TheVariants.{NoMemory as no_memory};

    ghost from_gives = { λ _ e. e ≡ no_memory };

    fn from(_refused: AllocError) -> CertFault {
        CertFault::NoMemory
    }
}

/// How far a text is read: where the next line begins, and its number.
#[derive(Clone, Copy, Debug, PartialEq, Eq)]
struct Spot {
    at: usize,
    line: u64,
}

/// The fault at a line.
#[tactic(auto, using(crate::proofs::Places::failing))]
fn at_line(fault: LineFault, spot: Spot) -> CertFault
    ensures { (t : List ℕ) (p : Part) (ps : List Part) → length t ≤ longest → IsAt t (p ∷ ps) spot → LineFails (Right p (take_through 10 (drop spot.at t))) ((qs : List Part) × Stands p (take_through 10 (drop spot.at t)) qs) fault → ReadFails t result }
{
    match fault {
        LineFault::Range => CertFault::Range(spot.line),
        LineFault::Syntax => CertFault::Syntax(spot.line),
        LineFault::NoMemory => CertFault::NoMemory,
    }
}

/// Where the line that begins at a place ends, behind its LF.
#[tactic(auto, using(crate::proofs::Places::ending))]
fn line_end(text: &[u8], from: usize) -> usize
    requires { from ≤ length text.now }
    ensures from { from ≤ result }
    ensures within { result ≤ length text.now }
    ensures line { take (result - from) (drop from text.now) ≡ take_through 10 (drop from text.now) }
    ensures rest { drop result text.now ≡ drop_through 10 (drop from text.now) }
{
    for at in from..text.len() {
        if text[at] == b'\n' {
            return at + 1;
        }
    }
    text.len()
}

/// The line that begins at a place, with its LF.
fn line_at(text: &[u8], from: usize) -> &[u8]
    requires { from ≤ length text.now }
    ensures rest { drop from text.now ≡ result.now ++ drop (from + length result.now) text.now }
    ensures within { from + length result.now ≤ length text.now }
    ensures line { result.now ≡ take_through 10 (drop from text.now) }
    ensures after { drop (from + length result.now) text.now ≡ drop_through 10 (drop from text.now) }
{
    &text[from..line_end(text, from)]
}

/// The place behind a line.
#[tactic(auto, using(crate::proofs::Places::going))]
fn behind(spot: Spot, line: &[u8], text: &[u8]) -> Spot
    requires within { spot.at + length line.now ≤ length text.now }
    requires short { length text.now ≤ 16777216 }
    ensures at { result.at ≡ spot.at + length line.now }
    ensures next { (p : Part) (ps qs : List Part) → IsAt text.now (p ∷ ps) spot → line.now ≡ take_through 10 (drop spot.at text.now) → drop (spot.at + length line.now) text.now ≡ drop_through 10 (drop spot.at text.now) → Stands p line.now qs → IsAt text.now (qs ++ ps) result }
{
    Spot {
        at: spot.at + line.len(),
        line: spot.line.saturating_add(1),
    }
}

/// The counts.
#[tactic(auto, using(crate::proofs::Reading::lining))]
fn sizes_from(alloc: Global, text: &[u8], spot: Spot) -> Result<(Sizes, Spot), CertFault>
    requires at { spot.at ≤ length text.now }
    requires short { length text.now ≤ 16777216 }
    ensures text { IfOk result (λ r. drop spot.at text.now ≡ sizes_text r.0.base r.0.quantities r.0.pairs ++ drop r.1.at text.now) }
    ensures within { IfOk result (λ r. r.1.at ≤ length text.now) }
    ensures next { (second : Bool) (ps : List Part) → IsAt text.now (counts second ∷ ps) spot → IfOk result (λ r. IsAt text.now (behind_counts second r.0.base r.0.quantities r.0.pairs ++ ps) r.1) }
    ensures err { (second : Bool) (ps : List Part) → IsAt text.now (counts second ∷ ps) spot → IfErr result (ReadFails text.now) }
{
    let line = line_at(text, spot.at);
    match counts_line(alloc, line) {
        Ok(sizes) => Ok((sizes, behind(spot, line, text))),
        Err(fault) => Err(at_line(fault, spot)),
    }
}

/// A pair.
#[tactic(auto, using(crate::proofs::Reading::lining))]
fn pair_from(
    alloc: Global,
    text: &[u8],
    spot: Spot,
    quantities: u32,
) -> Result<((u32, u32), Spot), CertFault>
    requires at { spot.at ≤ length text.now }
    requires short { length text.now ≤ 16777216 }
    ensures text { IfOk result (λ r. drop spot.at text.now ≡ pair_text r.0 ++ drop r.1.at text.now) }
    ensures first { IfOk result (λ r. IsNumber quantities r.0.0) }
    ensures second { IfOk result (λ r. IsNumber quantities r.0.1) }
    ensures within { IfOk result (λ r. r.1.at ≤ length text.now) }
    ensures next { (ps : List Part) → IsAt text.now (pair quantities ∷ ps) spot → IfOk result (λ r. IsAt text.now ps r.1) }
    ensures err { (ps : List Part) → IsAt text.now (pair quantities ∷ ps) spot → IfErr result (ReadFails text.now) }
{
    let line = line_at(text, spot.at);
    match pair_line(alloc, line, quantities) {
        Ok(pair) => Ok((pair, behind(spot, line, text))),
        Err(fault) => Err(at_line(fault, spot)),
    }
}

/// A node.
#[tactic(auto, using(crate::proofs::Reading::lining))]
fn node_from(
    alloc: Global,
    text: &[u8],
    spot: Spot,
    second: bool,
    sizes: Sizes,
) -> Result<(Node, Spot), CertFault>
    requires at { spot.at ≤ length text.now }
    requires short { length text.now ≤ 16777216 }
    ensures text { IfOk result (λ r. drop spot.at text.now ≡ node_text second r.0 ++ drop r.1.at text.now) }
    ensures fits { IfOk result (λ r. NodeFits sizes.pairs sizes.quantities r.0) }
    ensures further { IfOk result (λ r. spot.at < r.1.at) }
    ensures within { IfOk result (λ r. r.1.at ≤ length text.now) }
    ensures next { (b : ℕ) (ps : List Part) → IsAt text.now (tree (head_of second b sizes.quantities sizes.pairs) ∷ ps) spot → IfOk result (λ r. IsAt text.now (behind_node (head_of second b sizes.quantities sizes.pairs) r.0 ++ ps) r.1) }
    ensures err { (b : ℕ) (ps : List Part) → IsAt text.now (tree (head_of second b sizes.quantities sizes.pairs) ∷ ps) spot → IfErr result (ReadFails text.now) }
{
    let line = line_at(text, spot.at);
    match node_line(alloc, line, second, sizes) {
        Ok(node) => Ok((node, behind(spot, line, text))),
        Err(fault) => Err(at_line(fault, spot)),
    }
}

/// A point.
#[tactic(auto, using(crate::proofs::Reading::lining))]
fn point_from(
    alloc: Global,
    text: &[u8],
    spot: Spot,
    base: u32,
) -> Result<(Seq<Frac>, Spot), CertFault>
    requires at { spot.at ≤ length text.now }
    requires short { length text.now ≤ 16777216 }
    ensures text { IfOk result (λ r. drop spot.at text.now ≡ point_text r.0 ++ drop r.1.at text.now) }
    ensures count { IfOk result (λ r. length r.0 ≡ base) }
    ensures within { IfOk result (λ r. r.1.at ≤ length text.now) }
    ensures next { (p : Part) (ps : List Part) → IsAt text.now (p ∷ ps) spot → TakesPoint base p (take_through 10 (drop spot.at text.now)) → IfOk result (λ r. IsAt text.now ps r.1) }
    ensures err { (p : Part) (ps : List Part) → IsAt text.now (p ∷ ps) spot → TakesPoint base p (take_through 10 (drop spot.at text.now)) → IfErr result (ReadFails text.now) }
{
    let line = line_at(text, spot.at);
    match point_line(alloc, line, base) {
        Ok(values) => Ok((values, behind(spot, line, text))),
        Err(fault) => Err(at_line(fault, spot)),
    }
}

/// A ray's step.
#[tactic(auto, using(crate::proofs::Reading::lining))]
fn ray_from(
    alloc: Global,
    text: &[u8],
    spot: Spot,
    base: u32,
) -> Result<(Seq<Frac>, Spot), CertFault>
    requires at { spot.at ≤ length text.now }
    requires short { length text.now ≤ 16777216 }
    ensures text { IfOk result (λ r. drop spot.at text.now ≡ ray_text r.0 ++ drop r.1.at text.now) }
    ensures count { IfOk result (λ r. length r.0 ≡ base) }
    ensures within { IfOk result (λ r. r.1.at ≤ length text.now) }
    ensures next { (ps : List Part) → IsAt text.now (ray base ∷ ps) spot → IfOk result (λ r. IsAt text.now ps r.1) }
    ensures err { (ps : List Part) → IsAt text.now (ray base ∷ ps) spot → IfErr result (ReadFails text.now) }
{
    let line = line_at(text, spot.at);
    match ray_line(alloc, line, base) {
        Ok(values) => Ok((values, behind(spot, line, text))),
        Err(fault) => Err(at_line(fault, spot)),
    }
}

/// Whether the line is this text.
fn is_text(line: &[u8], text: &[u8]) -> bool
    ensures { Decides result (line.now ≡ text.now) }
{
    line == text
}

/// Whether the text is of version 2, by its first line.
fn version_of(text: &[u8]) -> Result<bool, CertFault>
    requires { length text.now ≤ 16777216 }
    ensures text { IfOk result (λ b. text.now ≡ version_text b ++ drop 18 text.now) }
    ensures within { IfOk result (λ b. 18 ≤ length text.now) }
    ensures next { (s : Spot) → s.at ≡ 18 → s.line ≡ 2 → IfOk result (λ b. IsAt text.now (counts b ∷ []) s) }
    ensures err { IfErr result (ReadFails text.now) }
{
    let line = line_at(text, 0);
    if is_text(line, b"emp certificate 1\n") {
        return Ok(false);
    }
    if is_text(line, b"emp certificate 2\n") {
        return Ok(true);
    }
    Err(CertFault::Version)
}

/// The pairs that version 2 names.
#[tactic(auto, using(crate::proofs::Reading::pairing))]
fn pairs_from(
    alloc: Global,
    text: &[u8],
    spot: Spot,
    sizes: Sizes,
) -> Result<(Seq<(u32, u32)>, Spot), CertFault>
    requires at { spot.at ≤ length text.now }
    requires short { length text.now ≤ 16777216 }
    ensures text { IfOk result (λ r. drop spot.at text.now ≡ pairs_text r.0 ++ drop r.1.at text.now) }
    ensures fits { IfOk result (λ r. LinksFit sizes.quantities sizes.pairs r.0) }
    ensures within { IfOk result (λ r. r.1.at ≤ length text.now) }
    ensures next { (ps : List Part) → IsAt text.now (pairs_before sizes.pairs sizes.quantities ps) spot → IfOk result (λ r. IsAt text.now ps r.1) }
    ensures err { (ps : List Part) → IsAt text.now (pairs_before sizes.pairs sizes.quantities ps) spot → IfErr result (ReadFails text.now) }
{
    let mut out = Seq::new(alloc);
    let mut here = spot;
    for _done in 0..sizes.pairs {
        let (pair, next) = pair_from(alloc, text, here, sizes.quantities)?;
        out.push(pair)?;
        here = next;
    }
    Ok((out, here))
}

/// How many trees are still to come after a node, where so many were before it.
#[tactic(auto, using(crate::proofs::Reading::awaiting))]
fn awaited_after(node: &Node, awaited: usize) -> usize
    requires above { 0 < awaited }
    requires few { awaited ≤ 16777217 }
    ensures trees { (ns : List Node) → AreTrees result ns → AreTrees awaited (node.now ∷ ns) }
    ensures more { result ≤ awaited + 1 }
    ensures parts { (h : Head) (ps : List Part) → behind_node h node.now ++ trees_before (awaited - 1) h ps ≡ trees_before result h ps }
{
    match node {
        Node::Branch(_) => awaited + 1,
        Node::Farkas(_) => awaited - 1,
        Node::Bound(_, _) => awaited - 1,
    }
}

/// One whole tree.
#[tactic(auto, using(crate::proofs::Reading::treeing))]
fn tree_from(
    alloc: Global,
    text: &[u8],
    spot: Spot,
    second: bool,
    sizes: Sizes,
) -> Result<(Tree, Spot), CertFault>
    requires at { spot.at ≤ length text.now }
    requires short { length text.now ≤ 16777216 }
    ensures text { IfOk result (λ r. drop spot.at text.now ≡ nodes_text second r.0.nodes ++ drop r.1.at text.now) }
    ensures fits { IfOk result (λ r. TreeFits sizes.pairs sizes.quantities r.0) }
    ensures within { IfOk result (λ r. r.1.at ≤ length text.now) }
    ensures next { (b : ℕ) (ps : List Part) → IsAt text.now (tree (head_of second b sizes.quantities sizes.pairs) ∷ ps) spot → IfOk result (λ r. IsAt text.now ps r.1) }
    ensures err { (b : ℕ) (ps : List Part) → IsAt text.now (tree (head_of second b sizes.quantities sizes.pairs) ∷ ps) spot → IfErr result (ReadFails text.now) }
{
    let mut nodes = Seq::new(alloc);
    let mut here = spot;
    let mut awaited = 1;
    while awaited > 0 {
        let (node, next) = node_from(alloc, text, here, second, sizes)?;
        awaited = awaited_after(&node, awaited);
        nodes.push(node)?;
        here = next;
    }
    Ok((Tree { nodes }, here))
}

/// The rest of a verdict that a tree refutes.
#[tactic(auto, using(crate::proofs::Reading::verdicts))]
fn missing_from(
    alloc: Global,
    text: &[u8],
    spot: Spot,
    second: bool,
    sizes: Sizes,
) -> Result<(Verdict, Spot), CertFault>
    requires at { spot.at ≤ length text.now }
    requires short { length text.now ≤ 16777216 }
    ensures text { IfOk result (λ r. codes "none\n" ++ drop spot.at text.now ≡ verdict_text second r.0 ++ drop r.1.at text.now) }
    ensures fits { IfOk result (λ r. VerdictFits sizes.base sizes.quantities sizes.pairs r.0) }
    ensures within { IfOk result (λ r. r.1.at ≤ length text.now) }
    ensures next { (ps : List Part) → IsAt text.now (tree (head_of second sizes.base sizes.quantities sizes.pairs) ∷ ps) spot → IfOk result (λ r. IsAt text.now ps r.1) }
    ensures err { (ps : List Part) → IsAt text.now (tree (head_of second sizes.base sizes.quantities sizes.pairs) ∷ ps) spot → IfErr result (ReadFails text.now) }
{
    let (tree, end) = tree_from(alloc, text, spot, second, sizes)?;
    Ok((Verdict::Missing(tree), end))
}

/// The rest of a verdict that a point is best.
#[tactic(auto, using(crate::proofs::Reading::verdicts))]
fn best_from(
    alloc: Global,
    text: &[u8],
    spot: Spot,
    second: bool,
    sizes: Sizes,
) -> Result<(Verdict, Spot), CertFault>
    requires at { spot.at ≤ length text.now }
    requires short { length text.now ≤ 16777216 }
    ensures text { IfOk result (λ r. codes "best\n" ++ drop spot.at text.now ≡ verdict_text second r.0 ++ drop r.1.at text.now) }
    ensures fits { IfOk result (λ r. VerdictFits sizes.base sizes.quantities sizes.pairs r.0) }
    ensures within { IfOk result (λ r. r.1.at ≤ length text.now) }
    ensures next { (ps : List Part) → IsAt text.now (point sizes.base ∷ (tree (head_of second sizes.base sizes.quantities sizes.pairs) ∷ ps)) spot → IfOk result (λ r. IsAt text.now ps r.1) }
    ensures err { (ps : List Part) → IsAt text.now (point sizes.base ∷ (tree (head_of second sizes.base sizes.quantities sizes.pairs) ∷ ps)) spot → IfErr result (ReadFails text.now) }
{
    let (point, middle) = point_from(alloc, text, spot, sizes.base)?;
    let (tree, end) = tree_from(alloc, text, middle, second, sizes)?;
    Ok((Verdict::Best(RowPoint::of(point), tree), end))
}

/// The rest of a verdict that a ray goes on.
#[tactic(auto, using(crate::proofs::Reading::verdicts))]
fn unbounded_from(
    alloc: Global,
    text: &[u8],
    spot: Spot,
    second: bool,
    sizes: Sizes,
) -> Result<(Verdict, Spot), CertFault>
    requires at { spot.at ≤ length text.now }
    requires short { length text.now ≤ 16777216 }
    ensures text { IfOk result (λ r. codes "unbounded\n" ++ drop spot.at text.now ≡ verdict_text second r.0 ++ drop r.1.at text.now) }
    ensures fits { IfOk result (λ r. VerdictFits sizes.base sizes.quantities sizes.pairs r.0) }
    ensures within { IfOk result (λ r. r.1.at ≤ length text.now) }
    ensures next { (ps : List Part) → IsAt text.now (point sizes.base ∷ (ray sizes.base ∷ ps)) spot → IfOk result (λ r. IsAt text.now ps r.1) }
    ensures err { (ps : List Part) → IsAt text.now (point sizes.base ∷ (ray sizes.base ∷ ps)) spot → IfErr result (ReadFails text.now) }
{
    let (point, middle) = point_from(alloc, text, spot, sizes.base)?;
    let (step, end) = ray_from(alloc, text, middle, sizes.base)?;
    Ok((
        Verdict::Unbounded(RowPoint::of(point), RowPoint::of(step)),
        end,
    ))
}

/// A verdict.
#[tactic(auto, using(crate::proofs::Reading::verdicts))]
fn verdict_from(
    alloc: Global,
    text: &[u8],
    spot: Spot,
    second: bool,
    sizes: Sizes,
) -> Result<(Verdict, Spot), CertFault>
    requires at { spot.at ≤ length text.now }
    requires short { length text.now ≤ 16777216 }
    ensures text { IfOk result (λ r. drop spot.at text.now ≡ verdict_text second r.0 ++ drop r.1.at text.now) }
    ensures fits { IfOk result (λ r. VerdictFits sizes.base sizes.quantities sizes.pairs r.0) }
    ensures within { IfOk result (λ r. r.1.at ≤ length text.now) }
    ensures next { (ps : List Part) → IsAt text.now (verdict (head_of second sizes.base sizes.quantities sizes.pairs) ∷ ps) spot → IfOk result (λ r. IsAt text.now ps r.1) }
    ensures err { (ps : List Part) → IsAt text.now (verdict (head_of second sizes.base sizes.quantities sizes.pairs) ∷ ps) spot → IfErr result (ReadFails text.now) }
{
    let line = line_at(text, spot.at);
    if is_text(line, b"none\n") {
        return missing_from(alloc, text, behind(spot, line, text), second, sizes);
    }
    if is_text(line, b"best\n") {
        return best_from(alloc, text, behind(spot, line, text), second, sizes);
    }
    if is_text(line, b"unbounded\n") {
        return unbounded_from(alloc, text, behind(spot, line, text), second, sizes);
    }
    let (point, end) = point_from(alloc, text, spot, sizes.base)?;
    Ok((Verdict::Point(RowPoint::of(point)), end))
}

/// The last line, and nothing behind it.
fn end_from(text: &[u8], spot: Spot) -> Result<(), CertFault>
    requires at { spot.at ≤ length text.now }
    requires short { length text.now ≤ 16777216 }
    ensures text { IfOk result (λ u. drop spot.at text.now ≡ codes "end\n") }
    ensures err { IsAt text.now (last ∷ []) spot → IfErr result (ReadFails text.now) }
{
    let line = line_at(text, spot.at);
    if !is_text(line, b"end\n") {
        return Err(at_line(LineFault::Syntax, spot));
    }
    let end = behind(spot, line, text);
    if end.at < text.len() {
        return Err(CertFault::Syntax(end.line));
    }
    Ok(())
}

/// The pairs that the certificate names, where it does.
fn links_from(
    alloc: Global,
    text: &[u8],
    spot: Spot,
    second: bool,
    sizes: Sizes,
) -> Result<(Option<Seq<(u32, u32)>>, Spot), CertFault>
    requires at { spot.at ≤ length text.now }
    requires short { length text.now ≤ 16777216 }
    ensures text { IfOk result (λ r. drop spot.at text.now ≡ links_text r.0 ++ drop r.1.at text.now) }
    ensures version { IfOk result (λ r. is_second r.0 ≡ second) }
    ensures fits { IfOk result (λ r. (ps : List (ℕ × ℕ)) → r.0 ≡ Some ps → LinksFit sizes.quantities sizes.pairs ps) }
    ensures within { IfOk result (λ r. r.1.at ≤ length text.now) }
    ensures next { IsAt text.now (behind_counts second sizes.base sizes.quantities sizes.pairs) spot → IfOk result (λ r. IsAt text.now (verdict (head_of second sizes.base sizes.quantities sizes.pairs) ∷ (last ∷ [])) r.1) }
    ensures err { IsAt text.now (behind_counts second sizes.base sizes.quantities sizes.pairs) spot → IfErr result (ReadFails text.now) }
{
    if !second {
        return Ok((None, spot));
    }
    let (pairs, end) = pairs_from(alloc, text, spot, sizes)?;
    Ok((Some(pairs), end))
}

/// The certificate of a text of at most 16,777,216 bytes.
#[tactic(auto, using(crate::proofs::Reading::wholes))]
fn read_short(alloc: Global, text: &[u8]) -> Result<Cert, CertFault>
    requires { length text.now ≤ 16777216 }
    ensures text { IfOk result (λ c. text.now ≡ cert_text c) }
    ensures err { IfErr result (ReadFails text.now) }
{
    let second = version_of(text)?;
    let start = Spot { at: 18, line: 2 };
    let (sizes, spot) = sizes_from(alloc, text, start)?;
    let (links, spot) = links_from(alloc, text, spot, second, sizes)?;
    let (verdict, spot) = verdict_from(alloc, text, spot, second, sizes)?;
    end_from(text, spot)?;
    Ok(Cert {
        base: sizes.base,
        quantities: sizes.quantities,
        pairs: sizes.pairs,
        links,
        verdict,
    })
}

/// The certificate that the text is the text of.
///
/// `TooLong` exactly where the text has more than 16,777,216 bytes. `Version` exactly where the first line is neither
/// `emp certificate 1` nor `emp certificate 2`, each with its LF. `Range`: the first line that no certificate has at its
/// place has the right words, counts and order, and a number is outside its range. `Syntax`: any other fault of that line;
/// a line that is missing and a rest after `end` are such faults too. `specs/Course.antt` says what may stand where.
pub fn read(alloc: Global, text: &[u8]) -> Result<Cert, CertFault>
    ensures text { IfOk result (λ c. text.now ≡ cert_text c) }
    ensures short { IfOk result (λ c. length text.now ≤ longest) }
    ensures fault { IfErr result (ReadFails text.now) }
    ensures each { (c : Cert) → length text.now ≤ longest → text.now ≡ cert_text c → IsRead c result }
{
    if text.len() > LONGEST {
        return Err(CertFault::TooLong);
    }
    read_short(alloc, text)
}
