//! Words and lines of certificates.
ghost use Rattle.std.specs.Prelude.{◌≡◌, ◌++◌, ◌∷◌, ◌+◌, ◌≤◌, ◌<◌, [], ℕ, ℤ, List, map, length, decimal, codes, OnOk};
ghost use Rattle.std.specs.Fmt.{signed_decimal};
ghost use Rattle.emp_algebra.specs.Vector.{cell};
ghost use Rattle.emp_numeral.specs.FracText.{fraction_text};
ghost use Rattle.emp_cert_text.specs.Text.{spaced, line, sparse, factors, node_text, point_text, ray_text, pair_text, pairs_text};
ghost use Rattle.emp_cert_text.specs.Writing.{HasFew};

use emp_cert::tree::Node;
use emp_num::frac::Frac;
use emp_numeral::print::print_frac;
use itoa::Buffer;
use std::alloc::AllocError;

/// Adds a word after a space.
#[tactic(auto, using(crate::proofs::Adding::adding))]
fn add_word(out: &mut Vec<u8>, word: &[u8]) -> Result<(), AllocError>
    ensures { OnOk result (out.new.items ≡ out.old.items ++ spaced (word.now ∷ [])) }
{
    out.push(b' ')?;
    out.extend_from_slice(word)
}

/// Adds a count after a space.
fn add_count(out: &mut Vec<u8>, count: u32) -> Result<(), AllocError>
    ensures { OnOk result (out.new.items ≡ out.old.items ++ spaced (decimal count ∷ [])) }
{
    let mut buffer = Buffer::new();
    add_word(out, buffer.format(count).as_bytes())
}

/// Adds the whole number at a place after a space.
fn add_number(out: &mut Vec<u8>, numbers: &[i128], at: usize) -> Result<(), AllocError>
    requires { at < length numbers.now }
    ensures { OnOk result (out.new.items ≡ out.old.items ++ spaced (signed_decimal (cell numbers.now at) ∷ [])) }
{
    let mut buffer = Buffer::new();
    add_word(out, buffer.format(numbers[at]).as_bytes())
}

/// Adds a fraction after a space.
fn add_fraction(out: &mut Vec<u8>, value: Frac) -> Result<(), AllocError>
    ensures { OnOk result (out.new.items ≡ out.old.items ++ spaced (fraction_text value ∷ [])) }
{
    let mut buffer = [0; 96];
    let end = print_frac(value, &mut buffer);
    add_word(out, &buffer[..end])
}

/// Adds the whole numbers, each after a space.
#[tactic(auto, using(crate::proofs::Adding::numbering))]
fn add_numbers(out: &mut Vec<u8>, numbers: &[i128]) -> Result<(), AllocError>
    ensures { OnOk result (out.new.items ≡ out.old.items ++ spaced (map signed_decimal numbers.now)) }
{
    for at in 0..numbers.len() {
        add_number(out, numbers, at)?;
    }
    Ok(())
}

/// Adds the fractions, each after a space.
#[tactic(auto, using(crate::proofs::Adding::fractions))]
fn add_fractions(out: &mut Vec<u8>, values: &[Frac]) -> Result<(), AllocError>
    ensures { OnOk result (out.new.items ≡ out.old.items ++ spaced (map fraction_text values.now)) }
{
    for at in 0..values.len() {
        add_fraction(out, values[at])?;
    }
    Ok(())
}

/// Adds a factor that is not 0 behind its number, after a space.
#[tactic(auto, using(crate::proofs::Adding::adding))]
fn add_numbered(out: &mut Vec<u8>, numbers: &[i128], at: usize) -> Result<(), AllocError>
    requires at { at < length numbers.now }
    requires few { length numbers.now ≤ 512 }
    ensures { OnOk result (out.new.items ≡ out.old.items ++ spaced ((decimal (at + 1) ++ (58 ∷ signed_decimal (cell numbers.now at))) ∷ [])) }
{
    let mut buffer = Buffer::new();
    add_count(out, at as u32 + 1)?;
    out.push(b':')?;
    out.extend_from_slice(buffer.format(numbers[at]).as_bytes())
}

/// Adds the factors that are not 0, each behind its number and after a space.
#[tactic(auto, using(crate::proofs::Adding::sparse_factors))]
fn add_sparse(out: &mut Vec<u8>, numbers: &[i128]) -> Result<(), AllocError>
    requires few { length numbers.now ≤ 512 }
    ensures { OnOk result (out.new.items ≡ out.old.items ++ spaced (sparse 1 numbers.now)) }
{
    for at in 0..numbers.len() {
        if numbers[at] != 0 {
            add_numbered(out, numbers, at)?;
        }
    }
    Ok(())
}

/// Adds the factors of a leaf.
fn add_factors(out: &mut Vec<u8>, second: bool, numbers: &[i128]) -> Result<(), AllocError>
    requires few { length numbers.now ≤ 512 }
    ensures { OnOk result (out.new.items ≡ out.old.items ++ spaced (factors second numbers.now)) }
{
    if second {
        add_sparse(out, numbers)
    } else {
        add_numbers(out, numbers)
    }
}

/// Adds a whole number after a space.
#[tactic(auto, using(crate::proofs::Adding::adding))]
fn add_whole(out: &mut Vec<u8>, number: i128) -> Result<(), AllocError>
    ensures { OnOk result (out.new.items ≡ out.old.items ++ spaced (signed_decimal number ∷ [])) }
{
    let mut buffer = Buffer::new();
    add_word(out, buffer.format(number).as_bytes())
}

// ---- lines
/// Ends a line.
fn end_line(out: &mut Vec<u8>) -> Result<(), AllocError>
    ensures { OnOk result (out.new.items ≡ out.old.items ++ 10 ∷ []) }
{
    out.push(b'\n')?;
    Ok(())
}

/// Adds the line of a branch.
#[tactic(auto, using(crate::proofs::Adding::adding))]
fn add_branch(out: &mut Vec<u8>, pair: u32) -> Result<(), AllocError>
    ensures { OnOk result (out.new.items ≡ out.old.items ++ line (codes "branch") (decimal pair ∷ [])) }
{
    out.extend_from_slice(b"branch")?;
    add_count(out, pair)?;
    end_line(out)
}

/// Adds the line of a leaf that refutes.
#[tactic(auto, using(crate::proofs::Adding::adding))]
fn add_farkas(out: &mut Vec<u8>, second: bool, numbers: &[i128]) -> Result<(), AllocError>
    requires few { length numbers.now ≤ 512 }
    ensures { OnOk result (out.new.items ≡ out.old.items ++ line (codes "farkas") (factors second numbers.now)) }
{
    out.extend_from_slice(b"farkas")?;
    add_factors(out, second, numbers)?;
    end_line(out)
}

/// Adds the line of a leaf that bounds.
#[tactic(auto, using(crate::proofs::Adding::bounding))]
fn add_bound(
    out: &mut Vec<u8>,
    second: bool,
    weight: i128,
    numbers: &[i128],
) -> Result<(), AllocError>
    requires few { length numbers.now ≤ 512 }
    ensures { OnOk result (out.new.items ≡ out.old.items ++ line (codes "bound") (signed_decimal weight ∷ factors second numbers.now)) }
{
    out.extend_from_slice(b"bound")?;
    add_whole(out, weight)?;
    add_factors(out, second, numbers)?;
    end_line(out)
}

/// Adds the line of a node.
pub fn add_node(out: &mut Vec<u8>, second: bool, node: &Node) -> Result<(), AllocError>
    requires few { HasFew node.now }
    ensures { OnOk result (out.new.items ≡ out.old.items ++ node_text second node.now) }
{
    match node {
        Node::Branch(pair) => add_branch(out, *pair),
        Node::Farkas(numbers) => add_farkas(out, second, numbers.as_slice()),
        Node::Bound(weight, numbers) => add_bound(out, second, *weight, numbers.as_slice()),
    }
}

/// Adds the line of a point.
#[tactic(auto, using(crate::proofs::Adding::adding))]
pub fn add_point(out: &mut Vec<u8>, values: &[Frac]) -> Result<(), AllocError>
    ensures { OnOk result (out.new.items ≡ out.old.items ++ point_text values.now) }
{
    out.extend_from_slice(b"point")?;
    add_fractions(out, values)?;
    end_line(out)
}

/// Adds the line of a ray's step.
#[tactic(auto, using(crate::proofs::Adding::adding))]
pub fn add_ray(out: &mut Vec<u8>, values: &[Frac]) -> Result<(), AllocError>
    ensures { OnOk result (out.new.items ≡ out.old.items ++ ray_text values.now) }
{
    out.extend_from_slice(b"ray")?;
    add_fractions(out, values)?;
    end_line(out)
}

/// Adds the line of a pair.
#[tactic(auto, using(crate::proofs::Adding::adding))]
pub fn add_pair(out: &mut Vec<u8>, pair: (u32, u32)) -> Result<(), AllocError>
    ensures { OnOk result (out.new.items ≡ out.old.items ++ pair_text pair) }
{
    out.extend_from_slice(b"pair")?;
    add_count(out, pair.0)?;
    add_count(out, pair.1)?;
    end_line(out)
}

/// Adds the lines of the pairs.
#[tactic(auto, using(crate::proofs::Adding::pairing))]
pub fn add_pairs(out: &mut Vec<u8>, pairs: &[(u32, u32)]) -> Result<(), AllocError>
    ensures { OnOk result (out.new.items ≡ out.old.items ++ pairs_text pairs.now) }
{
    for at in 0..pairs.len() {
        add_pair(out, pairs[at])?;
    }
    Ok(())
}

/// Adds the line of the counts.
#[tactic(auto, using(crate::proofs::Adding::adding))]
pub fn add_counts(
    out: &mut Vec<u8>,
    base: u32,
    quantities: u32,
    pairs: u32,
) -> Result<(), AllocError>
    ensures { OnOk result (out.new.items ≡ out.old.items ++ line (codes "rows") (decimal base ∷ (decimal quantities ∷ (decimal pairs ∷ [])))) }
{
    out.extend_from_slice(b"rows")?;
    add_count(out, base)?;
    add_count(out, quantities)?;
    add_count(out, pairs)?;
    end_line(out)
}
