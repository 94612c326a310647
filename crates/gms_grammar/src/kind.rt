//! The kinds of model texts.

/// What the model statement names and by what the solve statement solves.
#[derive(Clone, Copy, Debug, PartialEq, Eq)]
pub enum Kind {
    /// `/ all /` and `using emp`, for a file with an annotation.
    Agents,
    /// `/ EQUATION.VARIABLE, .. /` and `using mcp`.
    Matches,
}
