//! What a statement returns next.

ghost use Rattle.std.specs.Prelude.{◌≡◌};
ghost use Rattle.statements.specs.StatementRows.{first_phase};

use table_model::queries::Explain;

/// What a statement returns next.
#[derive(Clone, Copy)]
pub enum Phase {
    /// The rows or pairs of rows that its query means.
    Rows,
    /// The number of rows. This many are already counted.
    Count(u64),
    /// The lines of its plan, which isn't written yet.
    Plan,
    /// The lines of its plan and the line of its work. The plan's rows aren't all found yet.
    Analysis,
    /// The remaining lines.
    Lines,
    /// Nothing.
    Nothing,
}

/// What a statement returns first.
pub(crate) fn first_phase(explain: Explain, counts: bool) -> Phase
    ensures { result ≡ first_phase explain counts }
{
    match explain {
        Explain::No => { if counts { Phase::Count(0) } else { Phase::Rows } }
        Explain::Plan => Phase::Plan,
        Explain::Analyze => Phase::Analysis,
    }
}
