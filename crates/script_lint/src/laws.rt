//! What is found in a script tells of its runs.
ghost use Rattle.script_lint.specs.Laws.{MalformedLinesEndRuns};

/// A run of a script ends early exactly where one of its lines is told as malformed.
pub fn malformed_lines_end_runs()
    ensures { MalformedLinesEndRuns }
{}
