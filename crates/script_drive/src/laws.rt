//! Laws of lines and of what they print, for a step of any kind.
ghost use Rattle.std.specs.Prelude.{◌≡◌, ℕ, Bool, true, List, [], All};
ghost use Rattle.script_drive.specs.Lines.{IsUnbroken, whole_lines};
ghost use Rattle.script_drive.specs.Runs.{Stepped, is_stopped};
ghost use Rattle.script_drive.specs.Fed.{RunState};
ghost use Rattle.script_drive.specs.Laws.{LinesJoin, LinesAreThese, LinesOfPieces, FrontIsPrinted, StopIsLast, GoesOn, StepsKeep, HoldsThroughout, StopEndsReading, LimitsComeFirst};

/// Each byte stands in one line or behind the last, and no line goes over an end.
pub fn lines_join_to_the_bytes()
    ensures { (bytes : List ℕ) → LinesJoin bytes }
{}

/// Bytes are parted into lines in one way only.
pub fn lines_are_these()
    ensures { (lines : List (List ℕ)) (rest : List ℕ) → All IsUnbroken lines → IsUnbroken rest
        → LinesAreThese lines rest }
{}

/// It makes no difference how bytes are cut into pieces.
pub fn lines_of_pieces()
    ensures { (front first second : List ℕ) → LinesOfPieces front first second }
{}

/// What has been printed of a front stays, whatever follows.
pub fn front_is_printed<W>()
    ensures { (step : W → ℕ → List ℕ → Stepped W) (w : W) (n : ℕ) (read rest : List ℕ)
        → FrontIsPrinted step w n read rest }
{}

/// A line that ends the run is the last that prints.
pub fn stop_is_last<W>()
    ensures { (step : W → ℕ → List ℕ → Stepped W) (w : W) (n : ℕ) (lines more : List (List ℕ))
        → StopIsLast step w n lines more }
{}

/// A run that was fed a piece goes on as one that had started where it stands.
pub fn run_goes_on<W>()
    ensures { (step : W → ℕ → List ℕ → Stepped W) (old : RunState W) (bytes out : List ℕ) (new : RunState W)
        (rest : List ℕ) → GoesOn step old bytes out new rest }
{}

/// What each step keeps holds of every state of a run.
pub fn what_steps_keep_holds<W>()
    ensures { (step : W → ℕ → List ℕ → Stepped W) (holds : W → Bool) → StepsKeep step holds
        → HoldsThroughout step holds }
{}

/// Behind a line that ends the run nothing is read but the rest of its piece.
pub fn stop_ends_reading<W>()
    ensures { (step : W → ℕ → List ℕ → Stepped W) (start : W) (most : ℕ) (read more left written : List ℕ)
        → is_stopped step start 1 (whole_lines [] read) ≡ true → StopEndsReading step start most read more left written }
{}

/// What the limits of a script's lines refuse.
pub fn limits_come_first<W>()
    ensures { (step : W → ℕ → List ℕ → Stepped W) (most_lines most_bytes : ℕ)
        (refusal : ℕ → ℕ → List ℕ) (w : W) (n : ℕ) (line : List ℕ)
        → LimitsComeFirst step most_lines most_bytes refusal w n line }
{}
