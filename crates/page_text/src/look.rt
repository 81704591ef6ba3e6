//! How the things of a page look.
ghost use Rattle.std.specs.Prelude.{◌≡◌};
ghost use Rattle.page_text.specs.Looks.{look_name};

/// How a thing of a page looks. The style sheet tells each apart by its shape, and not by its colour alone.
#[derive(Clone, Copy, Debug, PartialEq, Eq)]
pub enum Look {
    /// A thick grey line.
    Lane,
    /// A thin grey line.
    ThinLane,
    /// A line with long dashes.
    LateLane,
    /// Black on white.
    Plain,
    /// Small and grey.
    Faint,
    /// Each byte as wide as the others.
    Script,
    /// In italics.
    Note,
    /// A name above a lane.
    Name,
    /// White on black.
    Strong,
    /// Dark on light green, in a frame.
    Good,
    /// White on dark red.
    Bad,
    /// On white, in a thick green frame.
    Mended,
    /// Grey on white, in a frame of dashes.
    Gone,
    /// Brown on white, in a frame of dots.
    Waiting,
    /// A black line.
    Sent,
    /// A thin grey line.
    Again,
    /// A red line of dashes.
    Lost,
    /// A brown line of dashes.
    Held,
    /// A grey line of dots.
    Back,
    /// A thick blue line.
    Fetched,
    /// A line of red dots.
    Down,
    /// A line of green dots.
    Up,
    /// In bold red.
    Refused,
    /// A cell as any other.
    Same,
    /// A cell in bold on yellow, in a thick frame.
    Differs,
}

impl Look {
    /// Its name in the style sheet.
    pub(crate) fn name(self) -> &'static [u8]
        ensures { result.now ≡ look_name self }
    {
        match self {
            Look::Lane => b"lane",
            Look::ThinLane => b"thin-lane",
            Look::LateLane => b"late-lane",
            Look::Plain => b"plain",
            Look::Faint => b"faint",
            Look::Script => b"script",
            Look::Note => b"note",
            Look::Name => b"name",
            Look::Strong => b"strong",
            Look::Good => b"good",
            Look::Bad => b"bad",
            Look::Mended => b"mended",
            Look::Gone => b"gone",
            Look::Waiting => b"waiting",
            Look::Sent => b"sent",
            Look::Again => b"again",
            Look::Lost => b"lost",
            Look::Held => b"held",
            Look::Back => b"back",
            Look::Fetched => b"fetched",
            Look::Down => b"down",
            Look::Up => b"up",
            Look::Refused => b"refused",
            Look::Same => b"same",
            Look::Differs => b"differs",
        }
    }
}
