//! Where things stand in a picture.
ghost use Rattle.std.specs.Prelude.{◌+◌, ◌*◌, ◌≤◌};

/// The width of a picture.
pub const WIDTH: u32 = 800;

/// Where the number of a line ends.
pub const NUMBER_AT: u32 = 30;

/// Where the words of a line begin.
pub const WORDS_AT: u32 = 36;

/// The height of a row of words.
pub const ROW: u32 = 15;

/// The height of a badge with what is below it.
pub const BADGE_ROW: u32 = 19;

/// How many units a letter of a line takes, in tenths.
const LETTER: u32 = 66;

/// A picture's lanes: where the first stands, and how far each is from the next.
#[derive(Clone, Copy)]
pub struct Layout {
    /// Where what belongs to the lanes begins.
    pub left: u32,
    first: u32,
    step: u32,
}

impl Layout {
    /// The layout for so many lanes.
    pub fn of(lanes: usize) -> Layout {
        if lanes <= 4 {
            Layout::spread(300, 60, lanes)
        } else {
            Layout::spread(230, 40, lanes)
        }
    }

    /// So many lanes, spread over what is left between two margins behind the words.
    fn spread(left: u32, margin: u32, lanes: usize) -> Layout
        requires { left + 2 * margin ≤ 800 }
    {
        let room = WIDTH - left - 2 * margin;
        if lanes <= 1 {
            return Layout {
                left,
                first: left + margin + room / 2,
                step: room,
            };
        }
        let between = (lanes as u64).saturating_sub(1).clamp(1, 1_000) as u32;
        Layout {
            left,
            first: left + margin,
            step: room / between,
        }
    }

    /// Where a lane stands.
    pub fn lane(&self, place: usize) -> u32 {
        let place = (place as u64).min(1_000) as u32;
        self.first.saturating_add(place.saturating_mul(self.step))
    }

    /// How wide what stands on a lane may be, without reaching the next.
    pub fn room(&self) -> u32 {
        self.step.saturating_sub(8).clamp(30, 150)
    }

    /// How many letters of a line find room beside the lanes.
    pub fn letters(&self) -> usize {
        (self.left.saturating_sub(WORDS_AT + 6).saturating_mul(10) / LETTER) as usize
    }
}
