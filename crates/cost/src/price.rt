// A layout's cost, by value, and the modes that a part of a document can be laid out in.
ghost use Rattle.std.specs.Prelude.{◌≡◌};
ghost use Rattle.cost.specs.Price.{beats, capped, further, line_more};

// More bytes beyond the width than the longest layout that is not refused has bytes: one more than the crate above this one says.
pub const LIMIT: u32 = 131_073;

// How a line is laid out: as a blank, or as the end of a line.
#[derive(Clone, Copy, Debug, PartialEq, Eq)]
pub enum Mode {
    Flat,
    Broken,
}

// Bytes beyond the width, and lines ended. Costs are compared by the bytes, and by the lines where those are as many.
#[derive(Clone, Copy, Debug, Default, PartialEq, Eq, PartialOrd, Ord)]
pub struct Cost {
    pub beyond: u32,
    pub lines: u32,
}

impl Cost {
    // Fewer bytes beyond the width, or as many and fewer lines.
    pub fn beats(self, other: Cost) -> bool
        ensures { result ≡ beats self other }
    {
        self < other
    }

    // The cost of so many bytes beyond the width and so many lines; from the limit on, costs are not told apart.
    fn capped(beyond: usize, lines: u32) -> Cost
        ensures { result ≡ capped beyond lines }
    {
        if beyond < LIMIT as usize {
            Cost {
                beyond: beyond as u32,
                lines,
            }
        } else {
            Cost {
                beyond: LIMIT,
                lines: 0,
            }
        }
    }

    // The cost with n bytes more beyond the width.
    pub fn further(self, n: usize) -> Cost
        ensures { result ≡ further self n }
    {
        Cost::capped((self.beyond as usize).saturating_add(n), self.lines)
    }

    // The cost with one line more.
    pub fn line_more(self) -> Cost
        ensures { result ≡ line_more self }
    {
        Cost::capped(self.beyond as usize, self.lines.saturating_add(1))
    }
}
