// What is known of a layout that was written.
ghost use Rattle.std.specs.Prelude.{◌≤◌};

#[derive(Clone, Copy, Debug, PartialEq, Eq)]
pub struct Laid {
    // How many lines ended.
    pub lines: usize,
    // How many bytes the layout has: no slice of the buffer, which would stay lent as long as the answer is kept.
    pub length: usize,
    ghost few: { lines ≤ 131072 },
    ghost short: { length ≤ 131072 },
}
