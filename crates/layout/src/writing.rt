// Writing: from the left to the right, by the decisions that the search has noted.
ghost use Rattle.std.specs.Prelude.{◌≡◌, ℕ, ◌+◌, ◌-◌, ◌≤◌, min, false, length, slice_index_or};
ghost use Rattle.cost.specs.Layout.{Layout, with_text, with_line};
ghost use Rattle.cost.specs.Chosen.{decided};
ghost use Rattle.layout.specs.Writing.{Holds, SameButLeft, Task, Wrote, Writes};

use crate::plan::Plan;
use crate::writer::{MOST_LAYOUT, Writer};
use cost::price::Mode;
use doc::node::Kind;
use doc::reader::NEWLINE;
use doc::reserved::Full;

const BLANK: u8 = b' ';

impl Writer {
    // Text at the column.
    fn text(&mut self, text: &[u8]) -> Result<(), Full>
        requires { length text.now ≤ 255 }
        ensures { (l : Layout) (left : ℕ) → Holds self.old l left → Wrote self.new (with_text text.now l) left result }
    {
        self.out.try_extend_from_slice(text)?;
        self.column += text.len();
        Ok(())
    }

    // The end of a line, and the blanks that the next one begins with: one test of the room for both, so it is this one's own.
    fn newline(&mut self, indent: usize) -> Result<(), Full>
        requires { indent ≤ 16777216 }
        ensures { (w : ℕ) (l : Layout) (left : ℕ) → Holds self.old l left → Wrote self.new (with_line w indent l) left result }
    {
        let end = self.out.len() + 1 + indent;
        if end > MOST_LAYOUT {
            return Err(Full);
        }
        self.out.push(NEWLINE);
        self.out.resize(end, BLANK);
        self.column = indent;
        self.lines += 1;
        Ok(())
    }

    // The mode of a group's parts, by the last of the notes that are left, at the column where the group begins.
    fn decide(&mut self, plan: &Plan, mode: Mode) -> Mode
        requires some { plan.now.width + 1 ≤ self.old.left }
        requires within { self.old.left ≤ length plan.now.notes.now }
        ensures mode { result ≡ decided mode (slice_index_or plan.now.notes.now (self.old.left - (plan.now.width + 1) + min self.old.column plan.now.width) false) }
        ensures same { SameButLeft self.old self.new (self.old.left - (plan.now.width + 1)) }
    {
        let width = usize::from(plan.width);
        self.left -= width + 1;
        let breaks = plan.notes[self.left + self.column.min(width)];
        match mode {
            Mode::Broken if breaks => Mode::Broken,
            _ => Mode::Flat,
        }
    }

    // Writes the document at a node. Where, how far in and in which mode are parameters of their own, since a struct of them would be made anew in each frame.
    pub(crate) fn write(
        &mut self,
        plan: &Plan,
        at: usize,
        indent: usize,
        mode: Mode,
    ) -> Result<(), Full>
        requires { Task plan.now at indent self.old.left }
        ensures { Writes plan.now at indent mode self.old self.new result }
    {
        let kind = plan.nodes[at].kind;
        match kind {
            Kind::Nil => Ok(()),
            Kind::Text(start, len) => {
                // By `as`, since `usize` has no `From<u32>`.
                let start = start as usize;
                let end = start + usize::from(len);
                // No `get`: that the text is there is known of the task.
                self.text(&plan.source[start..end])
            }
            Kind::Cat => {
                let second = plan.nodes[at + 1].end as usize;
                self.write(plan, at + 1, indent, mode)?;
                self.write(plan, second, indent, mode)
            }
            Kind::Nest(k) => self.write(plan, at + 1, indent + usize::from(k), mode),
            Kind::Line => match mode {
                Mode::Flat => self.text(b" "),
                Mode::Broken => self.newline(indent),
            },
            Kind::Group => {
                let inner = self.decide(plan, mode);
                self.write(plan, at + 1, indent, inner)
            }
        }
    }
}
