// The entry: an encoded document, a width and an output buffer in; the best layout in the buffer, or a refusal.
ghost use Rattle.std.specs.Prelude.{◌≡◌, ◌<◌, ◌≤◌, ◌++◌, length, drop, IfOk, MatchOption};
ghost use Rattle.doc.specs.Nodes.{RowOf};
ghost use Rattle.layout.specs.Entry.{LaidOut, LaysOut, refusal, reply_length, SetSays};

use crate::laid::Laid;
use crate::plan::Plan;
use crate::refusal::Refusal;
use crate::reply::Reply;
use crate::tree::Tree;
use crate::watch::{Stage, Unwatched, Watch};
use crate::workspace::Workspace;
use cost::price::Mode;
use doc::reserved::Full;

// A layout has at most so many bytes.
pub use crate::writer::MOST_LAYOUT;

// The widest that a layout may be; by `as`, since a constant takes no `from`.
pub const MOST_WIDTH: u64 = u8::MAX as u64;

// A width that can be. Only here is the widest a bound in a clause; behind it the type says it.
fn narrow(width: u64) -> Option<u8>
    ensures { MatchOption result (255 < width) (λ w. (w ≡ width) × (width ≤ 255)) }
{
    // The check goes by the type, so the constant that callers read is held here: in a `const` item, no must-fail edit of it would reach the prover.
    prove!(MOST_WIDTH == 255);
    u8::try_from(width).ok()
}

// Copies a layout to the beginning of a buffer, where it fits, and answers how long it is.
fn copied(layout: &[u8], out: &mut [u8]) -> Option<usize>
    ensures { MatchOption result ((length out.old < length layout.now) × (out.new ≡ out.old)) (λ n. (n ≡ length layout.now) × (n ≤ length out.old) × (out.new ≡ layout.now ++ drop n out.old)) }
{
    let len = layout.len();
    // By get_mut it got no proof: where there is no such part, nothing is said of what the buffer holds then.
    if out.len() < len {
        return None;
    }
    let front = &mut out[0..len];
    front.copy_from_slice(layout);
    Some(len)
}

impl Workspace {
    // Writes the best layout of the document that was read, and answers how many lines ended, where it is not too long.
    fn compose<W: Watch>(&mut self, spelled: &[u8], width: u8, watch: &mut W) -> Result<usize, Full>
        requires { RowOf spelled.now self.old.nodes.row }
        ensures { LaidOut spelled.now width self.new.writer.out result }
    {
        let nodes = self.nodes.as_slice();
        self.search.begin(width);
        self.search.search(&Tree { nodes }, 0, 0);
        watch.ended(Stage::Searching);
        let notes = self.search.notes.as_slice();
        let plan = Plan {
            nodes,
            source: spelled,
            notes,
            width,
        };
        self.writer.begin(notes.len());
        self.writer.write(&plan, 0, 0, Mode::Broken)?;
        Ok(self.writer.lines)
    }

    // Lays an encoded document out in the best way at a width, at the beginning of a buffer, with a watch that is told of each stage that ends.
    pub fn lay_out_watched<W: Watch>(
        &mut self,
        spelled: &[u8],
        width: u64,
        out: &mut [u8],
        watch: &mut W,
    ) -> Result<Laid, Refusal>
        ensures laid { LaysOut spelled.now width out.old (refusal spelled.now width (length out.old)) result out.new }
        // Said here and wherever a layout is handed on, as callers cut the buffer by it: to find it in what was laid out they would go through the refusals.
        ensures within { IfOk result (λ laid. laid.length ≤ length out.old) }
    {
        // Each check hands its value on or leaves by `let .. else`: the project asks for this form, in the place of `?`.
        let Ok(()) = self.nodes.read(spelled) else {
            return Err(Refusal::NotDocument);
        };
        watch.ended(Stage::Reading);
        let Some(columns) = narrow(width) else {
            return Err(Refusal::TooWide);
        };
        let Ok(lines) = self.compose(spelled, columns, watch) else {
            return Err(Refusal::TooLong);
        };
        let Some(length) = copied(self.writer.out.as_slice(), out) else {
            return Err(Refusal::NoRoom);
        };
        watch.ended(Stage::Writing);
        Ok(Laid { lines, length })
    }

    // Lays an encoded document out in the best way at a width, at the beginning of a buffer: three parameters and no struct, as the project gives them.
    pub fn lay_out(&mut self, spelled: &[u8], width: u64, out: &mut [u8]) -> Result<Laid, Refusal>
        ensures laid { LaysOut spelled.now width out.old (refusal spelled.now width (length out.old)) result out.new }
        ensures within { IfOk result (λ laid. laid.length ≤ length out.old) }
    {
        self.lay_out_watched(spelled, width, out, &mut Unwatched)
    }
}

// The best layout of an encoded document at a width, or the first refusal that applies, in the form that was asked for.
pub fn set(room: &mut Workspace, spelled: &[u8], width: u64, out: &mut [u8]) -> Reply
    ensures says { SetSays spelled.now width out.old (refusal spelled.now width (length out.old)) result out.new }
    ensures within { reply_length result ≤ length out.old }
{
    room.lay_out(spelled, width, out).into()
}
