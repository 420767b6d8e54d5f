// Laying out a source: read as a value, encoded as its document, and laid out in the best way.
ghost use Rattle.std.specs.Prelude.{◌≤◌, length, IfOk};
ghost use Rattle.calls.specs.Calling.{CallSays};

use crate::call::CallRoom;
use crate::error::CallError;
use crate::lexer::Source;
use crate::rule::{Rule, unambiguous};
use layout::laid::Laid;
use layout::refusal::Refusal;

// The best layout of the document of the value that a source is, or what is wrong with it. The width and the buffer are parameters as `lay_out` has them.
pub fn set_call<'x>(
    room: &mut CallRoom,
    rules: &'x [Rule],
    source: &'x [u8],
    width: u64,
    out: &mut [u8],
) -> Result<Laid, CallError>
    ensures says { CallSays rules.now source.now width out.old result out.new }
    ensures within { IfOk result (λ laid. laid.length ≤ length out.old) }
{
    if !unambiguous(rules) {
        return Err(CallError::Ambiguous);
    }
    let source = Source {
        rules,
        bytes: source,
    };
    room.reader.check(&source)?;
    // No `?`: a `From<Full>` would say of every full row that it is no document.
    let Ok(()) = room.encoder.encode(&source) else {
        return Err(CallError::Refused(Refusal::NotDocument));
    };
    let encoded = room.encoder.out.as_slice();
    Ok(room.room.lay_out(encoded, width, out)?)
}
