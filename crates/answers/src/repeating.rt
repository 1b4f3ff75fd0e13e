// A reply that is submitted.
ghost use Rattle.std.specs.Prelude.{◌≡◌, ◌≤◌, length};
ghost use Rattle.table.specs.Limits.{max_weight};
ghost use Rattle.session.specs.Held.{items_of};
ghost use Rattle.session.specs.Output.{WrittenInto};
ghost use Rattle.session.specs.Reply.{reply_text};

use scanner::Scanner;
use session::{OutputFault, Session, complaint};
use table::Record;

// Submits the session's own reply to it, and writes the reply again: how many bytes.
// With a full work table the task is accepted and sets the same, so both replies are the same text.
pub fn resubmit<S: Scanner>(
    session: &mut Session<S>,
    table: &mut [Record],
    buffer: &mut [u8],
) -> Result<usize, OutputFault>
    ensures same { S.catalogue session.new.scanner ≡ S.catalogue session.old.scanner }
    ensures kept { max_weight ≤ length table.old → items_of session.new.kept ≡ items_of session.old.kept }
    ensures state { max_weight ≤ length table.old → S.state session.new.scanner ≡ S.state session.old.scanner }
    ensures reply { max_weight ≤ length table.old → WrittenInto (reply_text (items_of session.old.kept)) buffer.old buffer.new result }
{
    let size = session.reply(buffer)?;
    if let Err(fault) = session.submit(&buffer[..size], table) {
        return complaint(&fault, buffer);
    }
    session.reply(buffer)
}
