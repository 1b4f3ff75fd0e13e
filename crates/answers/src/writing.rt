// The answer to a text that was submitted.
ghost use Rattle.std.specs.Prelude.{◌≡◌};
ghost use Rattle.answers.specs.Answering.{Answers};
ghost use Rattle.session.specs.Held.{items_of};

use scanner::Scanner;
use session::{OutputFault, Session, SubmitFault, complaint};

// Writes the reply into the buffer, or the complaint where the text was refused: how many bytes.
pub(crate) fn put_answer<S: Scanner>(
    session: &Session<S>,
    drew: Result<(), SubmitFault>,
    buffer: &mut [u8],
) -> Result<usize, OutputFault>
    ensures { Answers drew (items_of session.now.kept) buffer.old buffer.new result }
{
    // No `map_or_else`: both of its closures would take the buffer.
    match drew {
        Ok(()) => session.reply(buffer),
        Err(fault) => complaint(&fault, buffer),
    }
}
