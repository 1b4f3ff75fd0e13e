// A text for a new session.
ghost use Rattle.std.specs.Prelude.{◌≡◌, [], ◌∷◌, length, IfOk, IfErr, OnErr, Result};
ghost use Rattle.answers.specs.Answering.{Answers};
ghost use Rattle.answers.specs.Opening.{FirstText, first_drew};
ghost use Rattle.session.specs.declared.fault.SubmitFault.{SubmitFault};
ghost use Rattle.session.specs.declared.runs.Turn.{Turn};
ghost use Rattle.session.specs.Held.{items_of};
ghost use Rattle.session.specs.Promise.{HoldsChosen, KeepsChosen};

use crate::writing::put_answer;
use scanner::Scanner;
use session::{Answer, Call, NoMemory, NoRun, OutputFault, Session, SubmitFault, Turn, run};
use std::alloc::Global;
use table::Record;

// What the first turn drew, where that submitted a text.
fn first_drew(turns: &[Turn<'_>]) -> Result<(), SubmitFault>
    ensures { result ≡ first_drew turns.now }
{
    match turns.first().map(|turn| turn.answer) {
        Some(Answer::Submitted(drew)) => drew,
        _ => Ok(()),
    }
}

// Opens a session, submits a text, and writes the reply into the buffer, or the complaint where the text is refused.
pub fn open_and_answer<S: Scanner>(
    heap: Global,
    scanner: S,
    text: &[u8],
    table: &mut [Record],
    buffer: &mut [u8],
) -> Result<(Session<S>, Result<usize, OutputFault>), NoMemory<S>>
    ensures same { IfOk result (λ x. S.catalogue x.0.scanner ≡ S.catalogue scanner) }
    ensures answered { IfOk result (λ x. (turn : Turn) × (drew : Result (Unit {0}) SubmitFault) × FirstText (S.catalogue scanner) text.now (length table.old) turn drew × HoldsChosen (S.catalogue scanner) (turn ∷ []) (S.state x.0.scanner) × KeepsChosen (S.catalogue scanner) (turn ∷ []) (items_of x.0.kept) × Answers drew (items_of x.0.kept) buffer.old buffer.new x.1) }
    ensures back { IfErr result (λ e. e.scanner ≡ scanner) }
    ensures untouched { OnErr result (buffer.new ≡ buffer.old) }
{
    let Ok(mut calls) = Vec::with_capacity(heap, 1) else {
        return Err(NoMemory { scanner });
    };
    calls.push_reserved(Call::Submit(text, table));
    let (session, turns) = match run(heap, scanner, calls) {
        Ok(ran) => ran,
        Err(NoRun { scanner, calls: _ }) => return Err(NoMemory { scanner }),
    };
    let drew = first_drew(&turns);
    let told = put_answer(&session, drew, buffer);
    Ok((session, told))
}
