// Plays a list of calls on a newly opened session, and prints what came of each.
use anyhow::Error;
use names::{Named, PixelFormat, Source, Value};
use negotiation::PLAN_ROOM;
use scanner::{Point, Scanner};
use session::{Answer, Call, Turn, run};
use std::alloc::{AllocError, Global};
use std::io;
use std::io::Write;
use table::Record;
use text::MAX_LENGTH;

// Room for every reply that is asked for here.
const BUFFER_ROOM: usize = 512;

// What a lent buffer is filled with.
const FILLING: u8 = b'.';

// A call, with how much is lent to it.
#[derive(Clone, Copy)]
pub(crate) enum Step {
    // A text, and how many records the work table has.
    Submit(&'static [u8], usize),
    // A text of spaces, a byte longer than the longest that is read, with a full table.
    SubmitTooLong,
    Restart,
    // How many bytes the buffer has.
    Reply(usize),
    Setting(Point),
    Enabled(Source, PixelFormat),
}

impl Step {
    // The call, which takes what it needs of the table and the buffer.
    fn call<'a>(self, spaces: &'a [u8], table: &'a mut [Record], buffer: &'a mut [u8]) -> Call<'a> {
        match self {
            Step::Submit(text, room) => {
                let room = room.min(table.len());
                Call::Submit(text, &mut table[..room])
            }
            Step::SubmitTooLong => Call::Submit(spaces, table),
            Step::Restart => Call::Restart,
            Step::Reply(room) => {
                let room = room.min(buffer.len());
                Call::Reply(&mut buffer[..room])
            }
            Step::Setting(point) => Call::Setting(point),
            Step::Enabled(source, format) => Call::Enabled(source, format),
        }
    }
}

// The calls of these steps: to each a table and a buffer of its own.
fn calls<'a>(
    heap: Global,
    steps: &[Step],
    spaces: &'a [u8],
    tables: &'a mut [Record],
    buffers: &'a mut [u8],
) -> Result<Vec<Call<'a>>, AllocError> {
    let mut calls = Vec::with_capacity(heap, steps.len())?;
    let lent = tables
        .chunks_mut(PLAN_ROOM)
        .zip(buffers.chunks_mut(BUFFER_ROOM));
    for (step, (table, buffer)) in steps.iter().zip(lent) {
        calls.push(step.call(spaces, table, buffer))?;
    }
    Ok(calls)
}

// Prints bytes as they are.
pub(crate) fn write(rt: &HostRuntime, bytes: &[u8]) -> io::Result<()> {
    rt.stdout().write_all(bytes)
}

pub(crate) fn print_value(rt: &HostRuntime, value: Option<Value>) -> io::Result<()> {
    match value {
        Some(Value::Number(n)) => print!(rt; "{n}"),
        Some(Value::Word(word)) => write(rt, word.name()),
        None => print!(rt; "-"),
    }
}

fn print_pair(rt: &HostRuntime, source: Source, format: PixelFormat) -> io::Result<()> {
    print!(rt; " ")?;
    write(rt, source.name())?;
    print!(rt; " ")?;
    write(rt, format.name())
}

fn print_answer(rt: &HostRuntime, answer: Answer) -> io::Result<()> {
    print!(rt; "  ")?;
    match answer {
        Answer::Submitted(Ok(())) => print!(rt; "accepted"),
        Answer::Submitted(Err(fault)) => print!(rt; "{fault}"),
        Answer::Restarted => print!(rt; "restarted"),
        Answer::Replied(Ok(size)) => print!(rt; "{size} bytes"),
        Answer::Replied(Err(fault)) => {
            let number = fault.number();
            print!(rt; "refused {number}")
        }
        Answer::Setting(value) => print_value(rt, value),
        Answer::Enabled(true) => print!(rt; "enabled"),
        Answer::Enabled(false) => print!(rt; "not enabled"),
    }
}

// What was asked about, or what the lent buffer holds.
fn print_call(rt: &HostRuntime, call: Call<'_>) -> io::Result<()> {
    match call {
        Call::Submit(..) | Call::Restart => Ok(()),
        Call::Reply(buffer) => {
            print!(rt; " ")?;
            write(rt, buffer)
        }
        Call::Setting(point) => {
            print_pair(rt, point.source, point.format)?;
            print!(rt; " ")?;
            write(rt, point.attribute.name())
        }
        Call::Enabled(source, format) => print_pair(rt, source, format),
    }
}

// Prints the name of the list, then a line for each call.
pub(crate) fn play<S: Scanner + Drop>(
    rt: &HostRuntime,
    name: &str,
    scanner: S,
    steps: &[Step],
) -> anyhow::Result<()> {
    let heap = rt.alloc();
    let mut tables = vec![in heap; Record::Vacant; steps.len().saturating_mul(PLAN_ROOM)]?;
    let mut buffers = vec![in heap; FILLING; steps.len().saturating_mul(BUFFER_ROOM)]?;
    let spaces = vec![in heap; b' '; MAX_LENGTH + 1]?;
    let calls = calls(heap, steps, &spaces, &mut tables, &mut buffers)?;
    let Ok((session, turns)) = run(heap, scanner, calls) else {
        return Err(Error::msg("no memory for a session"));
    };
    drop(session.close());
    println!(rt; "{name}")?;
    for turn in turns {
        let Turn { call, answer } = turn;
        print_answer(rt, answer)?;
        print_call(rt, call)?;
        println!(rt; "")?;
    }
    Ok(())
}
