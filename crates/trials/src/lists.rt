// Lists of calls: what was set stays set, and what was given up leaves nothing.
use crate::playing::{Step, play, print_value, write};
use answers::{answer, resubmit};
use anyhow::Error;
use names::{Attribute, PixelFormat, Source};
use negotiation::PLAN_ROOM;
use scanner::{Point, Scanner};
use scanners::Flatbed;
use session::Session;
use table::Record;
use table_scanner::{Fill, Given, TableScanner};

const HEIGHT: Point = Point {
    source: Source::FlatBed,
    format: PixelFormat::Gray8,
    attribute: Attribute::Height,
};

const CONTRAST: Point = Point {
    source: Source::FlatBed,
    format: PixelFormat::Gray8,
    attribute: Attribute::Contrast,
};

const CROPPING: Point = Point {
    source: Source::FlatBed,
    format: PixelFormat::Gray8,
    attribute: Attribute::Cropping,
};

const GRAY: Point = Point {
    source: Source::FlatBed,
    format: PixelFormat::Gray8,
    attribute: Attribute::Resolution,
};

const COLOR: Point = Point {
    source: Source::FlatBed,
    format: PixelFormat::Rgb24,
    attribute: Attribute::Resolution,
};

const FEEDER: Point = Point {
    source: Source::Feeder,
    format: PixelFormat::Bw1,
    attribute: Attribute::Resolution,
};

// Whether the two pairs of the scanners used here are enabled.
const GRAY_ENABLED: Step = Step::Enabled(Source::FlatBed, PixelFormat::Gray8);

const COLOR_ENABLED: Step = Step::Enabled(Source::FlatBed, PixelFormat::Rgb24);

// A text with a full work table.
fn submit(text: &'static [u8]) -> Step {
    Step::Submit(text, PLAN_ROOM)
}

// A table scanner with a height, whose power-on value is the whole page, a contrast and a cropping at gray8, and none at rgb24.
fn page_scanner(rt: &HostRuntime) -> anyhow::Result<TableScanner> {
    let mut scanner = TableScanner::new(rt.alloc())?;
    scanner.fill(&[
        Fill::Format(4, 4),
        Fill::Attribute(4, 2, 18, Given::Number(297_000)),
        Fill::Range(4, 2, 18, 1_000, 297_000, 500),
        Fill::Attribute(4, 2, 10, Given::Number(0)),
        Fill::Range(4, 2, 10, -100, 100, 5),
        Fill::Attribute(4, 2, 11, Given::Word(4)),
        Fill::Word(4, 2, 11, 3),
    ]);
    Ok(scanner)
}

// Gray at a height of 210 mm.
const LOWER: &[u8] =
    b"{\"actions\":[{\"streams\":[{\"sources\":[{\"pixelFormats\":[{\"attributes\":[{\"attribute\":\"height\",\"values\":[{\"value\":210000}]}]}]}]}]}]}";

// That height, then a feeder, which is not there: so the second stream is taken, which asks for no height.
const LOWER_OR_WHOLE: &[u8] =
    b"{\"actions\":[{\"streams\":[{\"sources\":[{\"pixelFormats\":[{\"attributes\":[{\"attribute\":\"height\",\"values\":[{\"value\":210000}]}]}]},{\"source\":\"feeder\"}]},{\"sources\":[{\"source\":\"flatBed\"}]}]}]}";

fn heights(rt: &HostRuntime) -> anyhow::Result<()> {
    play(
        rt,
        "a height of a stream that was given up",
        page_scanner(rt)?,
        &[
            submit(LOWER_OR_WHOLE),
            Step::Setting(HEIGHT),
            Step::Reply(127),
            GRAY_ENABLED,
            COLOR_ENABLED,
        ],
    )?;
    play(
        rt,
        "the same after a task with that height",
        page_scanner(rt)?,
        &[
            submit(LOWER),
            Step::Setting(HEIGHT),
            Step::Reply(190),
            submit(LOWER_OR_WHOLE),
            Step::Setting(HEIGHT),
            Step::Reply(124),
        ],
    )
}

// Color at 600 dots per inch.
const COLOR_600: &[u8] =
    b"{\"actions\":[{\"streams\":[{\"sources\":[{\"pixelFormats\":[{\"pixelFormat\":\"rgb24\",\"attributes\":[{\"attribute\":\"resolution\",\"values\":[{\"value\":600}]}]}]}]}]}]}";

// Gray at 150 dots per inch, and then an action that must have a feeder.
const THEN_A_FEEDER: &[u8] =
    b"{\"actions\":[{\"streams\":[{\"sources\":[{\"pixelFormats\":[{\"attributes\":[{\"attribute\":\"resolution\",\"values\":[{\"value\":150}]}]}]}]}]},{\"exception\":\"fail\",\"streams\":[{\"sources\":[{\"source\":\"feeder\"}]}]}]}";

// 70 dots per inch or nothing: the value closes the list before 100.
const CLOSED: &[u8] =
    b"{\"actions\":[{\"streams\":[{\"sources\":[{\"pixelFormats\":[{\"attributes\":[{\"attribute\":\"resolution\",\"values\":[{\"value\":70,\"exception\":\"ignore\"},{\"value\":100}]}]}]}]}]}]}";

fn settings(rt: &HostRuntime) -> anyhow::Result<()> {
    play(
        rt,
        "a later action is rejected",
        Flatbed::new(),
        &[
            submit(COLOR_600),
            submit(THEN_A_FEEDER),
            Step::Setting(COLOR),
            Step::Setting(GRAY),
            COLOR_ENABLED,
            GRAY_ENABLED,
            Step::Reply(194),
        ],
    )?;
    play(
        rt,
        "a closing value under ignore",
        Flatbed::new(),
        &[submit(CLOSED), Step::Setting(GRAY), Step::Reply(124)],
    )?;
    play(
        rt,
        "a restart after an accepted task",
        Flatbed::new(),
        &[
            submit(COLOR_600),
            Step::Setting(COLOR),
            Step::Restart,
            Step::Reply(127),
            Step::Setting(COLOR),
            Step::Setting(GRAY),
            GRAY_ENABLED,
            COLOR_ENABLED,
        ],
    )
}

// Texts that are no tasks, and one that is too heavy for its table: after each the scanner is as it was.
fn refusals(rt: &HostRuntime) -> anyhow::Result<()> {
    play(
        rt,
        "refused texts",
        Flatbed::new(),
        &[
            submit(COLOR_600),
            submit(b"{\"actions\":[}"),
            submit(b"[[[[[[[[[[[[[[[[[[[[[[[[["),
            Step::SubmitTooLong,
            submit(b"[]"),
            submit(b"{\"streams\":[]}"),
            submit(b"{\"actions\":7}"),
            submit(
                b"{\"actions\":[{\"streams\":[{\"sources\":[{\"pixelFormats\":[{\"attributes\":[{}]}]}]}]}]}",
            ),
            submit(b"{\"actions\":[],\"actions\":[]}"),
            submit(b"{\"actions\":[{},{},{},{},{},{},{},{},{}]}"),
            Step::Submit(b"{\"actions\":[{}]}", 3),
            Step::Reply(191),
            Step::Setting(COLOR),
            Step::Submit(b"{\"actions\":[{}]}", 4),
            Step::Setting(COLOR),
        ],
    )
}

// A buffer that is one byte too short, one of just the right length, and questions off the scanner's points and pairs.
fn rooms(rt: &HostRuntime) -> anyhow::Result<()> {
    play(
        rt,
        "room for a reply",
        Flatbed::new(),
        &[Step::Reply(123), Step::Reply(124)],
    )?;
    play(
        rt,
        "a feeder that is not there",
        Flatbed::new(),
        &[
            Step::Setting(FEEDER),
            Step::Enabled(Source::Feeder, PixelFormat::Bw1),
        ],
    )
}

// A contrast of -40, and what is offered of three ways of cropping.
const CONTRASTED: &[u8] =
    b"{\"actions\":[{\"streams\":[{\"sources\":[{\"pixelFormats\":[{\"attributes\":[{\"attribute\":\"contrast\",\"values\":[{\"value\":-42},{\"value\":-40}]},{\"attribute\":\"cropping\",\"values\":[{\"value\":\"off\"},{\"value\":7},{\"value\":\"automatic\"}]}]}]}]}]}]}";

// The reply to it.
const CONTRASTED_REPLY: &[u8] =
    b"{\"actions\":[{\"action\":\"configure\",\"streams\":[{\"sources\":[{\"source\":\"flatBed\",\"pixelFormats\":[{\"pixelFormat\":\"gray8\",\"attributes\":[{\"attribute\":\"contrast\",\"values\":[{\"value\":-40}]},{\"attribute\":\"cropping\",\"values\":[{\"value\":\"automatic\"}]}]}]}]}]}]}";

fn reply_submitted(rt: &HostRuntime) -> anyhow::Result<()> {
    play(
        rt,
        "a reply that is submitted",
        page_scanner(rt)?,
        &[
            submit(CONTRASTED),
            Step::Reply(250),
            Step::Restart,
            submit(CONTRASTED_REPLY),
            Step::Reply(247),
            Step::Setting(CONTRAST),
            Step::Setting(CROPPING),
            Step::Setting(HEIGHT),
        ],
    )
}

// The session's own reply, submitted to it by one call.
fn own_reply_submitted(rt: &HostRuntime) -> anyhow::Result<()> {
    let heap = rt.alloc();
    let mut table = vec![in heap; Record::Vacant; PLAN_ROOM]?;
    let mut first = [0; 250];
    let mut second = [0; 250];
    let mut session = Session::open(heap, page_scanner(rt)?).map_err(Error::msg)?;
    let answered = answer(&mut session, CONTRASTED, &mut table, &mut first);
    let repeated = resubmit(&mut session, &mut table, &mut second);
    let scanner = session.close();
    println!(rt; "a session's own reply, submitted to it")?;
    write(rt, &first[..answered?])?;
    println!(rt; "")?;
    write(rt, &second[..repeated?])?;
    println!(rt; "")?;
    print_value(rt, scanner.current(CONTRAST))?;
    println!(rt; "")?;
    Ok(())
}

// Plays all lists. What a program prints can be said by no contract: crates/trials/stdout has it, worked out from the rules.
pub(crate) fn play_lists(rt: &HostRuntime) -> anyhow::Result<()> {
    heights(rt)?;
    settings(rt)?;
    refusals(rt)?;
    rooms(rt)?;
    reply_submitted(rt)?;
    own_reply_submitted(rt)
}
