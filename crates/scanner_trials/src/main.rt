// Fills table scanners and locks, puts questions to them and prints the answers.
#![tactic(auto)]

use lock::{Lock, swapped};
use names::{Attribute, Named, PixelFormat, Source, Value, Word};
use scanner::{Item, Point, Scanner, put_in};
use scanners::{FillFault, Flatbed};
use std::io;
use table_scanner::{Fill, Given, TableScanner};

#[cfg(test)]
mod tests;

const GRAY: Point = Point {
    source: Source::FlatBed,
    format: PixelFormat::Gray8,
    attribute: Attribute::Resolution,
};

const COLOR: Point = Point {
    source: Source::FlatBed,
    format: PixelFormat::Rgb24,
    attribute: Attribute::Resolution,
};

const BRIGHTNESS: Point = Point {
    source: Source::FlatBed,
    format: PixelFormat::Gray8,
    attribute: Attribute::Brightness,
};

const COMPRESSION: Point = Point {
    source: Source::FlatBed,
    format: PixelFormat::Rgb24,
    attribute: Attribute::Compression,
};

const FEEDER: Point = Point {
    source: Source::Feeder,
    format: PixelFormat::Bw1,
    attribute: Attribute::Resolution,
};

// Whether a value is offered at a point, as it is printed.
fn offered<S: Scanner>(scanner: &S, point: Point, value: Value) -> &'static str {
    if scanner.offers_value(point, value) {
        "yes"
    } else {
        "no"
    }
}

// Which of these numbers are offered at a point.
fn offered_numbers<S: Scanner>(
    rt: &HostRuntime,
    scanner: &S,
    point: Point,
    numbers: &[i32],
) -> io::Result<()> {
    for number in numbers {
        let answer = offered(scanner, point, Value::Number(*number));
        println!(rt; "  {number} {answer}")?;
    }
    Ok(())
}

// Which of these words, by number, are offered at a point.
fn offered_words<S: Scanner>(
    rt: &HostRuntime,
    scanner: &S,
    point: Point,
    words: &[u32],
) -> io::Result<()> {
    for number in words {
        if let Some(word) = Word::from_number(*number) {
            let answer = offered(scanner, point, Value::Word(word));
            println!(rt; "  word {number} {answer}")?;
        }
    }
    Ok(())
}

fn told(rt: &HostRuntime, what: &str, answer: Result<(), FillFault>) -> io::Result<()> {
    match answer {
        Ok(()) => println!(rt; "  {what}: done"),
        Err(fault) => {
            let number = fault.number();
            let offset = fault.offset();
            println!(rt; "  {what}: {number} at {offset}")
        }
    }
}

// The current value at a point.
fn shown<S: Scanner>(rt: &HostRuntime, scanner: &S, what: &str, point: Point) -> io::Result<()> {
    match scanner.current(point) {
        Some(Value::Number(number)) => println!(rt; "  {what}: {number}"),
        Some(Value::Word(word)) => {
            let number = word as u32;
            println!(rt; "  {what}: word {number} from 0")
        }
        None => println!(rt; "  {what}: no point"),
    }
}

fn flatbed_trial(rt: &HostRuntime) -> io::Result<()> {
    let flatbed = Flatbed::new();
    println!(rt; "flatbed resolution")?;
    offered_numbers(
        rt,
        &flatbed,
        GRAY,
        &[-75, 50, 74, 75, 76, 100, 1199, 1200, 1201, 1225],
    )?;
    println!(rt; "flatbed brightness")?;
    offered_numbers(rt, &flatbed, BRIGHTNESS, &[-1, 0, 100, 101])?;
    offered_words(rt, &flatbed, BRIGHTNESS, &[2, 3, 4])?;
    println!(rt; "flatbed compression")?;
    offered_numbers(rt, &flatbed, COMPRESSION, &[0])?;
    offered_words(rt, &flatbed, COMPRESSION, &[3, 4, 5, 6])?;
    println!(rt; "off the flatbed")?;
    offered_numbers(rt, &flatbed, FEEDER, &[300])
}

// The last line at a point counts, and a line that is not offered has no effect.
fn plan_trial(rt: &HostRuntime) -> io::Result<()> {
    let mut flatbed = Flatbed::new();
    let plan = [
        Item::Source(Source::FlatBed),
        Item::Pair(Source::FlatBed, PixelFormat::Rgb24),
        Item::Line(COLOR, Value::Number(200)),
        Item::Line(COLOR, Value::Number(400)),
        Item::Line(COLOR, Value::Number(410)),
        Item::Pair(Source::Feeder, PixelFormat::Rgb24),
    ];
    let _ = flatbed.enable(Source::FlatBed, PixelFormat::Gray8);
    let _ = flatbed.set(GRAY, Value::Number(75));
    put_in(&mut flatbed, &plan);
    println!(rt; "a plan put in")?;
    let gray = flatbed.enabled(Source::FlatBed, PixelFormat::Gray8);
    let color = flatbed.enabled(Source::FlatBed, PixelFormat::Rgb24);
    let feeder = flatbed.enabled(Source::Feeder, PixelFormat::Rgb24);
    println!(rt; "  enabled: gray8 {gray}, rgb24 {color}, feeder {feeder}")?;
    shown(rt, &flatbed, "gray8 resolution", GRAY)?;
    shown(rt, &flatbed, "rgb24 resolution", COLOR)?;
    shown(rt, &flatbed, "feeder resolution", FEEDER)
}

// Filling calls, each with its answer.
fn calls_trial(
    rt: &HostRuntime,
    table: &mut TableScanner,
    calls: &[(&str, Fill)],
) -> io::Result<()> {
    for (what, call) in calls {
        told(rt, what, table.take(*call))?;
    }
    Ok(())
}

// Each refusal in its order: 41, 42, 43.
fn fill_trial(rt: &HostRuntime, table: &mut TableScanner) -> io::Result<()> {
    println!(rt; "filling")?;
    let calls = [
        ("source 7", Fill::Source(7, 2)),
        ("source 0", Fill::Source(0, 2)),
        ("source 1 with format 6", Fill::Source(1, 6)),
        ("format of a source that is not there", Fill::Format(1, 1)),
        ("home source that is not there", Fill::Home(1)),
        ("flatbed again", Fill::Source(4, 1)),
        ("feeder with bw1", Fill::Source(1, 1)),
        ("its home format again", Fill::Format(1, 1)),
        ("feeder with rgb24", Fill::Format(1, 4)),
        (
            "attribute 38",
            Fill::Attribute(1, 1, 38, Given::Number(300)),
        ),
        (
            "power-on word 17",
            Fill::Attribute(1, 1, 31, Given::Word(17)),
        ),
        (
            "attribute of a pair that is not there",
            Fill::Attribute(1, 2, 31, Given::Number(300)),
        ),
        (
            "resolution of bw1",
            Fill::Attribute(1, 1, 31, Given::Number(300)),
        ),
        (
            "resolution of bw1 again",
            Fill::Attribute(1, 1, 31, Given::Number(300)),
        ),
    ];
    calls_trial(rt, table, &calls)
}

fn offer_trial(rt: &HostRuntime, table: &mut TableScanner) -> io::Result<()> {
    println!(rt; "offering")?;
    let calls = [
        ("low above high", Fill::Range(1, 1, 31, 10, 9, 1)),
        ("step 0", Fill::Range(1, 1, 31, 9, 10, 0)),
        (
            "bad numbers before a missing point",
            Fill::Range(1, 4, 31, 10, 9, 1),
        ),
        (
            "range at a point that is not there",
            Fill::Range(1, 4, 31, 9, 10, 1),
        ),
        ("-7 to 20 by 5", Fill::Range(1, 1, 31, -7, 20, 5)),
        ("word 17", Fill::Word(1, 1, 31, 17)),
        ("word at a point that is not there", Fill::Word(1, 4, 31, 3)),
        ("automatic", Fill::Word(1, 1, 31, 3)),
        ("automatic again", Fill::Word(1, 1, 31, 3)),
    ];
    calls_trial(rt, table, &calls)?;
    offered_numbers(
        rt,
        table,
        FEEDER,
        &[-8, -7, -6, -5, -2, 0, 3, 18, 20, 23, 300],
    )?;
    offered_words(rt, table, FEEDER, &[2, 3, 4])?;
    told(
        rt,
        "all numbers by the largest step",
        table.add_range(1, 1, 31, -2147483648, 2147483647, 2147483647),
    )?;
    offered_numbers(
        rt,
        table,
        FEEDER,
        &[-2147483648, -2147483647, -1, 0, 2147483646, 2147483647],
    )?;
    shown(rt, table, "power-on value, which is not offered", FEEDER)
}

// Six entries are there; 249 more leave room for one.
fn full_trial(rt: &HostRuntime, table: &mut TableScanner) -> io::Result<()> {
    println!(rt; "up to the last entry")?;
    table.fill(&[Fill::Range(1, 1, 31, 9, 9, 1); 249]);
    let calls = [
        ("entry 256", Fill::Range(1, 1, 31, 9, 9, 1)),
        ("entry 257", Fill::Range(1, 1, 31, 9, 9, 1)),
        ("unknown before full", Fill::Source(7, 1)),
        ("missing before full", Fill::Format(2, 1)),
        ("there before full", Fill::Source(1, 1)),
        ("a new source", Fill::Source(2, 1)),
        ("the home source, which is no entry", Fill::Home(1)),
    ];
    calls_trial(rt, table, &calls)?;
    let home = table.home_source() as u32;
    let format = table.home_format(Source::Feeder) as u32;
    println!(rt; "  home: source {home} and format {format}, both from 0")
}

// Bans that overlap, a banned power-on value, and no room for ban 17.
fn lock_trial(rt: &HostRuntime, lock: &mut Lock<Flatbed>) -> io::Result<()> {
    println!(rt; "lock")?;
    told(rt, "attribute 38", lock.ban_word(38, 3))?;
    told(rt, "word 17", lock.ban_word(7, 17))?;
    told(rt, "low above high", lock.ban_span(31, 350, 150))?;
    told(rt, "150 to 350", lock.ban_span(31, 150, 350))?;
    told(rt, "300 to 400", lock.ban_span(31, 300, 400))?;
    told(rt, "automatic", lock.ban_word(7, 3))?;
    told(
        rt,
        "an attribute that it does not have",
        lock.ban_span(1, 0, 9),
    )?;
    offered_numbers(rt, lock, GRAY, &[125, 150, 250, 300, 350, 375, 400, 425])?;
    offered_numbers(rt, lock, BRIGHTNESS, &[50])?;
    offered_words(rt, lock, BRIGHTNESS, &[3])?;
    let set = lock.set(GRAY, Value::Number(600));
    shown(rt, lock, "set to 600", GRAY)?;
    lock.reset();
    shown(rt, lock, "reset", GRAY)?;
    let banned = lock.set(GRAY, Value::Number(300));
    println!(rt; "  set 600 {set}, set 300 {banned}")
}

fn ban_trial(rt: &HostRuntime, lock: &mut Lock<Flatbed>) -> io::Result<()> {
    println!(rt; "up to the last ban")?;
    for _ in 5..16 {
        let _ = lock.ban_span(31, 0, 9);
    }
    told(rt, "ban 16", lock.ban_span(31, 0, 9))?;
    told(rt, "ban 17", lock.ban_span(31, 0, 9))?;
    told(rt, "unknown before full", lock.ban_span(38, 0, 9))
}

// A pile of two locks offers the same in either order.
fn pile_trial(rt: &HostRuntime, mut pile: Lock<Lock<Flatbed>>) -> io::Result<()> {
    println!(rt; "pile of locks")?;
    told(rt, "250 to 500 above", pile.ban_span(31, 250, 500))?;
    offered_numbers(rt, &pile, COLOR, &[175, 200, 225, 300, 500, 525])?;
    let other = swapped(pile);
    println!(rt; "the same pile turned over")?;
    offered_numbers(rt, &other, COLOR, &[175, 200, 225, 300, 500, 525])
}

fn main(rt: HostRuntime) -> io::Result<()> {
    flatbed_trial(&rt)?;
    plan_trial(&rt)?;
    let mut table = TableScanner::new(rt.alloc())?;
    fill_trial(&rt, &mut table)?;
    offer_trial(&rt, &mut table)?;
    full_trial(&rt, &mut table)?;
    if let Ok(mut lock) = Lock::new(rt.alloc(), Flatbed::new()) {
        lock_trial(&rt, &mut lock)?;
        ban_trial(&rt, &mut lock)?;
    }
    if let Ok(mut below) = Lock::new(rt.alloc(), Flatbed::new()) {
        let _ = below.ban_span(31, 200, 300);
        if let Ok(pile) = Lock::new(rt.alloc(), below) {
            pile_trial(&rt, pile)?;
        }
    }
    Ok(())
}
