// A plan, and how it is put into a scanner.
ghost use Rattle.std.specs.Prelude.{◌≡◌, if◌then◌else◌};
ghost use Rattle.scanner.specs.Plan.{item_offered, item_put, offered_of, plan_put, AllOffered, InForce, OfferedInForce};

use crate::meaning::Scanner;
use crate::point::Point;
use names::{PixelFormat, Source, Value};

// A plan is a list of these: a source, then each of its formats, each followed by its lines.
#[derive(Clone, Copy)]
pub enum Item {
    Source(Source),
    Pair(Source, PixelFormat),
    Line(Point, Value),
}

// Puts in one item, and says whether it is offered; one that is not has no effect.
fn put_item<S: Scanner>(scanner: &mut S, item: Item) -> bool
    ensures same { S.catalogue scanner.new ≡ S.catalogue scanner.old }
    ensures answer { result ≡ item_offered (S.catalogue scanner.old) item }
    ensures after { S.state scanner.new ≡ (if item_offered (S.catalogue scanner.old) item then item_put (S.state scanner.old) item else S.state scanner.old) }
{
    match item {
        Item::Source(_) => true,
        Item::Pair(source, format) => scanner.enable(source, format),
        Item::Line(point, value) => scanner.set(point, value),
    }
}

// Puts in a plan: reset, then its items in order. Items that are not offered are told no and have no effect.
// Afterwards just the pairs of the plan are enabled, and each point is at its last line's value or, lacking one,
// at its power-on value.
pub fn put_in<S: Scanner>(scanner: &mut S, plan: &[Item])
    ensures same { S.catalogue scanner.new ≡ S.catalogue scanner.old }
    ensures after { S.state scanner.new ≡ plan_put (S.catalogue scanner.old) plan.now }
    ensures law { InForce (S.catalogue scanner.old) (offered_of (S.catalogue scanner.old) plan.now) (S.state scanner.new) }
    ensures whole { AllOffered (S.catalogue scanner.old) plan.now → InForce (S.catalogue scanner.old) plan.now (S.state scanner.new) }
{
    scanner.reset();
    for item in plan {
        let _ = put_item(scanner, *item);
    }
}

// What is offered comes into force.
pub fn offered_plans_come_into_force()
    ensures { OfferedInForce }
{}
