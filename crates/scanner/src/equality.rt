// When points are equal.
ghost use Rattle.std.specs.Prelude.{◌≡◌};
ghost use Rattle.std.specs.Cmp.{IsEquivalence};
ghost use Rattle.scanner.specs.declared.point.Point.{Point};
ghost use Rattle.scanner.specs.Meaning.{same_point};
ghost use Rattle.scanner.specs.SamePoint.{SameIsOne};

use crate::point::Point;

// Two points are equal where each of their three parts is, and that is an equivalence.
pub fn points_compare_by_parts()
    ensures points { (a b : Point) → ⟦<Point as PartialEq>⟧.eq a b ≡ same_point a b }
    ensures equivalence { IsEquivalence same_point }
{}

// What is the same by its numbers is one.
pub fn same_points_are_one()
    ensures { SameIsOne }
{}
