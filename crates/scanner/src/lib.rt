// What a scanner means, and how a plan is put into one.
#![tactic(auto)]

pub mod equality;
pub mod meaning;
pub mod plan;
pub mod point;

pub use equality::{points_compare_by_parts, same_points_are_one};
pub use meaning::Scanner;
pub use plan::{Item, offered_plans_come_into_force, put_in};
pub use point::Point;
