// Worked tasks on the flatbed: what each text comes to by the rules.
#![tactic(auto)]

ghost use Rattle.std.specs.List.{All};
ghost use Rattle.worked_tasks.specs.Worked.{Stands, worked};

use negotiation::laws::each_task_has_one_outcome;

// Each text of the table is refused by its fault, or comes to its outcome and to no other, and leaves its values.
pub fn tasks_stand()
    ensures { All Stands worked }
{
    each_task_has_one_outcome();
}
