ghost use Rattle.rules.specs.Laws.{Accounts, NeverStuck, PausingChangesNothing, ShortOfCells, ShortOfEntries, StacksHold, TestsInOrder};

// A script that the check allows never meets a step for which the rules have nothing.
pub fn never_stuck()
    ensures never { NeverStuck }
{}

// The cells that a run takes are given back or held, however it is advanced.
pub fn accounts_stand()
    ensures accounts { Accounts }
{}

// No more expressions wait, and no more names and arguments are held, than the two stacks have entries.
pub fn stacks_hold()
    ensures stacks { StacksHold }
{}

// A step that is neither stuck nor without a branch faults for want of an entry exactly where it lacks one, counted before it frees any.
pub fn too_few_entries_exactly()
    ensures entries { ShortOfEntries }
{}

// An advance ends for one reason, the first in the order of the tests before a step.
pub fn tests_in_order()
    ensures order { TestsInOrder }
{}

// A run faults for want of cells exactly where the next step, stopped by nothing else, needs more cells than are free.
pub fn too_few_cells_exactly()
    ensures cells { ShortOfCells }
{}

// How a run's steps are cut into advances changes nothing, and neither do the lengths of slices that suffice.
pub fn pausing_changes_nothing()
    ensures pausing { PausingChangesNothing }
{}
