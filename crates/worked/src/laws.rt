ghost use Rattle.worked.specs.Worked.{Worked};

// Each of these scripts is refused, or runs, as stated.
pub fn worked_scripts()
    ensures worked { Worked }
{}
