ghost use Rattle.cells.specs.Laws.{Untouched, Counted, Fresh, Commute};

// The laws that hold of every store: each is a consequence of the trait's contracts alone.
pub fn laws_stand()
    ensures untouched { Untouched }
    ensures counted { Counted }
    ensures fresh { Fresh }
    ensures commute { Commute }
{}
