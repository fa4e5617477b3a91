ghost use Rattle.typing.specs.Laws.{Rules, Coding};

// The laws of the check: an expression is judged to have exactly the type that the rules give it, which is one type,
// and a script is accepted exactly if the rules allow it; the code of such a script is that script.
pub fn rules_stand()
    ensures rules { Rules }
    ensures coding { Coding }
{}
