ghost use Rattle.evaluation.specs.Laws.{RunsAgree};

// A run with room enough ends exactly with what the evaluation of main derives.
pub fn evaluation_stands()
    ensures runs { RunsAgree }
{}
