// The calls that every step ends in: what they answer is what the step came to. Only wait can fail.
// `steady` is a clause of each: what a call leaves as it was is no fact of one value.
ghost use Rattle.std.specs.Prelude.{◌≡◌, ℕ, List, [], ◌∷◌, Ok};
ghost use Rattle.cells.specs.Meaning.{Cells};
ghost use Rattle.data.specs.Trees.{Tree, none, more};
ghost use Rattle.grammar.specs.Trees.{Expr};
ghost use Rattle.machine.specs.Holding.{names};
ghost use Rattle.machine.specs.Mirrors.{Rests, Mirrors, Moved, Onto, Under, Steady, as_printing, printed_bytes};
ghost use Rattle.program.specs.Programs.{Program};
ghost use Rattle.program.specs.Standing.{StandsAt};
ghost use Rattle.rules.specs.States.{Environment, Account, State, st};
ghost use Rattle.rules.specs.States.{Frame as Waits, enter as enters, finished as has_finished};
ghost use Rattle.rules.specs.Steps.{Sizes, goes, waits};

use super::{Control, Frame, Halt, Machine};
use cells::values::Value;
use rules::FaultKind;

impl<'a, 'v> Machine<'a, 'v> {
    // The expression at this node is next.
    pub fn go(&mut self, node: u16) -> Result<(), FaultKind>
        ensures taken { result ≡ Ok tt }
        ensures steady { Steady self.old self.new }
        ensures law { (P : Program) (Z : Sizes) (m₀ m : Cells) (s : State) (K : List Waits) (env : Environment) (a : Account) (e : Expr)
            → Rests P Z m₀ K env a [] none self.old m → StandsAt P self.old.script.now.code (names env) e node
            → Moved P Z m₀ s (goes [] (st K env (enters e) a)) result self.new m }
    {
        self.control = Control::Enter(node);
        Ok(())
    }

    // A value is finished.
    pub fn finish(&mut self, value: Value) -> Result<(), FaultKind>
        ensures taken { result ≡ Ok tt }
        ensures steady { Steady self.old self.new }
        ensures law { (P : Program) (Z : Sizes) (m₀ m : Cells) (s : State) (K : List Waits) (env : Environment) (a : Account) (t : Tree)
            → Rests P Z m₀ K env a (value ∷ []) (more t none) self.old m
            → Moved P Z m₀ s (goes [] (st K env (has_finished t) a)) result self.new m }
    {
        self.control = Control::Finished(value);
        Ok(())
    }

    // The newest frame leaves, and so many of the newest slots.
    pub fn uncover(&mut self, count: usize)
        ensures steady { Steady self.old self.new }
        ensures law { (P : Program) (Z : Sizes) (m₀ m : Cells) (K : List Waits) (env : Environment) (a : Account)
            → Under P Z m₀ count K env a self.old m → Rests P Z m₀ K env a [] none self.new m }
    {
        self.frames.cut(1);
        self.slots.cut(count);
    }

    // One more expression waits, and its part at this node is next.
    pub fn wait(&mut self, frame: Frame, node: u16) -> Result<(), FaultKind>
        ensures steady { Steady self.old self.new }
        ensures law { (P : Program) (Z : Sizes) (m₀ m : Cells) (s : State) (K : List Waits) (env env' : Environment) (a : Account) (f : Waits) (e : Expr)
            → Mirrors P Z m₀ s self.old m → Rests P Z m₀ K env a [] none self.old m → Onto P K env env' f e frame node self.old
            → Moved P Z m₀ s (waits P Z f e K env' a) result self.new m }
    {
        self.frames.push(frame)?;
        self.go(node)
    }
}

// What a step that prints nothing came to, where a step may print.
pub fn unprinted(step: Result<(), FaultKind>) -> Result<usize, Halt>
    ensures same { result ≡ as_printing step }
    ensures none { printed_bytes result ≡ 0 }
{
    step?;
    Ok(0)
}
