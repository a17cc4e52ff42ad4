//! To whom the functions of units are shown.
ghost use Rattle.std.specs.Prelude.{◌≡◌, ℕ, List, Option, Bool, false};
ghost use Rattle.blz_relocations.specs.Flows.{is_break};
ghost use Rattle.blz_reader.specs.ShownFunctions.{ShowsMore, ShowsUnit, one_shown};
ghost use Rattle.blz_units.specs.UnitAnswers.{in_unit};
ghost use Rattle.blz_functions.specs.declared.functions.Function.{Function};

use blz_functions::Function;
use blz_relocations::Flow;

/// Is shown the functions of units, one after the other, until it answers Break.
pub trait VisitFunction {
    // the functions shown, each with the number of its unit, where they are told
    ghost shown: { Self → Option (List (ℕ × Function)) };

    // it has answered Break
    ghost stopped: { Self → Bool };

    /// Shows one function of a unit. Not to be called after a Break.
    fn visit(&mut self, unit: usize, function: &Function) -> Flow
        requires { stopped self.old ≡ false }
        ensures shown { ShowsMore (shown self.old) (shown self.new) (one_shown unit function.now) }
        ensures stopped { stopped self.new ≡ is_break result };
}

/// Shows the functions of a unit until the visitor breaks.
pub fn show_functions<W: VisitFunction>(visit: &mut W, unit: usize, functions: &[Function]) -> Flow
    requires { W.stopped visit.old ≡ false }
    ensures { ShowsUnit (in_unit unit functions.now) (W.shown visit.old) (W.shown visit.new)
        (W.stopped visit.new) result }
{
    for function in functions {
        if let Flow::Break = visit.visit(unit, function) {
            return Flow::Break;
        }
    }
    Flow::Continue
}
