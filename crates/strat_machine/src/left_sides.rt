//! The matches with which alternatives begin.
ghost use Rattle.strat_machine.specs.LeftSides.{IsMatchWithin};
ghost use Rattle.std.specs.Prelude.{IfSome};

use core_lang::CorePattern;
use strat_code::{Code, Instr};

/// Returns the address of the match with which an alternative begins, whose code stands from `start` up to `after`, in the code of a
/// definition with this number of term parameters. Returns nothing if it begins with something else, or if the match cannot fail,
/// since its pattern is `_` or a variable that has no term yet.
pub fn first_match(code: &Code, start: usize, after: usize, parameters: usize) -> Option<usize>
    ensures { IfSome result (λ address. IsMatchWithin code.now.instrs start after address) }
{
    for address in start..after {
        match code.instrs().get(address)? {
            Instr::Extend { .. } => {}
            Instr::Match { pattern, .. } if may_fail(pattern, parameters) => return Some(address),
            _ => return None,
        }
    }
    None
}

/// Whether the pattern may not fit a term where no variable has a term but the parameters and those of frames around.
fn may_fail(pattern: &CorePattern, parameters: usize) -> bool {
    match pattern {
        CorePattern::Anything => false,
        CorePattern::Variable(x) => x.layers_up > 0 || x.slot < parameters,
        _ => true,
    }
}
