//! Whether code is within a limit, off which its size is taken.
ghost use Rattle.std.specs.Prelude.{◌+◌, ◌≤◌, IsTrue};
ghost use Rattle.strat_code.specs.CodeOf.{code_of, instr_of};
ghost use Rattle.strat_compile.specs.Size.{code_size, instr_size};

use crate::pattern_size::{pattern_fits, patterns_fit};
use strat_code::Instr;

/// Takes the size of code off the limit. Returns false if it is larger than the limit.
pub(crate) fn code_fits(code: &[Instr], limit: &mut usize) -> bool
    ensures { IsTrue result → ((tables : _) →
        code_size (code_of tables code.now) + limit.new ≤ limit.old) }
{
    for instr in code {
        if !instr_fits(instr, limit) {
            return false;
        }
    }
    true
}

/// Takes the size of an instruction off the limit. Returns false if it is larger than the limit.
fn instr_fits(instr: &Instr, limit: &mut usize) -> bool
    ensures { IsTrue result → ((tables : _) →
        instr_size (instr_of tables instr.now) + limit.new ≤ limit.old) }
{
    if *limit == 0 {
        return false;
    }
    *limit -= 1;
    match instr {
        Instr::Match { pattern, .. } => pattern_fits(pattern, limit),
        Instr::Build { pattern, .. } => pattern_fits(pattern, limit),
        Instr::ApplyPrimitive { terms, .. } => patterns_fit(terms.as_slice(), limit),
        Instr::CallDefinition {
            arguments,
            terms,
            ..
        } => {
            if arguments.len() > *limit {
                return false;
            }
            *limit -= arguments.len();
            patterns_fit(terms.as_slice(), limit)
        }
        _ => true,
    }
}
