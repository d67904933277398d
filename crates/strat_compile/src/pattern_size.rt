//! Whether patterns are within a limit, off which their nodes are taken.
ghost use Rattle.std.specs.Prelude.{◌≡◌, ◌+◌, ◌≤◌, IsTrue};
ghost use Rattle.core_lang.specs.Views.{pattern_of, patterns_of};
ghost use Rattle.strat_compile.specs.Size.{pattern_size, patterns_size};

use core_lang::CorePattern;

/// Takes the nodes of a pattern off the limit. Returns false if there are more than the limit.
#[cycle(patterns)]
pub(crate) fn pattern_fits(p: &CorePattern, limit: &mut usize) -> bool
    ensures limit { limit.new ≤ limit.old }
    ensures size { IsTrue result → pattern_size (pattern_of p.now) + limit.new ≡ limit.old }
{
    if *limit == 0 {
        return false;
    }
    *limit -= 1;
    match p {
        CorePattern::Anything => true,
        CorePattern::Integer(_) => true,
        CorePattern::Variable(_) => true,
        CorePattern::Alias(_, part) => pattern_fits(part, limit),
        CorePattern::Applied(_, parts) => patterns_fit(parts.as_slice(), limit),
        CorePattern::List(elements, rest) => {
            if !patterns_fit(elements.as_slice(), limit) {
                return false;
            }
            match rest {
                None => true,
                Some(rest) => pattern_fits(rest, limit),
            }
        }
        CorePattern::Like(part, _) => pattern_fits(part, limit),
        CorePattern::Annotated(part, annotations) => {
            if !pattern_fits(part, limit) {
                return false;
            }
            patterns_fit(annotations.as_slice(), limit)
        }
    }
}

/// Takes the nodes of all these patterns off the limit. Returns false if there are more than the limit.
#[cycle(patterns)]
pub(crate) fn patterns_fit(patterns: &[CorePattern], limit: &mut usize) -> bool
    ensures limit { limit.new ≤ limit.old }
    ensures size { IsTrue result →
        patterns_size (patterns_of patterns.now) + limit.new ≡ limit.old }
{
    for p in patterns {
        if !pattern_fits(p, limit) {
            return false;
        }
    }
    true
}
