//! Where patterns stand in the definition file.
use crate::strategy::Context;
use str_syntax::{Pattern, Sequence, Step, Strategy};

/// Where the pattern stands: at the first name or `_` in it, or else at the place of the context.
pub(crate) fn offset_of(context: &Context, source: &Pattern) -> Option<u64> {
    first_offset(source).or(Some(context.place))
}

/// The byte before the strategy: in an application `<s> p` the `<`, or a blank after it.
pub(crate) fn place_before(source: &Strategy) -> u64 {
    let all = match source {
        Strategy::Sequence(all)
        | Strategy::LeftChoice(all, _)
        | Strategy::GuardedChoice(all, _, _) => all,
    };
    let first = match all {
        Sequence::Last(first) | Sequence::Then(first, _) => first,
    };
    match first {
        Step::Plain(at, _) | Step::Matching(at, _, _, _) => at.saturating_sub(1),
    }
}

/// Where the first name or `_` in the pattern stands. A `<..>` in a build is passed over, since what it applies has offsets of its own.
#[cycle(offsets)]
fn first_offset(source: &Pattern) -> Option<u64> {
    match source {
        Pattern::Variable(name) | Pattern::Alias(name, _) | Pattern::Application(name, _) => {
            Some(name.offset())
        }
        Pattern::Wildcard(offset) => Some(*offset),
        Pattern::Integer(_) | Pattern::Quoted(_) => None,
        Pattern::Parenthesized(part) => first_offset(part),
        Pattern::Tuple(parts) => first_offset_among(parts),
        Pattern::List(elements, rest) => first_offset_among(elements).or(offset_of_rest(rest)),
        Pattern::Annotated(part, annotations) => {
            first_offset(part).or(first_offset_among(annotations))
        }
        Pattern::Applied(_) | Pattern::AppliedTo(_, _) => None,
    }
}

#[cycle(offsets)]
fn first_offset_among(sources: &[Pattern]) -> Option<u64> {
    for source in sources {
        let found = first_offset(source);
        if found.is_some() {
            return found;
        }
    }
    None
}

#[cycle(offsets)]
fn offset_of_rest(source: &Option<Box<Pattern>>) -> Option<u64> {
    match source {
        None => None,
        Some(rest) => first_offset(rest),
    }
}
