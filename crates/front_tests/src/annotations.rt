//! Annotations in patterns, from the text of definitions to its core; what is expected was worked out by hand.
use crate::checks::is_refused_so;
use crate::front::{core_of, read};
use crate::mutations::levels::push_times;
use crate::mutations::readings::{Reading, reading_of, reading_of_pieces};
use crate::same::same_definitions;
use core_lang::Core;
use std::alloc::Global;
use std::test::Fail;

/// Texts that are no files, in two pieces, with the fault between them: in a list of annotations.
const NO_LISTS: &[(&str, &str)] = &[
    ("rules r : x{", ",} -> x"),
    ("rules r : x{y,", "} -> x"),
    ("rules r : x{y,", ",z} -> x"),
    ("rules r : x{y ", "z} -> x"),
    ("rules r : x{", "| y} -> x"),
    ("rules r : x{y ", "| z} -> x"),
    ("rules r : x{y, z", "| []} -> x"),
    ("rules r : x{", ""),
    ("rules r : x{y", ""),
    ("rules r : x{y,", ""),
    ("rules r : x{y ", ") -> x"),
    ("rules r : x{y ", "-> x"),
    ("rules r : x{y{} ", "-> x"),
    ("rules r : x{", "<f>} -> x"),
    ("rules r : x{", "id} -> x"),
    ("rules r : x -> x{", "-> 1}"),
    ("strategies main = !x{<f>, ", "}"),
    ("strategies main = !x{<f ", "}"),
    ("strategies main = f(| x{y ", ")"),
    ("strategies main = prim(\"p\", 1{", ", x)"),
];

/// A list of annotations where none may stand.
const NO_PLACES: &[(&str, &str)] = &[
    ("rules r : ", "{x} -> y"),
    ("rules r : x{}", "{} -> x"),
    ("rules r : x{y}", "{z} -> x"),
    ("rules r : C(x){y}", "{z} -> x"),
    ("rules r : (x){y}", "{z} -> x"),
    ("rules r : x@y{}", "{} -> x"),
    ("rules r : x@y@z{}", "{} -> x"),
    ("rules r : x@", "{y} -> x"),
    ("rules r : x{y{}", "{}} -> x"),
    ("rules r : [x{y}", "{z} | xs] -> x"),
    ("rules r : x -> 1{2}", "{3}"),
    ("strategies main = !1{2}", "{3}"),
    ("strategies main = !<id>", "{1}"),
    ("strategies main = !<id>", "{}"),
    ("strategies main = !<id> <id>", "{1}"),
    ("strategies main = !<id> x{1}", "{2}"),
    ("strategies main = !x@<id>", "{1}"),
    ("strategies main = !(<id>){1}", "{2}"),
    ("strategies main = !x{<id>", "{1}}"),
    ("strategies main = <id>", "{1}"),
    ("strategies main = <id> x{1}", "{2}"),
    ("strategies main = id", "{1}"),
    ("strategies main = f(id)", "{1}"),
    ("strategies main = []", "{1}"),
    ("strategies main = x => y{1}", "{2}"),
    ("strategies f(| x", "{y}) = id"),
    ("strategies main = {x", "{y}: id}"),
];

#[test]
fn no_annotations(rt: HostRuntime) -> Result<(), Fail> {
    for table in [NO_LISTS, NO_PLACES] {
        for (front, back) in table {
            let at = front.len() as u64;
            if reading_of_pieces(rt.alloc(), front, back)? != Reading::Syntax(at) {
                return Err(Fail::from((front, back)));
            }
        }
    }
    Ok(())
}

/// What stands in front, how many times `x{` does, what stands between, how many times `}` does, what stands at the end, and what the text
/// of all is read as.
type Braces = (
    &'static str,
    usize,
    &'static str,
    usize,
    &'static str,
    Reading,
);

const LEVELS: &[Braces] = &[
    ("rules r : ", 199, "x", 199, " -> x", Reading::File),
    ("rules r : ", 200, "x", 200, " -> x", Reading::Nesting(410)),
    ("rules r : ", 200, "", 200, " -> x", Reading::File),
    ("rules r : ", 200, ",", 200, " -> x", Reading::Syntax(410)),
    ("rules r : ", 200, "", 0, "", Reading::Syntax(410)),
    (
        "rules r : x -> ",
        199,
        "<f>",
        199,
        "",
        Reading::Nesting(414),
    ),
    ("rules r : x -> ", 199, "1", 199, "", Reading::File),
    ("rules r : x -> ", 200, "<", 0, "", Reading::Nesting(415)),
    ("strategies main = ?", 198, "_", 198, "", Reading::File),
    (
        "strategies main = ?",
        199,
        "_",
        199,
        "",
        Reading::Nesting(417),
    ),
    ("strategies main = ?", 199, "<", 0, "", Reading::Syntax(417)),
    (
        "strategies main = !",
        199,
        "<",
        0,
        "",
        Reading::Nesting(417),
    ),
    (
        "strategies main = !",
        100_000,
        "",
        0,
        "",
        Reading::Nesting(417),
    ),
];

/// Whether the row is read as it says.
fn is_read_so(alloc: Global, row: &Braces) -> Result<bool, Fail> {
    let (front, openings, between, closings, back, expected) = row;
    let mut text = String::from_str(alloc, front)?;
    push_times(&mut text, "x{", *openings)?;
    text.push_str(between)?;
    push_times(&mut text, "}", *closings)?;
    text.push_str(back)?;
    Ok(reading_of(alloc, text.as_bytes()) == *expected)
}

#[test]
fn levels_of_annotations(rt: HostRuntime) -> Result<(), Fail> {
    for row in LEVELS {
        if !is_read_so(rt.alloc(), row)? {
            return Err(Fail::from((row.0, row.1, row.2)));
        }
    }
    Ok(())
}

/// Definitions, and the refusal; without one they have no fault.
const JUDGED: &[(&str, &str)] = &[
    ("strategies main = ?_{_, x@_{}}", ""),
    (
        "strategies main = !1{_}",
        "NotBuildable: pattern _ cannot be built",
    ),
    (
        "strategies main = !_{}",
        "NotBuildable: pattern _ cannot be built",
    ),
    (
        "strategies main = !1{2, x@3}",
        "NotBuildable: pattern x@ cannot be built",
    ),
    (
        "strategies main = !x@1{2}",
        "NotBuildable: pattern x@ cannot be built",
    ),
    (
        "rules main : x -> (x){y{_}}",
        "NotBuildable: pattern _ cannot be built",
    ),
    ("strategies main = !1{<?_> 2}", ""),
    (
        "signature constructors C : A strategies main = ?1{C(x)}",
        "Undeclared: constructor C with 1 part is not declared (it is declared with 0)",
    ),
    (
        "strategies main = !x{1, C()}",
        "Undeclared: constructor C with 0 parts is not declared",
    ),
    (
        "signature constructors C : A -> A strategies main = ?C(x){C(y)}",
        "",
    ),
    (
        "strategies main = !x{<?C()>}",
        "Undeclared: constructor C with 0 parts is not declared",
    ),
    (
        "strategies main = !x{<f>}",
        "UnknownStrategy: strategy f with 0 strategy and 0 term parameters is not defined",
    ),
    (
        "strategies f(| x) = id main = f(| y{<g>})",
        "UnknownStrategy: strategy g with 0 strategy and 0 term parameters is not defined",
    ),
    (
        "strategies main = prim(\"add\", 1, 2{<prim(\"add\", 1)>})",
        "UnknownPrimitive: primitive add with 1 term is unknown",
    ),
];

#[test]
fn refusals_of_annotations(rt: HostRuntime) -> Result<(), Fail> {
    for (text, expected) in JUDGED {
        if !is_refused_so(rt.alloc(), read(rt.alloc(), text)?, expected)? {
            return Err(Fail::new(text));
        }
    }
    Ok(())
}

/// The strategy of main in two ways that have one core, and in a way that has another.
const CORES: &[(&str, &str, &str)] = &[
    // a list of annotations belongs to what stands before it
    ("?x{}", "?(x){}", "?x"),
    ("?x{y}", "?(x){(y)}", "?x{y, y}"),
    ("?x@y{z}", "?x@(y{z})", "?(x@y){z}"),
    ("?x@y@z{}", "?x@(y@(z{}))", "?x@((y@z){})"),
    ("!<id> x{y}", "!<id> (x{y})", "!(<id> x){y}"),
    ("!<id> <id> x{}", "!<id> (<id> (x{}))", "!<id> (<id> x){}"),
    ("<id> x{y}", "!x{y}; id", "!x; id"),
    ("?[x | y{}]", "?[x | (y){}]", "?[x | y]"),
    ("?[x{} | y]", "?[(x){} | y]", "?[x | y{}]"),
    ("!(x{y}){z}", "!((x{(y)})){(z)}", "!x{z}"),
    ("?x{y}; ?z", "(?x{y}); ?z", "?x{y, z}; ?z"),
    // the variables are those of the pattern, and then those of the annotations
    (
        "?(x, y){z, w{v}}",
        "{x, y, z, w, v: ?(x, y){z, w{v}}}",
        "{z, w, v, x, y: ?(x, y){z, w{v}}}",
    ),
    (
        "\\ x{y} -> y{x} \\",
        "{x, y: ?x{y}; !y{x}}",
        "{y, x: ?x{y}; !y{x}}",
    ),
    // what is in `<..>` is taken out from left to right, and what is left stands in its place
    (
        "{x: !x{<fail>}}",
        "{x: {c, z: ?c; !c; fail; ?z; !x{z}}}",
        "{x: {c, z: ?c; !c; fail; ?z; !z{x}}}",
    ),
    (
        "!(<id>){1, <fail>}",
        "{c, y, z: ?c; !c; id; ?y; !c; fail; ?z; !y{1, z}}",
        "{c, y, z: ?c; !c; fail; ?y; !c; id; ?z; !z{1, y}}",
    ),
    (
        "!(<id>){<fail>}",
        "{c, y, z: ?c; !c; id; ?y; !c; fail; ?z; !(y){z}}",
        "{c, y, z: ?c; !c; id; ?y; !c; fail; ?z; !z{y}}",
    ),
    (
        "!<id> 1{<fail>}",
        "{c, z: ?c; !c; {d, y: ?d; !d; fail; ?y; !1{y}}; id; ?z; !z}",
        "{c, z: ?c; !c; !1; id; ?z; !z{<fail>}}",
    ),
];

/// The core of a file with this strategy of main.
fn core_of_main(alloc: Global, strategy: &str) -> Result<Core, Fail> {
    let text = format!(in alloc; "strategies main = {strategy}")?;
    core_of(alloc, read(alloc, text.as_str())?)
}

/// Whether two strategies of main have one core.
fn have_one_core(alloc: Global, left: &str, right: &str) -> Result<bool, Fail> {
    let left = core_of_main(alloc, left)?;
    let right = core_of_main(alloc, right)?;
    Ok(same_definitions(left.defs(), right.defs()))
}

#[test]
fn cores_of_annotations(rt: HostRuntime) -> Result<(), Fail> {
    for (text, same, other) in CORES {
        if !have_one_core(rt.alloc(), text, same)? {
            return Err(Fail::from((text, "another core")));
        }
        if have_one_core(rt.alloc(), text, other)? {
            return Err(Fail::from((text, "the core of another strategy")));
        }
    }
    Ok(())
}
