//! The standard primitives, and registries of primitives; what is expected was worked out by hand.
ghost use Rattle.std.specs.Prelude.{◌≡◌, ◌<◌, ◌∷◌, [], IfOk, IsTrue, length};
ghost use Rattle.std.specs.Option.{option_map};
ghost use Rattle.term_model.specs.Flat.{number};
ghost use Rattle.prim_registry.specs.Entries.{IsHonest, entries_of};
ghost use Rattle.prim_registry.specs.Standard.{standard};
ghost use Rattle.prim_registry.specs.StandardPrimitives.{is_arithmetic, key_of};
ghost use Rattle.prim_registry.specs.Values.{answer_of, values_of};

use prim_registry::standard::add;
use prim_registry::{
    Action, Bytes, Calculation, Flat, Numbers, Prim, PrimMeaning, Registry, STANDARD, Standard,
};
use std::alloc::{AllocError, Global};
use std::test::Fail;
use term_model::{Fault, PrimNames};

/// A flat value that takes no memory.
#[derive(Clone, Copy)]
enum Sample {
    Int(i64),
    Str(&'static [u8]),
    Ints(&'static [i64]),
}

use Sample::{Int, Ints, Str};

/// The flat value that this is.
fn flat(alloc: Global, sample: &Sample) -> Result<Flat, AllocError> {
    match sample {
        Int(value) => Ok(Flat::Int(*value)),
        Str(bytes) => Ok(Flat::Str(Bytes::new(bytes.to_vec(alloc)?))),
        Ints(numbers) => Ok(Flat::Ints(Numbers::new(numbers.to_vec(alloc)?))),
    }
}

/// The flat values that these are.
fn flats(alloc: Global, samples: &[Sample]) -> Result<Vec<Flat>, AllocError> {
    let mut flats = Vec::new(alloc);
    for sample in samples {
        flats.push(flat(alloc, sample)?)?;
    }
    Ok(flats)
}

/// Whether the answer is the one that is expected.
fn is_expected(answer: &Option<Flat>, expected: &Option<Sample>) -> bool {
    match (answer, expected) {
        (Some(Flat::Int(found)), Some(Int(value))) => *found == *value,
        (Some(Flat::Str(found)), Some(Str(bytes))) => found.as_slice() == *bytes,
        (Some(Flat::Ints(found)), Some(Ints(numbers))) => found.as_slice() == *numbers,
        (None, None) => true,
        _ => false,
    }
}

/// The name of a primitive, its arguments, and what it returns.
type Case = (&'static str, &'static [Sample], Option<Sample>);

const ARITHMETIC: &[Case] = &[
    ("add", &[Int(2), Int(-3)], Some(Int(-1))),
    ("add", &[Int(2147483647), Int(1)], Some(Int(2147483648))),
    ("add", &[Int(9223372036854775807), Int(1)], None),
    ("add", &[Int(-9223372036854775808), Int(-1)], None),
    (
        "add",
        &[Int(9223372036854775807), Int(-9223372036854775808)],
        Some(Int(-1)),
    ),
    ("add", &[Int(2), Str(b"3")], None),
    ("sub", &[Int(2), Int(-3)], Some(Int(5))),
    ("sub", &[Int(-9223372036854775808), Int(1)], None),
    ("sub", &[Int(0), Int(-9223372036854775808)], None),
    (
        "sub",
        &[Int(-1), Int(-9223372036854775808)],
        Some(Int(9223372036854775807)),
    ),
    ("mul", &[Int(-46341), Int(46340)], Some(Int(-2147441940))),
    ("mul", &[Int(65536), Int(32768)], Some(Int(2147483648))),
    ("mul", &[Int(4294967296), Int(2147483648)], None),
    (
        "mul",
        &[Int(4294967296), Int(-2147483648)],
        Some(Int(-9223372036854775808)),
    ),
    (
        "mul",
        &[Int(3037000499), Int(3037000499)],
        Some(Int(9223372030926249001)),
    ),
    ("mul", &[Int(3037000500), Int(3037000500)], None),
    ("mul", &[Int(-3037000500), Int(3037000500)], None),
    ("mul", &[Int(-9223372036854775808), Int(-1)], None),
    (
        "mul",
        &[Int(9223372036854775807), Int(-1)],
        Some(Int(-9223372036854775807)),
    ),
    ("div", &[Int(7), Int(-2)], Some(Int(-3))),
    ("div", &[Int(-2147483648), Int(-1)], Some(Int(2147483648))),
    ("div", &[Int(-9223372036854775808), Int(-1)], None),
    (
        "div",
        &[Int(-9223372036854775808), Int(1)],
        Some(Int(-9223372036854775808)),
    ),
    (
        "div",
        &[Int(9223372036854775807), Int(-1)],
        Some(Int(-9223372036854775807)),
    ),
    (
        "div",
        &[Int(-9223372036854775808), Int(9223372036854775807)],
        Some(Int(-1)),
    ),
    ("div", &[Int(1), Int(0)], None),
    ("div", &[Int(-9223372036854775808), Int(0)], None),
    ("mod", &[Int(7), Int(-2)], Some(Int(1))),
    ("mod", &[Int(-7), Int(2)], Some(Int(-1))),
    ("mod", &[Int(-9223372036854775808), Int(-1)], Some(Int(0))),
    (
        "mod",
        &[Int(-9223372036854775808), Int(9223372036854775807)],
        Some(Int(-1)),
    ),
    (
        "mod",
        &[Int(9223372036854775807), Int(-9223372036854775808)],
        Some(Int(9223372036854775807)),
    ),
    ("mod", &[Int(1), Int(0)], None),
    ("less", &[Int(-1), Int(0)], Some(Int(-1))),
    ("less", &[Int(0), Int(0)], None),
    (
        "less",
        &[Int(-9223372036854775808), Int(9223372036854775807)],
        Some(Int(-9223372036854775808)),
    ),
    ("less", &[Int(4294967296), Int(1)], None),
];

const TEXTS: &[Case] = &[
    ("concat", &[Str(b"ab"), Str(b"\"c")], Some(Str(b"ab\"c"))),
    ("concat", &[Str(b"ab"), Int(1)], None),
    ("length", &[Str(b"abc")], Some(Int(3))),
    ("length", &[Ints(&[1])], None),
    ("explode", &[Str(b"AB\xff")], Some(Ints(&[65, 66, 255]))),
    ("explode", &[Str(b"")], Some(Ints(&[]))),
    ("implode", &[Ints(&[65, 0, 255])], Some(Str(b"A\0\xff"))),
    ("implode", &[Ints(&[65, 300])], None),
    ("implode", &[Ints(&[256])], None),
    ("implode", &[Ints(&[-1])], None),
    ("implode", &[Ints(&[4294967361])], None),
    ("implode", &[Ints(&[-4294967231])], None),
    ("implode", &[Ints(&[])], Some(Str(b""))),
    (
        "int_text",
        &[Int(-9223372036854775808)],
        Some(Str(b"-9223372036854775808")),
    ),
    (
        "int_text",
        &[Int(9223372036854775807)],
        Some(Str(b"9223372036854775807")),
    ),
    ("int_text", &[Int(0)], Some(Str(b"0"))),
    ("text_int", &[Str(b"-007")], Some(Int(-7))),
    ("text_int", &[Str(b"+7")], None),
    ("text_int", &[Str(b"")], None),
    ("text_int", &[Str(b"-")], None),
    ("text_int", &[Str(b"00")], Some(Int(0))),
    ("text_int", &[Str(b"-0")], Some(Int(0))),
    (
        "text_int",
        &[Str(b"9223372036854775807")],
        Some(Int(9223372036854775807)),
    ),
    ("text_int", &[Str(b"9223372036854775808")], None),
    (
        "text_int",
        &[Str(b"-9223372036854775808")],
        Some(Int(-9223372036854775808)),
    ),
    ("text_int", &[Str(b"-9223372036854775809")], None),
    ("text_int", &[Str(b"18446744073709551617")], None),
    (
        "text_int",
        &[Str(b"-000000000000000000009223372036854775808")],
        Some(Int(-9223372036854775808)),
    ),
    ("text_int", &[Str(&[b'0'; 1000])], Some(Int(0))),
];

/// Whether the primitive returns what is expected.
fn returns(alloc: Global, registry: &Registry<Standard>, case: &Case) -> Result<bool, Fault>
    requires { IsHonest ⟦<Standard as PrimMeaning>⟧.answer registry.now }
{
    let (name, samples, expected) = case;
    let args = flats(alloc, samples)?;
    let Some(index) = registry.position(name.as_bytes(), args.len()) else {
        return Ok(false);
    };
    let answer = registry.call_at(index, &args)?;
    Ok(is_expected(&answer, expected) && calculates(registry, index, case))
}

/// Whether the primitive at this place has the same for two integers, if the arguments are these.
fn calculates(registry: &Registry<Standard>, index: usize, case: &Case) -> bool
    requires honest { IsHonest ⟦<Standard as PrimMeaning>⟧.answer registry.now }
    requires within { index < length (entries_of registry.now) }
{
    let (_, samples, expected) = case;
    let [left, right] = samples else {
        return true;
    };
    let (Int(left), Int(right)) = (left, right) else {
        return true;
    };
    match registry.calculate_at(index, *left, *right) {
        Some(value) => is_expected(&value.map(Flat::Int), expected),
        None => false,
    }
}

/// Each primitive returns what is expected, where the standard primitives are registered, the arithmetic ones with their functions on two
/// integers.
fn check_cases(alloc: Global, cases: &[Case]) -> Result<(), Fail> {
    let mut registry = Registry::<Standard>::new(alloc);
    for primitive in STANDARD {
        let action: Action = Box::new(
            alloc,
            move |args: &[Flat]| -> Result<Option<Flat>, AllocError>
                ensures { IfOk result (λ answer. answer_of answer ≡
                    standard (key_of primitive).0 (values_of args.now)) }
            { primitive.answer(alloc, args) },
        )?;
        let calculation: Calculation = Box::new(
            alloc,
            move |left: i64, right: i64| -> Option<i64>
                ensures { IsTrue (is_arithmetic primitive) → option_map number result ≡
                    standard (key_of primitive).0 (number left ∷ number right ∷ []) }
            { primitive.calculate(left, right) },
        )?;
        let name = primitive.name().to_vec(alloc)?;
        let plain = Prim::new(name, primitive.arity(), action);
        if primitive.is_arithmetic() {
            registry.register(plain.with_calculation(calculation))?;
        } else {
            registry.register(plain)?;
        }
    }
    for case in cases {
        if !returns(alloc, &registry, case)? {
            return Err(Fail::new(case.0));
        }
    }
    Ok(())
}

#[test]
fn arithmetic(rt: HostRuntime) -> Result<(), Fail> {
    check_cases(rt.alloc(), ARITHMETIC)
}

#[test]
fn texts(rt: HostRuntime) -> Result<(), Fail> {
    check_cases(rt.alloc(), TEXTS)
}

/// Whether the registry, which has `add`, adds 2 and 3.
fn adds(alloc: Global, registry: &Registry<Standard>) -> Result<bool, Fault>
    requires { IsHonest ⟦<Standard as PrimMeaning>⟧.answer registry.now }
{
    let args = flats(alloc, &[Int(2), Int(3)])?;
    if !registry.has(b"add", args.len()) {
        return Ok(false);
    }
    let answer = registry.call(b"add", &args)?;
    Ok(is_expected(&answer, &Some(Int(5))))
}

/// Whether the registry, which has `add`, is refused memory where it is to add 2 and 3.
fn is_refused_memory(alloc: Global, registry: &Registry<Standard>) -> Result<bool, Fault>
    requires { IsHonest ⟦<Standard as PrimMeaning>⟧.answer registry.now }
{
    let args = flats(alloc, &[Int(2), Int(3)])?;
    if !registry.has(b"add", args.len()) {
        return Ok(false);
    }
    Ok(matches!(registry.call(b"add", &args), Err(Fault::Memory)))
}

#[test]
fn a_name_is_registered_once(rt: HostRuntime) -> Result<(), Fail> {
    let alloc = rt.alloc();
    let mut registry = Registry::<Standard>::new(alloc);
    for (arity, is_second) in [(2, false), (3, true)] {
        let action: Action = Box::new(
            alloc,
            |args: &[Flat]| -> Result<Option<Flat>, AllocError> { Ok(add(args)) },
        )?;
        let prim = Prim::new(b"add".to_vec(alloc)?, arity, action);
        let is_named = prim.name() == b"add".as_slice() && prim.arity() == arity;
        let answer = registry.register(prim);
        if !is_named || matches!(answer, Err(Fault::DuplicateDeclaration)) != is_second {
            return Err(Fail::new(arity));
        }
    }
    if registry.len() != 1 || !registry.has(b"add", 2) || registry.has(b"add", 3) {
        return Err(Fail::new("the first alone is there"));
    }
    if !adds(alloc, &registry)? {
        return Err(Fail::new("the first is called"));
    }
    Ok(())
}

/// Whether the set has this many names, among them `add` with 2 arguments, and with 1 where it should.
fn has_add(names: &PrimNames, count: usize, with_one: bool) -> bool {
    names.len() == count && names.has(b"add", 2) && names.has(b"add", 1) == with_one
}

/// Whether the set has `add` with 2 arguments alone.
fn is_of_add(names: &PrimNames) -> bool {
    names.len() == 1 && names.at(0) == (b"add".as_slice(), 2) && has_add(names, 1, false)
}

/// Whether the set, which has `add` with 2 arguments, has it once more only with another number.
fn grows_once(names: &mut PrimNames) -> Result<bool, AllocError> {
    names.insert(b"add", 2)?;
    let is_as_it_was = has_add(names, 1, false);
    names.insert(b"add", 1)?;
    Ok(is_as_it_was && has_add(names, 2, true))
}

#[test]
fn names_of_a_registry(rt: HostRuntime) -> Result<(), Fail> {
    let alloc = rt.alloc();
    let mut registry = Registry::<Standard>::new(alloc);
    let action: Action = Box::new(alloc, |args: &[Flat]| -> Result<Option<Flat>, AllocError> {
        Ok(add(args))
    })?;
    registry.register(Prim::new(b"add".to_vec(alloc)?, 2, action))?;
    let mut names = registry.names(alloc)?;
    if !is_of_add(&names) || !registry.covers(&names) {
        return Err(Fail::new("the names of the registry"));
    }
    if !grows_once(&mut names)? || registry.covers(&names) {
        return Err(Fail::new("a name that is not registered"));
    }
    Ok(())
}

#[test]
fn a_set_of_names(rt: HostRuntime) -> Result<(), Fail> {
    let mut names = PrimNames::new(rt.alloc());
    if !names.is_empty() || names.has(b"add", 2) {
        return Err(Fail::new("no name"));
    }
    names.insert(b"add", 2)?;
    if names.is_empty() || !has_add(&names, 1, false) {
        return Err(Fail::new("one name"));
    }
    Ok(())
}

/// Names with numbers of arguments.
const NAMES: &[(&[u8], usize)] = &[
    (b"add", 2),
    (b"add", 1),
    (b"", 0),
    (b"a_name_of_more_than_some_bytes", 2),
    (b"ad", 2),
    (b"add", 0),
    (b"sub", 2),
    (b"mul", 2),
    (b"div", 2),
];

/// Whether these are the first of the names, as many as this, in their order.
fn are_first(names: &PrimNames, count: usize) -> bool {
    for index in 0..names.len() {
        let (name, arity) = names.at(index);
        if NAMES.get(index) != Some(&(name, arity)) {
            return false;
        }
    }
    names.len() == count
}

/// Inserts a name after this many others, once more where memory is refused. Whether the set is as it was after the refusal, and has one more in
/// the end.
fn is_inserted(
    names: &mut PrimNames,
    index: usize,
    name: &[u8],
    arity: usize,
) -> Result<bool, AllocError> {
    if names.insert(name, arity).is_err() {
        if !are_first(names, index) {
            return Ok(false);
        }
        names.insert(name, arity)?;
    }
    Ok(are_first(names, index.saturating_add(1)))
}

#[test]
fn names_one_by_one(rt: HostRuntime) -> Result<(), Fail> {
    let mut names = PrimNames::new(rt.alloc());
    for (index, (name, arity)) in NAMES.iter().enumerate() {
        if !is_inserted(&mut names, index, name, *arity)? {
            return Err(Fail::new(index));
        }
    }
    Ok(())
}

/// Whether the registry has exactly the first standard primitives, as many as this, each at its place.
fn has_first(registry: &Registry<Standard>, count: usize) -> bool {
    for (index, primitive) in STANDARD.iter().enumerate() {
        let place = registry.position(primitive.name(), primitive.arity());
        if place != (if index < count { Some(index) } else { None }) {
            return false;
        }
    }
    registry.len() == count
}

/// A primitive that cannot be registered since memory is out leaves the registry as it was.
#[test]
fn primitives_one_by_one(rt: HostRuntime) -> Result<(), Fail> {
    let alloc = rt.alloc();
    let mut registry = Registry::<Standard>::new(alloc);
    for (index, primitive) in STANDARD.iter().enumerate() {
        let primitive = *primitive;
        let action: Action = Box::new(
            alloc,
            move |args: &[Flat]| -> Result<Option<Flat>, AllocError> {
                primitive.answer(alloc, args)
            },
        )?;
        let name = primitive.name().to_vec(alloc)?;
        let registered = registry.register(Prim::new(name, primitive.arity(), action));
        let count = if registered.is_ok() {
            index.saturating_add(1)
        } else {
            index
        };
        if !has_first(&registry, count) {
            return Err(Fail::new(index));
        }
        registered?;
    }
    Ok(())
}

/// A primitive that is refused memory makes the call end with the fault `Memory`.
#[test]
fn a_call_without_memory(rt: HostRuntime) -> Result<(), Fail> {
    let alloc = rt.alloc();
    let mut registry = Registry::<Standard>::new(alloc);
    let action: Action = Box::new(
        alloc,
        |_args: &[Flat]| -> Result<Option<Flat>, AllocError> { Err(AllocError) },
    )?;
    registry.register(Prim::new(b"add".to_vec(alloc)?, 2, action))?;
    if !is_refused_memory(alloc, &registry)? {
        return Err(Fail::new("another answer"));
    }
    Ok(())
}
