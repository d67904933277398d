//! The standard primitives, and the program over a registry of them.
ghost use Rattle.std.specs.Prelude.{◌≡◌, ◌+◌, ◌<◌, ◌≤◌, ◌++◌, ◌∷◌, ℤ, None, [], drop, false, length, map, string_bytes, Contains, IsTrue, IfErr, IfOk, IfSome, IsOkAnd, OnOk};
ghost use Rattle.strc_command.specs.Asked.{asked_of};
ghost use Rattle.std.specs.Option.{option_map};
ghost use Rattle.term_model.specs.Flat.{number};
ghost use Rattle.term_model.specs.declared.fault.Fault.{Fault};
ghost use Rattle.prim_registry.specs.Answers.{AnswersBy, CalculatesBy};
ghost use Rattle.prim_registry.specs.Entries.{IsHonest, entries_of};
ghost use Rattle.prim_registry.specs.Standard.{standard};
ghost use Rattle.prim_registry.specs.Values.{answer_of, values_of};
ghost use Rattle.str_pipeline.specs.Limits.{max_definitions, max_term};
ghost use Rattle.prim_registry.specs.StandardPrimitives.{is_arithmetic, key_of};
ghost use Rattle.strc_command.specs.Primitives.{names_of, standard_setting};
ghost use Rattle.strc_command.specs.Runs.{IsDone, RunsJoined, RunsPlain, Stops, WritesText, change, reads_of};

use crate::paths::Paths;
use crate::program::run;
use crate::stopping::stop;
use crate::words::refuse;
use keyed_hash::HashKeys;
use prim_registry::{
    Action, Calculation, Flat, Prim, PrimMeaning, Registry, STANDARD, Standard, StandardPrimitive,
};
use std::alloc::{AllocError, Global};
use std::io;
use str_pipeline::{Sink, Source};
use term_model::Fault;

/// Registers a standard primitive, whose name the registry does not have, with its function and, if it is arithmetic, with that on two
/// integers. The fault is `Memory`.
fn register(
    alloc: Global,
    registry: &mut Registry<Standard>,
    primitive: StandardPrimitive,
    action: Action,
    calculation: Calculation,
) -> Result<(), Fault>
    requires honest { IsHonest ⟦<Standard as PrimMeaning>⟧.answer registry.old }
    requires fresh { Contains (names_of (entries_of registry.old)) (key_of primitive).0 → ⊥ }
    requires may_run { (args : _) → length args.now ≡ (key_of primitive).1 →
        Action.pre action args }
    requires answers { AnswersBy (Action.post action)
        (key_of primitive).1 (standard (key_of primitive).0) }
    requires may_calculate { (left right : ℤ) → Calculation.pre calculation left right }
    requires calculates { IsTrue (is_arithmetic primitive) →
        CalculatesBy (Calculation.post calculation) (standard (key_of primitive).0) }
    ensures honest { IsHonest ⟦<Standard as PrimMeaning>⟧.answer registry.new }
    ensures registered { OnOk result (entries_of registry.new ≡ entries_of registry.old ++
        key_of primitive ∷ []) }
    ensures fault { IfErr result (λ fault. fault ≡ Fault.Memory) }
{
    let name = primitive.name().to_vec(alloc)?;
    let plain = Prim::new(name, primitive.arity(), action);
    if !primitive.is_arithmetic() {
        return registry.register(plain);
    }
    registry.register(plain.with_calculation(calculation))
}

/// Does as `run` does, over the twelve standard primitives. They are registered before the words of the command line are looked at; where
/// memory for that is refused the fault is `Memory`. Where there are no words, that is reported on `diagnostics`, and the status is 5, or 4
/// where memory was refused.
#[tactic(auto, using(crate::proofs::CauseLaws::line_told))]
pub fn run_standard<P: Paths, I: Source, W: Sink, E: Sink>(
    alloc: Global,
    keys: HashKeys,
    words: &io::Result<Vec<String>>,
    paths: &mut P,
    input: &mut I,
    out: &mut W,
    diagnostics: &mut E,
) -> u8
    ensures status { result ≤ 5 }
    ensures usage { result ≡ 5 → (out.new ≡ out.old) × (input.new ≡ input.old) }
    ensures stops { Stops (change W.writer out.old out.new)
        (change E.writer diagnostics.old diagnostics.new) result }
    ensures bounded { I.reader.reads input.new ≤ I.reader.reads input.old + max_definitions + 7 +
        max_term + 1 }
    ensures asked { IfOk words.now (λ ws. IfSome (asked_of (map string_bytes (drop 1 ws.items)))
        (λ asked. IsDone asked (P.text_at paths.old) (I.reader.coming input.old) standard_setting
        (change W.writer out.old out.new)
        (change E.writer diagnostics.old diagnostics.new) result)) }
    ensures joined { IfOk words.now (λ ws. IfSome (asked_of (map string_bytes (drop 1 ws.items)))
        (λ asked. asked.checks ≡ false → asked.paths ≡ [] → asked.libraries ≡ [] →
        RunsJoined asked (I.reader.coming input.old) (reads_of I.reader input.old input.new)
        standard_setting (change W.writer out.old out.new)
        (change E.writer diagnostics.old diagnostics.new) result)) }
    ensures unasked { IfOk words.now (λ ws. asked_of (map string_bytes (drop 1 ws.items)) ≡ None →
        result < 4 → (result ≡ 0) × WritesText (change W.writer out.old out.new)) }
    ensures plain { IsOkAnd words.now (λ ws. length ws.items ≤ 1) →
        RunsPlain (I.reader.coming input.old) (reads_of I.reader input.old input.new)
        standard_setting (change W.writer out.old out.new)
        (change E.writer diagnostics.old diagnostics.new) result }
{
    let mut registry = Registry::<Standard>::new(alloc);
    for primitive in STANDARD {
        let boxed = Box::new(
            alloc,
            move |args: &[Flat]| -> Result<Option<Flat>, AllocError>
                ensures { IfOk result (λ answer. answer_of answer ≡
                    standard (key_of primitive).0 (values_of args.now)) }
            { primitive.answer(alloc, args) },
        );
        let Ok(action) = boxed else {
            return stop(&Fault::Memory, diagnostics);
        };
        let boxed = Box::new(
            alloc,
            move |left: i64, right: i64| -> Option<i64>
                ensures { IsTrue (is_arithmetic primitive) → option_map number result ≡
                    standard (key_of primitive).0 (number left ∷ number right ∷ []) }
            { primitive.calculate(left, right) },
        );
        let Ok(calculation) = boxed else {
            return stop(&Fault::Memory, diagnostics);
        };
        if let Err(fault) = register(alloc, &mut registry, primitive, action, calculation) {
            return stop(&fault, diagnostics);
        }
    }
    match words {
        Ok(words) => run(
            alloc,
            keys,
            words,
            &registry,
            paths,
            input,
            out,
            diagnostics,
        ),
        Err(error) => refuse(error.kind(), diagnostics),
    }
}
