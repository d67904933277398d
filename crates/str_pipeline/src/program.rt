//! Definitions that are compiled once and rewrite one term after another.
ghost use Rattle.std.specs.Prelude.{◌≡◌, ◌<◌, ◌≤◌, ℕ, List, length, vec_len, false, IfOk, IfErr, IsErrOf, IsTrue};
ghost use Rattle.aterm_text.specs.ReadIn.{map_ok};
ghost use Rattle.prim_registry.specs.Entries.{IsHonest, entries_of};
ghost use Rattle.prim_registry.specs.RegistryNames.{Covers};
ghost use Rattle.str_syntax.specs.Trees.{FileTree};
ghost use Rattle.str_pipeline.specs.Faults.{IsOfDefinitions, RefusesDefinitions, is_read_fault};
ghost use Rattle.str_pipeline.specs.Judged.{AreAccepted};
ghost use Rattle.str_pipeline.specs.Limits.{max_term};
ghost use Rattle.str_pipeline.specs.Setting.{Setting, setting_of};
ghost use Rattle.str_pipeline.specs.Steps.{IsCompiledOf, IsProgram, IsProgramOf, IsReady, IsStop, IsTermRead, IsTextOfRun, IsTextResult};
ghost use Rattle.str_pipeline.specs.Transformation.{Ends};
ghost use Rattle.str_pipeline.specs.Written.{HasWritten, HasBegun};
ghost use Rattle.term_model.specs.Limits.{max_budget};
ghost use Rattle.term_model.specs.PrimNames.{NameKey};
ghost use Rattle.term_store.specs.StoredTerms.{stored_terms};

use crate::answer::noted_term;
use crate::compiled::{CompiledFile, compile_to_run};
use crate::pipeline::finish;
use crate::runs::{Holds, run_machine};
use crate::sink::Sink;
use crate::status::{Options, Status};
use core_lang::Outcome;
use diagnostics::RunNotes;
use keyed_hash::HashKeys;
use prim_registry::{PrimMeaning, Registry};
use signature_core::Signature;
use std::alloc::{AllocError, Global};
use strat_code::Code;
use strat_machine::Loaded;
use term_model::Fault;
use term_store::StoreSpace;

/// Definitions in which nothing is wrong, compiled for the definition that is run, and loaded into a store of terms. Between calls of
/// `rewrite` the store holds no term.
#[derive(Drop)]
pub struct Program {
    signature: Signature,
    code: Code,
    space: StoreSpace,
    loaded: Loaded<StoreSpace>,
}

impl Program {
    /// Judges definitions, compiles them for the definition that the options name, with the library after them, and loads the code into a
    /// store whose tables hash with the keys. Of the options only the name matters. The primitives that can be called are those of the
    /// registry. Definitions of more than `MAX_DEFINITIONS` bytes are for the caller to refuse.
    ///
    /// # Errors
    /// The first fault of the definitions, in the order that `transform` has. Why they are refused is noted. `Memory` if a growth was
    /// refused, at any time.
    pub fn new<M: PrimMeaning>(
        alloc: Global,
        keys: HashKeys,
        definitions: &[u8],
        options: &Options,
        registry: &Registry<M>,
        notes: &mut RunNotes,
    ) -> Result<Program, Fault>
        ensures program { IsProgram (setting_of M.answer registry.now options.now)
            definitions.now result }
        ensures covers { IfOk result (λ program. Covers registry.now program.code.prims) }
        ensures ready { IfOk result (IsReady (entries_of registry.now)) }
    {
        let compiled = compile_to_run(alloc, keys, definitions, options, registry, notes)?;
        let program = Program::load(alloc, keys, compiled, registry)?;
        Ok(program)
    }

    /// Rewrites the term of this text, and writes one line with its line feed, as `transform` does. Of the options strict mode and the budget
    /// matter; the name of the definition that is run is that of `new`. The registry has the primitives of `new`, in their order. What was
    /// noted before is dropped, and what a person wants to know of this term is noted.
    ///
    /// Whatever is returned, the store holds no term afterwards, and the program is ready for the next term. Names that came with a term
    /// stay, and so does the memory of the store.
    ///
    /// # Errors
    /// `Memory` if a growth was refused, here or in a primitive: nothing was written. `Write` if a write failed or took no byte: a beginning of
    /// the line was written.
    pub fn rewrite<M: PrimMeaning, W: Sink>(
        &mut self,
        alloc: Global,
        text: &[u8],
        options: &Options,
        registry: &Registry<M>,
        notes: &mut RunNotes,
        out: &mut W,
    ) -> Result<Status, Fault>
        requires fits { length text.now ≤ max_term }
        requires budget { options.now.budget ≤ max_budget }
        requires honest { IsHonest M.answer registry.now }
        requires covers { Covers registry.now self.old.code.prims }
        requires ready { IsReady (entries_of registry.now) self.old }
        ensures written { IfOk result (λ status. (d : List ℕ) (f : FileTree) →
            AreAccepted (setting_of M.answer registry.now options.now) d f →
            IsProgramOf (setting_of M.answer registry.now options.now) f self.old →
            HasWritten d text.now (setting_of M.answer registry.now options.now) status
            (W.writer.written out.old) (W.writer.written out.new)) }
        ensures begun { IsErrOf result Fault.Write → (d : List ℕ) (f : FileTree) →
            AreAccepted (setting_of M.answer registry.now options.now) d f →
            IsProgramOf (setting_of M.answer registry.now options.now) f self.old →
            HasBegun d text.now (setting_of M.answer registry.now options.now)
            (W.writer.written out.old) (W.writer.written out.new) }
        ensures ends { Ends W.writer out.old out.new result }
        ensures apart { IfOk result (λ status. RefusesDefinitions status → ⊥) }
        ensures ready { IsReady (entries_of registry.now) self.new }
        ensures same { (self.new.signature ≡ self.old.signature) × (self.new.code ≡ self.old.code) }
    {
        notes.begin();
        let outcome = self.next_outcome(alloc, text, options, registry, notes);
        self.empty();
        notes.note_outcome(&outcome);
        finish(alloc, outcome, out)
    }

    /// Writes the line of a text of more than `MAX_TERM` bytes, which need not be kept: `#refused TermTooLong`. What was noted before is
    /// dropped, and the refusal is noted. The program does not matter.
    ///
    /// # Errors
    /// As of `rewrite`.
    pub fn refuse_long<W: Sink>(
        &self,
        alloc: Global,
        notes: &mut RunNotes,
        out: &mut W,
    ) -> Result<Status, Fault>
        ensures written { IfOk result (λ status. (d t : List ℕ) (S : Setting) (f : FileTree) →
            AreAccepted S d f → max_term < length t →
            HasWritten d t S status (W.writer.written out.old) (W.writer.written out.new)) }
        ensures begun { IsErrOf result Fault.Write → (d t : List ℕ) (S : Setting) (f : FileTree) →
            AreAccepted S d f → max_term < length t →
            HasBegun d t S (W.writer.written out.old) (W.writer.written out.new) }
        ensures ends { Ends W.writer out.old out.new result }
        ensures apart { IfOk result (λ status. RefusesDefinitions status → ⊥) }
    {
        notes.begin();
        let outcome = Err(Fault::TermTooLong);
        notes.note_outcome(&outcome);
        finish(alloc, outcome, out)
    }

    /// Loads the code of a file into a store of its own, and drops the trees of the file.
    fn load<M: PrimMeaning>(
        alloc: Global,
        keys: HashKeys,
        compiled: CompiledFile,
        registry: &Registry<M>,
    ) -> Result<Program, AllocError>
        ensures of { IfOk result (λ program. (S : Setting) (f : FileTree) →
            IsCompiledOf S f compiled → IsProgramOf S f program) }
        ensures code { IfOk result (λ program. program.code ≡ compiled.code) }
        ensures ready { IfOk result (IsReady (entries_of registry.now)) }
    {
        let CompiledFile { checked, code } = compiled;
        let signature = checked.into_signature();
        let mut space = StoreSpace::new(alloc, keys);
        let loaded = Loaded::new(&mut space, alloc, &code, registry)?;
        Ok(Program {
            signature,
            code,
            space,
            loaded,
        })
    }

    /// Returns what the program does with the term of this text, as `next_outcome` does, and drops the text before the run unless it is to be
    /// kept.
    #[tactic(auto, using(crate::proofs::FaultLaws::text_stops, crate::proofs::FaultLaws::text_apart, crate::proofs::FaultLaws::text_no_read))]
    fn last_outcome<M: PrimMeaning>(
        &mut self,
        alloc: Global,
        text: Vec<u8>,
        options: &Options,
        registry: &Registry<M>,
        notes: &mut RunNotes,
    ) -> Result<Outcome<Vec<u8>>, Fault>
        requires fits { vec_len text ≤ max_term }
        requires budget { options.now.budget ≤ max_budget }
        requires honest { IsHonest M.answer registry.now }
        requires covers { Covers registry.now self.old.code.prims }
        requires ready { IsReady (entries_of registry.now) self.old }
        ensures result { (d : List ℕ) (f : FileTree) →
            AreAccepted (setting_of M.answer registry.now options.now) d f →
            IsProgramOf (setting_of M.answer registry.now options.now) f self.old →
            IsTextResult d text.items (setting_of M.answer registry.now options.now) result }
        ensures kinds { IfErr result IsStop }
        ensures apart { IfErr result (λ fault. IsOfDefinitions fault → ⊥) }
        ensures read { is_read_fault result ≡ false }
    {
        let term = self.term(alloc, &text, options.strict, notes)?;
        notes.keep_term(text);
        let outcome = self.outcome(alloc, term, options.budget, registry, notes)?;
        Ok(outcome)
    }

    /// Returns what the program does with the term of this text, with the primitives of the registry, and the canonical text of the result
    /// in place of the result. The term is read into the store, and the run takes place there. The fault is one of the term's, or `Memory`.
    #[tactic(auto, using(crate::proofs::FaultLaws::text_stops, crate::proofs::FaultLaws::text_apart, crate::proofs::FaultLaws::text_no_read))]
    fn next_outcome<M: PrimMeaning>(
        &mut self,
        alloc: Global,
        text: &[u8],
        options: &Options,
        registry: &Registry<M>,
        notes: &mut RunNotes,
    ) -> Result<Outcome<Vec<u8>>, Fault>
        requires fits { length text.now ≤ max_term }
        requires budget { options.now.budget ≤ max_budget }
        requires honest { IsHonest M.answer registry.now }
        requires covers { Covers registry.now self.old.code.prims }
        requires ready { IsReady (entries_of registry.now) self.old }
        ensures result { (d : List ℕ) (f : FileTree) →
            AreAccepted (setting_of M.answer registry.now options.now) d f →
            IsProgramOf (setting_of M.answer registry.now options.now) f self.old →
            IsTextResult d text.now (setting_of M.answer registry.now options.now) result }
        ensures kinds { IfErr result IsStop }
        ensures apart { IfErr result (λ fault. IsOfDefinitions fault → ⊥) }
        ensures read { is_read_fault result ≡ false }
        ensures ready { IsReady (entries_of registry.now) self.new }
        ensures same { (self.new.signature ≡ self.old.signature) × (self.new.code ≡ self.old.code) }
    {
        let term = self.term(alloc, text, options.strict, notes)?;
        let outcome = self.outcome(alloc, term, options.budget, registry, notes)?;
        Ok(outcome)
    }

    /// Reads a term into the store, and in strict mode asks that the signature declares each application in it. Why it is refused is noted.
    fn term(
        &mut self,
        alloc: Global,
        text: &[u8],
        is_strict: bool,
        notes: &mut RunNotes,
    ) -> Result<u32, Fault>
        ensures stands { IfOk result (λ r. IsTrue (stored_terms.stands self.new.space r)) }
        ensures read { IsTermRead is_strict self.old.signature text.now
            (map_ok (stored_terms.term_of self.new.space) result) }
        ensures ready { (keys : List NameKey) → IsReady keys self.old → IsReady keys self.new }
        ensures same { (self.new.signature ≡ self.old.signature) × (self.new.code ≡ self.old.code) }
    {
        noted_term(
            alloc,
            &mut self.space,
            &self.signature,
            text,
            is_strict,
            notes,
        )
    }

    /// Runs the code on the term of the reference, and returns the outcome with the canonical text of the result. What the run used is noted.
    /// The only fault is `Memory`.
    fn outcome<M: PrimMeaning>(
        &mut self,
        alloc: Global,
        term: u32,
        budget: u64,
        registry: &Registry<M>,
        notes: &mut RunNotes,
    ) -> Result<Outcome<Vec<u8>>, Fault>
        requires budget { budget ≤ max_budget }
        requires stands { IsTrue (stored_terms.stands self.old.space term) }
        requires honest { IsHonest M.answer registry.now }
        requires covers { Covers registry.now self.old.code.prims }
        requires ready { IsReady (entries_of registry.now) self.old }
        ensures outcome { IfOk result (λ told. IsTextOfRun M.answer self.old.code
            (stored_terms.term_of self.old.space term) budget told) }
        ensures fault { IfErr result (λ fault. fault ≡ Fault.Memory) }
        ensures ready { IsReady (entries_of registry.now) self.new }
        ensures same { (self.new.signature ≡ self.old.signature) × (self.new.code ≡ self.old.code) }
    {
        run_machine(
            alloc,
            &mut self.space,
            &mut self.loaded,
            &self.code,
            term,
            budget,
            registry,
            notes,
        )
    }

    /// Takes all terms out of the store. The code stays loaded.
    fn empty(&mut self)
        ensures ready { (keys : List NameKey) → IsReady keys self.old → IsReady keys self.new }
        ensures same { (self.new.signature ≡ self.old.signature) × (self.new.code ≡ self.old.code) }
    {
        self.space.forget();
    }
}

/// Loads the program of a file, and returns what it does with the term of this text, with the primitives of the registry, and the canonical
/// text of the result in place of the result. The text is dropped before the run unless it is to be kept. The fault is one of the term's, or
/// `Memory`.
pub(crate) fn outcome_of<M: PrimMeaning>(
    alloc: Global,
    keys: HashKeys,
    compiled: CompiledFile,
    text: Vec<u8>,
    options: &Options,
    registry: &Registry<M>,
    notes: &mut RunNotes,
) -> Result<Outcome<Vec<u8>>, Fault>
    requires fits { vec_len text ≤ max_term }
    requires budget { options.now.budget ≤ max_budget }
    requires honest { IsHonest M.answer registry.now }
    requires covers { Covers registry.now compiled.code.prims }
    ensures result { (d : List ℕ) (f : FileTree) →
        AreAccepted (setting_of M.answer registry.now options.now) d f →
        IsCompiledOf (setting_of M.answer registry.now options.now) f compiled →
        IsTextResult d text.items (setting_of M.answer registry.now options.now) result }
    ensures kinds { IfErr result IsStop }
    ensures apart { IfErr result (λ fault. IsOfDefinitions fault → ⊥) }
    ensures read { is_read_fault result ≡ false }
{
    let mut program = Program::load(alloc, keys, compiled, registry)?;
    program.last_outcome(alloc, text, options, registry, notes)
}
