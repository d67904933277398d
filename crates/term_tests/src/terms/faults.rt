//! Faults: their numbers and words, what they say, and how they are compared.
use std::alloc::{AllocError, AllocFailed, Global};
use std::test::Fail;
use term_model::Fault;

/// Faults with their numbers and words.
const FAULTS: &[(Fault, u8, &str)] = &[
    (Fault::Memory, 1, "Memory"),
    (Fault::Read, 2, "Read"),
    (Fault::Write, 3, "Write"),
    (Fault::DefsTooLong, 4, "DefsTooLong"),
    (Fault::Lexical { at: 3 }, 5, "Lexical"),
    (Fault::ReservedWord { at: 0 }, 6, "ReservedWord"),
    (Fault::Syntax { at: 0 }, 7, "Syntax"),
    (Fault::Nesting { at: 0 }, 8, "Nesting"),
    (Fault::DuplicateDeclaration, 9, "DuplicateDeclaration"),
    (Fault::Undeclared, 10, "Undeclared"),
    (Fault::Parameters, 11, "Parameters"),
    (Fault::Clash, 12, "Clash"),
    (Fault::UnknownStrategy, 13, "UnknownStrategy"),
    (Fault::NotBuildable, 14, "NotBuildable"),
    (Fault::UnknownPrimitive, 15, "UnknownPrimitive"),
    (Fault::NoMain, 16, "NoMain"),
    (Fault::TermTooLong, 17, "TermTooLong"),
    (Fault::TermSyntax { at: 0 }, 18, "TermSyntax"),
    (Fault::TermOversize { at: 0 }, 19, "TermOversize"),
    (Fault::TermUndeclared, 20, "TermUndeclared"),
];

#[test]
fn numbers_and_words() -> Result<(), Fail> {
    for (fault, number, word) in FAULTS {
        if fault.number() != *number || fault.word() != *word {
            return Err(Fail::new(word));
        }
    }
    Ok(())
}

/// Whether the fault says this.
fn says(alloc: Global, fault: &Fault, message: &str) -> Result<bool, AllocError> {
    let said = format!(in alloc; "{fault}")?;
    Ok(said.as_str() == message)
}

#[test]
fn messages(rt: HostRuntime) -> Result<(), Fail> {
    let message = "the definitions have no token at byte 3";
    if !says(rt.alloc(), &Fault::Lexical { at: 3 }, message)? {
        return Err(Fail::new(message));
    }
    Ok(())
}

#[test]
fn refused_memory_is_a_fault() -> Result<(), Fail> {
    if Fault::from(AllocError) != Fault::Memory {
        return Err(Fail::new("AllocError"));
    }
    if Fault::from(AllocFailed { value: 7 }) != Fault::Memory {
        return Err(Fail::new("AllocFailed"));
    }
    Ok(())
}

/// Whether the fault is the same as its copy.
fn equals_its_copy(fault: &Fault) -> Result<bool, AllocError> {
    Ok(fault.clone()? == *fault)
}

#[test]
fn places_are_compared() -> Result<(), Fail> {
    let (third, fourth) = (Fault::Lexical { at: 3 }, Fault::Lexical { at: 4 });
    if third == fourth {
        return Err(Fail::new("faults at two places"));
    }
    if !equals_its_copy(&Fault::TermSyntax { at: 7 })? {
        return Err(Fail::new("a fault and its copy"));
    }
    Ok(())
}
