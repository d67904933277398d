//! Where the files that a request names are opened.
ghost use Rattle.std.specs.Prelude.{◌≡◌, map, ℕ, List, IfErr, IfOk};
ghost use Rattle.str_pipeline.specs.Faults.{IsReadingFault};
ghost use Rattle.strc_command.specs.Elements.{texts_in};
ghost use Rattle.strc_command.specs.Files.{AreNamed, IsNamed, libraries_left, path_of, readers_of, texts_at};
ghost use Rattle.strc_command.specs.Report.{IsUnread};
ghost use Rattle.strc_command.specs.Runs.{Told, change};

use crate::definition_files::DefinitionFiles;
use crate::failure::Failure;
use crate::library_files::LibraryFiles;
use crate::paths::{Paths, installed};
use crate::stopping::{stop, stop_reading};
use std::alloc::Global;
use std::collections::VecDeque;
use str_pipeline::{Sink, Source};
use term_model::Fault;

/// The word of `--with` for the prelude that is installed with the program.
pub(crate) const PRELUDE_WORD: &str = "prelude";

/// The path of the prelude in the folder that contains the folder `bin` of the program.
const PRELUDE_PATH: &str = "share/strc/prelude.str";

/// A file that is read in front of the definitions.
#[derive(Drop)]
pub(crate) struct Library {
    pub(crate) path: String,
    /// Whether it is the installed prelude.
    pub(crate) is_prelude: bool,
}

/// A file that could not be opened: the fault, and what is reported to a person.
#[derive(Drop)]
pub(crate) struct Unopened<'a> {
    pub(crate) fault: Fault,
    pub(crate) failure: Failure<'a>,
}

impl<'a> Unopened<'a> {
    fn new(fault: Fault, failure: Failure<'a>) -> Unopened<'a>
        ensures { result.fault ≡ fault }
    {
        Unopened { fault, failure }
    }
}

/// Returns the file that a word of `--with` names. The fault is `Read` if the place of the installed prelude is not known, or `Memory`.
fn library_of<P: Paths>(alloc: Global, paths: &mut P, word: &str) -> Result<Library, Fault>
    ensures fault { IfErr result IsReadingFault }
    ensures named { IfOk result (λ library. IsNamed word.now (path_of library)) }
    ensures kept { (other : List ℕ) → P.text_at paths.new other ≡ P.text_at paths.old other }
{
    if word != PRELUDE_WORD {
        return Ok(Library {
            path: String::from_str(alloc, word)?,
            is_prelude: false,
        });
    }
    match installed(alloc, paths, PRELUDE_PATH)? {
        Some(path) => Ok(Library {
            path,
            is_prelude: true,
        }),
        None => Err(Fault::Read),
    }
}

/// Returns the files that the words of `--with` name, in their order. The fault is `Read` if the place of the installed prelude is not known,
/// or `Memory`.
fn libraries_of<P: Paths>(
    alloc: Global,
    paths: &mut P,
    words: &[&str],
) -> Result<Vec<Library>, Fault>
    ensures fault { IfErr result IsReadingFault }
    ensures kept { (other : List ℕ) → P.text_at paths.new other ≡ P.text_at paths.old other }
    ensures named { IfOk result (λ libraries.
        AreNamed (texts_in words.now) (map path_of libraries.items)) }
{
    let mut libraries = Vec::new(alloc);
    for word in words {
        libraries.push(library_of(alloc, paths, word)?)?;
    }
    Ok(libraries)
}

/// Returns the files that the words of `--with` name, in their order. If the place of the installed prelude is not known or memory is refused,
/// reports that, and returns 4 as the error.
pub(crate) fn find_libraries<P: Paths, E: Sink>(
    alloc: Global,
    paths: &mut P,
    words: &[&str],
    diagnostics: &mut E,
) -> Result<Vec<Library>, u8>
    ensures found { IfOk result (λ libraries. diagnostics.new ≡ diagnostics.old) }
    ensures kept { (other : List ℕ) → P.text_at paths.new other ≡ P.text_at paths.old other }
    ensures named { IfOk result (λ libraries.
        AreNamed (texts_in words.now) (map path_of libraries.items)) }
    ensures stopped { IfErr result (λ status. (status ≡ 4) ×
        Told (change E.writer diagnostics.old diagnostics.new) IsUnread) }
{
    match libraries_of(alloc, paths, words) {
        Ok(libraries) => Ok(libraries),
        Err(fault) => Err(stop_reading(alloc, &fault, Failure::of_prelude(), diagnostics)),
    }
}

/// Opens these files, in their order. An error says which one could not be opened, and why; the fault is `Read`, or `Memory`.
fn open_libraries<'a, P: Paths>(
    alloc: Global,
    paths: &mut P,
    libraries: &'a [Library],
) -> Result<VecDeque<P::Reader>, Unopened<'a>>
    ensures fault { IfErr result (λ unopened. IsReadingFault unopened.fault) }
    ensures texts { IfOk result (λ readers. map P.Reader.reader.coming readers.items
        ≡ map (λ library. P.text_at paths.old (path_of library)) libraries.now) }
    ensures kept { (other : List ℕ) → P.text_at paths.new other ≡ P.text_at paths.old other }
{
    let mut readers = VecDeque::new(alloc);
    for library in libraries {
        let path = library.path.as_str();
        match paths.open(path) {
            Ok(reader) => {
                if readers.push_back(reader).is_err() {
                    let failure = Failure::of_opening(path, paths);
                    return Err(Unopened::new(Fault::Memory, failure));
                }
            }
            Err(fault) => {
                let failure = Failure::of_library(path, paths, library.is_prelude);
                return Err(Unopened::new(fault, failure));
            }
        }
    }
    Ok(readers)
}

/// Opens the file at this path. If it cannot be opened, reports why, and returns 4 as the error.
pub(crate) fn open_reader<P: Paths, E: Sink>(
    alloc: Global,
    paths: &mut P,
    path: &str,
    diagnostics: &mut E,
) -> Result<P::Reader, u8>
    ensures opened { IfOk result (λ reader. diagnostics.new ≡ diagnostics.old) }
    ensures text { IfOk result (λ reader. P.Reader.reader.coming reader ≡
        P.text_at paths.old path.now) }
    ensures stopped { IfErr result (λ status. (status ≡ 4) ×
        Told (change E.writer diagnostics.old diagnostics.new) IsUnread) }
    ensures kept { (other : List ℕ) → P.text_at paths.new other ≡ P.text_at paths.old other }
{
    match paths.open(path) {
        Ok(reader) => Ok(reader),
        Err(fault) => {
            let failure = Failure::of_opening(path, paths);
            Err(stop_reading(alloc, &fault, failure, diagnostics))
        }
    }
}

/// Opens the files of libraries, in their order, and then that of the definitions. If one cannot be opened, reports why, and returns 4 as
/// the error; those after it are not opened.
#[tactic(auto, using(crate::proofs::CauseLaws::alone_told))]
pub(crate) fn open_definitions<P: Paths, E: Sink>(
    alloc: Global,
    paths: &mut P,
    libraries: &[Library],
    definitions: &str,
    diagnostics: &mut E,
) -> Result<DefinitionFiles<P::Reader>, u8>
    ensures opened { IfOk result (λ files. diagnostics.new ≡ diagnostics.old) }
    ensures texts { IfOk result (λ files. map P.Reader.reader.coming (readers_of files)
        ≡ texts_at (P.text_at paths.old) (map path_of libraries.now) definitions.now) }
    ensures stopped { IfErr result (λ status. (status ≡ 4) ×
        Told (change E.writer diagnostics.old diagnostics.new) IsUnread) }
    ensures kept { (other : List ℕ) → P.text_at paths.new other ≡ P.text_at paths.old other }
{
    let readers = match open_libraries(alloc, paths, libraries) {
        Ok(readers) => readers,
        Err(unopened) => {
            let Unopened { fault, failure } = unopened;
            return Err(stop_reading(alloc, &fault, failure, diagnostics));
        }
    };
    let last = open_reader(alloc, paths, definitions, diagnostics)?;
    match DefinitionFiles::new(alloc, readers, last) {
        Ok(files) => Ok(files),
        Err(_) => Err(stop(&Fault::Memory, diagnostics)),
    }
}

/// Opens the files of libraries, in their order, in front of definitions that come from elsewhere. If one cannot be opened, reports why, and
/// returns 4 as the error; those after it are not opened.
#[tactic(auto, using(crate::proofs::CauseLaws::alone_told))]
pub(crate) fn open_in_front<P: Paths, E: Sink>(
    alloc: Global,
    paths: &mut P,
    libraries: &[Library],
    diagnostics: &mut E,
) -> Result<LibraryFiles<P::Reader>, u8>
    ensures opened { IfOk result (λ files. diagnostics.new ≡ diagnostics.old) }
    ensures texts { IfOk result (λ files. map P.Reader.reader.coming (libraries_left files)
        ≡ map (P.text_at paths.old) (map path_of libraries.now)) }
    ensures stopped { IfErr result (λ status. (status ≡ 4) ×
        Told (change E.writer diagnostics.old diagnostics.new) IsUnread) }
{
    let readers = match open_libraries(alloc, paths, libraries) {
        Ok(readers) => readers,
        Err(unopened) => {
            let Unopened { fault, failure } = unopened;
            return Err(stop_reading(alloc, &fault, failure, diagnostics));
        }
    };
    match LibraryFiles::new(alloc, readers) {
        Ok(files) => Ok(files),
        Err(_) => Err(stop(&Fault::Memory, diagnostics)),
    }
}
