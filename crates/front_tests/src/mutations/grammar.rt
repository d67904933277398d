//! The grammar of definition files as a table of productions, for the second reading.
use super::words::{Kind, Word};
use std::alloc::{AllocError, Global};

/// Each kind of phrase with its forms. In a form `name` is any name, `plain-name` one without ', `integer` and `quoted` are as they say,
/// and `no-build` is no token, but stands only in front of the end or of a token with which no build begins. A word that begins with a
/// capital is a kind of phrase, and any other is itself. Each kind of phrase that can be of no token has the empty form.
const FILES: &[(&str, &[&str])] = &[
    ("File", &["", "File Section"]),
    (
        "Section",
        &["signature Parts", "rules Forms", "strategies Forms"],
    ),
    ("Parts", &["", "Parts Part"]),
    ("Part", &["sorts SortRun", "constructors Declarations"]),
    ("SortRun", &["", "SortRun Sort"]),
    ("Declarations", &["", "Declarations Declaration"]),
    (
        "Declaration",
        &[
            "plain-name : Sort",
            "plain-name : Factors -> Sort",
            ": Factors -> Sort",
        ],
    ),
    ("Factors", &["Sort", "Factors * Sort"]),
    ("Sort", &["name", "name ( Sorts )"]),
    ("Sorts", &["Sort", "Sorts , Sort"]),
    ("Forms", &["", "Forms Form"]),
    ("Form", &["name Parameters : Rule", "Definition"]),
    ("Definition", &["name Parameters = Strategy"]),
    ("Definitions", &["Definition", "Definitions Definition"]),
    ("Parameters", &["", "( Names )", "( Names | Names )"]),
    ("Names", &["", "SomeNames"]),
    ("SomeNames", &["name", "SomeNames , name"]),
    ("Rule", &["Match -> Build", "Match -> Build where Strategy"]),
];

const STRATEGIES: &[(&str, &[&str])] = &[
    (
        "Strategy",
        &[
            "Sequence",
            "Sequence <+ Strategy",
            "Sequence < Strategy + Strategy",
        ],
    ),
    ("Sequence", &["Step", "Step ; Sequence"]),
    ("Step", &["Primary", "Primary => Match"]),
    (
        "Primary",
        &[
            "id",
            "fail",
            "? Match",
            "! Build",
            "< Strategy > Build",
            "( Strategy )",
            "{ SomeNames : Strategy }",
            "where ( Strategy )",
            "not ( Strategy )",
            "all ( Strategy )",
            "one ( Strategy )",
            "some ( Strategy )",
            "if Strategy then Strategy end",
            "if Strategy then Strategy else Strategy end",
            "rec name ( Strategy )",
            "let Definitions in Strategy end",
            "prim ( quoted MoreBuilds )",
            "\\ Rule \\",
            "name",
            "name ( Strategies )",
            "name ( Strategies | Builds )",
            "( )",
            "( Strategy , SomeStrategies )",
            "[ Strategies ]",
            "[ SomeStrategies | Strategy ]",
        ],
    ),
    ("Strategies", &["", "SomeStrategies"]),
    ("SomeStrategies", &["Strategy", "SomeStrategies , Strategy"]),
];

const PATTERNS: &[(&str, &[&str])] = &[
    (
        "Match",
        &["BareMatch", "BareMatch { Matches }", "name @ Match"],
    ),
    (
        "BareMatch",
        &[
            "name",
            "_",
            "integer",
            "quoted",
            "plain-name ( Matches )",
            "( )",
            "( Match )",
            "( Match , SomeMatches )",
            "[ Matches ]",
            "[ SomeMatches | Match ]",
        ],
    ),
    ("Matches", &["", "SomeMatches"]),
    ("SomeMatches", &["Match", "SomeMatches , Match"]),
    (
        "Build",
        &[
            "BareBuild",
            "BareBuild { Builds }",
            "name @ Build",
            "< Strategy > no-build",
            "< Strategy > Build",
        ],
    ),
    (
        "BareBuild",
        &[
            "name",
            "_",
            "integer",
            "quoted",
            "plain-name ( Builds )",
            "( )",
            "( Build )",
            "( Build , SomeBuilds )",
            "[ Builds ]",
            "[ SomeBuilds | Build ]",
        ],
    ),
    ("Builds", &["", "SomeBuilds"]),
    ("SomeBuilds", &["Build", "SomeBuilds , Build"]),
    ("MoreBuilds", &["", "MoreBuilds , Build"]),
];

/// What a form says comes next.
#[derive(Clone, Copy, PartialEq, Eq)]
pub(crate) enum Symbol {
    /// A phrase of the kind of this number.
    Phrase(usize),
    Name,
    PlainName,
    Integer,
    Quoted,
    /// No word, but none with which a build begins comes next.
    NoBuild,
    /// This word.
    Word(&'static str),
}

impl Symbol {
    /// The symbol of the table's word, which is no kind of phrase.
    fn of_word(word: &'static str) -> Symbol {
        match word {
            "name" => Symbol::Name,
            "plain-name" => Symbol::PlainName,
            "integer" => Symbol::Integer,
            "quoted" => Symbol::Quoted,
            "no-build" => Symbol::NoBuild,
            _ => Symbol::Word(word),
        }
    }

    /// Whether the symbol is for words, and this is one of them.
    pub(crate) fn is_for(self, word: Word<'_>) -> bool {
        match self {
            Symbol::Phrase(_) | Symbol::NoBuild => false,
            Symbol::Name => matches!(word.kind, Kind::PlainName | Kind::PrimedName),
            Symbol::PlainName => word.kind == Kind::PlainName,
            Symbol::Integer => word.kind == Kind::Integer,
            Symbol::Quoted => word.kind == Kind::Quoted,
            Symbol::Word(text) => word.text == text,
        }
    }
}

/// Whether a build can begin with the word.
pub(crate) fn begins_build(word: Word<'_>) -> bool {
    word.kind != Kind::Other || matches!(word.text, "_" | "(" | "[" | "<")
}

/// The forms of each kind of phrase, by its number; files are number 0.
#[derive(Drop)]
pub(crate) struct Grammar {
    pub(crate) phrases: Vec<Vec<Vec<Symbol>>>,
}

/// The number of the kind of phrase of this name.
fn number(names: &[&'static str], name: &str) -> Option<usize> {
    names.iter().position(|other| *other == name)
}

/// The symbols of a form.
fn symbols(
    alloc: Global,
    names: &[&'static str],
    form: &'static str,
) -> Result<Vec<Symbol>, AllocError> {
    let mut symbols = Vec::new(alloc);
    for word in form.split_whitespace() {
        symbols.push(match number(names, word) {
            Some(number) => Symbol::Phrase(number),
            None => Symbol::of_word(word),
        })?;
    }
    Ok(symbols)
}

/// The tables one after another.
const TABLES: [&[(&str, &[&str])]; 3] = [FILES, STRATEGIES, PATTERNS];

/// The names of the kinds of phrases, in the order of their numbers.
fn names(alloc: Global) -> Result<Vec<&'static str>, AllocError> {
    let mut names = Vec::new(alloc);
    for table in TABLES {
        for (name, _) in table {
            names.push(*name)?;
        }
    }
    Ok(names)
}

/// The forms of a kind of phrase.
fn forms_of(
    alloc: Global,
    names: &[&'static str],
    forms: &'static [&'static str],
) -> Result<Vec<Vec<Symbol>>, AllocError> {
    let mut made = Vec::new(alloc);
    for form in forms {
        made.push(symbols(alloc, names, form)?)?;
    }
    Ok(made)
}

/// The forms of all kinds of phrases, by these names.
fn phrases(alloc: Global, names: &[&'static str]) -> Result<Vec<Vec<Vec<Symbol>>>, AllocError> {
    let mut phrases = Vec::new(alloc);
    for table in TABLES {
        for (_, forms) in table {
            phrases.push(forms_of(alloc, names, forms)?)?;
        }
    }
    Ok(phrases)
}

/// The grammar of the tables.
pub(crate) fn grammar_of_tables(alloc: Global) -> Result<Grammar, AllocError> {
    let names = names(alloc)?;
    let phrases = phrases(alloc, &names)?;
    Ok(Grammar { phrases })
}
