//! The texts on the command line: the help text and the version, and what is wrong with words that ask for no run.
use clap::{Arg, ArgAction, Command, Error, value_parser};
use std::alloc::{AllocError, Global};

/// How the program is called, in the help text and in texts on faults of the command line.
const USAGE: &str =
    "strc [--rules N | --no-limit] [--main NAME] [--strict] [--stats] [--explain] [--counts | --counts-all]
            [--profile] [--trace NAME]... [--failures] [--raw | --pretty] [--with FILE]... [DEFS [TERM]]
       strc --check [--main NAME] [--with FILE]... [DEFS]";

/// The end of the help text.
const EXAMPLES: &str = "\
Without TERM the text of the term is standard input. Without both paths standard input has the definitions,
a line '#term' and the text of the term. With --check there is no term, and nothing after that line is looked at.

The files of --with, a line feed after each, and then the other definitions are read as one text. The word
prelude stands for the prelude that is installed with the program, and ./prelude for a file of that name.

Definitions may call the library (try, repeat, topdown, bottomup, oncetd, oncebu, alltd, innermost, map) and, by
prim(\"name\", ..), the primitives add, sub, mul, div, mod, less, concat, length, explode, implode, int_text and text_int.

Examples:
  strc rules.str term.aterm
  strc rules.str < term.aterm
  strc < joined
  strc --main simplify --rules 500 --strict rules.str term.aterm
  strc --with prelude rules.str term.aterm
  strc --pretty rules.str term.aterm
  strc --counts rules.str term.aterm
  strc --check rules.str

Exit status:
  0  the term was rewritten, and the result is printed; also for --help, --version, and --check if nothing is refused
  1  the strategy failed: #failed
  2  the definitions or the term are refused: #refused and the fault
  3  the rules are spent, or a term would be too large: #spent, #oversize
  4  reading, writing or memory failed
  5  the command line is wrong";

/// What the flags do, in the help text.
const STRICT: &str = "Refuse a term with an application that the definitions do not declare";

const NO_LIMIT: &str = "Let the run take up to 1000000000000000000 rules";

const STATS: &str =
    "Print on standard error how many rules, steps and shapes of terms the run took";

const EXPLAIN: &str = "Say on standard error why the run has no result, and print warnings";

const COUNTS: &str =
    "Print on standard error how often each alternative of DEFS was tried, matched and succeeded";

const COUNTS_ALL: &str = "The same for the alternatives of the files of --with, too";

const PROFILE: &str = "Print on standard error how many rules each definition took";

const TRACE: &str =
    "Print on standard error the calls of the definition of this name; may be given more than once";

const FAILURES: &str = "With --trace: print only the calls that fail";

const CHECK: &str = "Check the definitions alone: print the faults and warnings on standard error";

const WITH: &str =
    "A file of definitions that is read in front of the others; may be given more than once";

const RAW: &str = "Print a result that is a string as its bytes, without quotes and line feed";

const PRETTY: &str = "Print the result in several lines, with indentation";

/// Returns the option for the number of rules.
fn rules<'a>(alloc: Global) -> Arg<'a> {
    Arg::new(alloc, "rules")
        .long("rules")
        .value_name("N")
        .allow_negative_numbers(true)
        .value_parser(value_parser!(u32).range(0..=1_000_000_000))
        .help("The most rules of the run, from 0 to 1000000000 [default: 1000000]")
}

/// Returns the option for the name of the strategy. Any word is taken as the name, one with a hyphen in front too.
fn main_name<'a>(alloc: Global) -> Arg<'a> {
    Arg::new(alloc, "main")
        .long("main")
        .value_name("NAME")
        .allow_hyphen_values(true)
        .help("The strategy that is applied, one without parameters [default: main]")
}

/// Returns the option for a file in front of the definitions, which may be given more than once.
fn library<'a>(alloc: Global) -> Arg<'a> {
    Arg::new(alloc, "with")
        .long("with")
        .value_name("FILE")
        .action(ArgAction::Append)
        .help(WITH)
}

/// Returns the option for a definition whose calls are shown, which may be given more than once.
fn traced<'a>(alloc: Global) -> Arg<'a> {
    Arg::new(alloc, "trace")
        .long("trace")
        .value_name("NAME")
        .action(ArgAction::Append)
        .help(TRACE)
}

/// Returns a flag of this name.
fn flag<'a>(alloc: Global, name: &'a str, help: &'a str) -> Arg<'a> {
    Arg::new(alloc, name)
        .long(name)
        .action(ArgAction::SetTrue)
        .help(help)
}

/// Returns the argument for the path of the definitions.
fn definitions<'a>(alloc: Global) -> Arg<'a> {
    Arg::new(alloc, "DEFS").help("The file of definitions")
}

/// Returns the argument for the path of the term.
fn term<'a>(alloc: Global) -> Arg<'a> {
    Arg::new(alloc, "TERM").help("The file of the term")
}

/// Returns the program with its texts, without options and paths.
fn command_with_texts<'a>(alloc: Global) -> Command<'a> {
    Command::new(alloc, "strc")
        .version("0.1.0")
        .about("Rewrites a term by a strategy of a definition file, and prints the result")
        .override_usage(USAGE)
        .after_help(EXAMPLES)
}

/// Returns the program with its options and paths.
fn command<'a>(alloc: Global) -> Result<Command<'a>, Error> {
    let command = command_with_texts(alloc).arg(rules(alloc))?;
    let command = command.arg(flag(alloc, "no-limit", NO_LIMIT))?;
    let command = command.arg(main_name(alloc))?;
    let command = command.arg(flag(alloc, "strict", STRICT))?;
    let command = command.arg(flag(alloc, "stats", STATS))?;
    let command = command.arg(flag(alloc, "explain", EXPLAIN))?;
    let command = command.arg(flag(alloc, "counts", COUNTS))?;
    let command = command.arg(flag(alloc, "counts-all", COUNTS_ALL))?;
    let command = command.arg(flag(alloc, "profile", PROFILE))?;
    let command = command.arg(traced(alloc))?;
    let command = command.arg(flag(alloc, "failures", FAILURES))?;
    let command = command.arg(flag(alloc, "check", CHECK))?;
    let command = command.arg(flag(alloc, "raw", RAW))?;
    let command = command.arg(flag(alloc, "pretty", PRETTY))?;
    let command = command.arg(library(alloc))?;
    let command = command.arg(definitions(alloc))?;
    Ok(command.arg(term(alloc))?)
}

/// Returns what the program has to say on words that ask for no run, of which the first is the name of the program: what is wrong with them,
/// the help text or the version, or that memory was refused; nothing if the words look right here.
pub fn error_of(alloc: Global, words: &[String]) -> Option<Error> {
    match command(alloc) {
        Ok(command) => match command.try_get_matches_from(words) {
            Ok(_) => None,
            Err(error) => Some(error),
        },
        Err(error) => Some(error),
    }
}

/// What is said if nothing is found wrong with words that ask for no run.
pub(crate) fn usage_error(alloc: Global) -> Result<String, AllocError> {
    format!(in alloc;
        "error: the words ask for no run\n\nUsage: {USAGE}\n\nFor more information, try '--help'.\n"
    )
}
