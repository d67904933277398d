//! What the words of the command line ask for.
ghost use Rattle.std.specs.Prelude.{◌≡◌, ◌≢◌, ◌≤◌, None, Some, drop, is_some, length, map, option_map, string_bytes, IfErr, IfOk, IfSome};
ghost use Rattle.term_model.specs.Limits.{max_budget};
ghost use Rattle.strc_command.specs.Asked.{HasValues, HasOptions, are_few, asked_by, asked_in, asked_of, asked_within, budget_in, first_or, form_of, has_repeats, has_tables, has_traces, has_two_limits, is_check_misused, is_failures_alone, is_given, is_misused, is_repeated, max_rules, number_in, output_of, paths_in, texts_given, texts_of};
ghost use Rattle.strc_command.specs.Elements.{elements_in, is_among, texts_in, values_in};

use crate::items::{Items, Value, items_of};
use crate::opening::PRELUDE_WORD;
use std::alloc::{AllocError, Global};
use str_pipeline::{DEFAULT_BUDGET, MAX_BUDGET, Options};

/// The most rules that `--rules` takes.
pub(crate) const MAX_RULES: u64 = 1_000_000_000;

/// Where the two texts come from.
#[derive(Clone, Copy, Debug, PartialEq, Eq, Drop)]
pub enum Texts<'a> {
    /// Both from standard input, in the joined form.
    Joined,
    /// The definitions from the file at this path, and the term from standard input.
    Definitions(&'a str),
    /// The definitions from the file at the first path, and the term from that at the second.
    Both(&'a str, &'a str),
}

/// In which form the line of a result is written.
#[derive(Clone, Copy, Debug, PartialEq, Eq, Drop)]
pub enum Form {
    /// As it is.
    Line,
    /// A string as its bytes, without quotes and line feed.
    Raw,
    /// In several lines, with indentation.
    Pretty,
}

/// What is written and reported of a run.
#[derive(Clone, Copy, Debug, PartialEq, Eq, Drop)]
pub struct OutputOptions {
    /// In which form the result is written.
    pub form: Form,
    /// Whether the numbers of the run are asked for.
    pub has_stats: bool,
    /// Whether it is asked for why a run has no result, and for warnings.
    pub explains: bool,
    /// Whether it is asked how often each alternative of the last file of definitions was tried, matched and succeeded.
    pub has_counts: bool,
    /// Whether the same is asked of all files.
    pub has_all_counts: bool,
    /// Whether the rules of each definition are asked for.
    pub has_profile: bool,
    /// Whether calls of definitions are asked for.
    pub has_traces: bool,
    /// Whether only those of these calls are asked for that fail.
    pub only_failures: bool,
}

/// What the command line asks for.
#[derive(Drop)]
pub struct Request<'a> {
    /// The most rules of the run.
    pub rules: u64,
    /// The name of the strategy that is applied.
    pub main: &'a str,
    /// Whether each application of the term has to be declared.
    pub is_strict: bool,
    /// Whether the definitions are checked, and no term is rewritten.
    pub checks: bool,
    /// What is written and reported.
    pub output: OutputOptions,
    /// The names of the definitions whose calls are asked for.
    pub traces: Vec<&'a str>,
    /// The words for the files in front of the definitions.
    pub libraries: Vec<&'a str>,
    /// Where the two texts come from.
    pub texts: Texts<'a>,
}

/// How options and paths are misused that are right one by one.
#[derive(Clone, Copy, Debug, PartialEq, Eq, Drop)]
pub enum Misuse {
    /// A number of rules, and no limit.
    TwoLimits,
    /// Only the calls that fail, and of no definition.
    FailuresAlone,
    /// Two forms of the result.
    TwoForms,
    /// What a run did, where the definitions are checked.
    TablesOfCheck,
    /// A form of the result, where the definitions are checked.
    FormOfCheck,
    /// A file of the term, where the definitions are checked.
    TermOfCheck,
    /// A file of definitions that is named twice.
    RepeatedFile,
}

/// Why words ask for no run.
#[derive(Clone, Copy, Debug, PartialEq, Eq, Drop)]
pub enum Unasked {
    /// A word is wrong, or they ask for a text.
    Words,
    /// Options and paths do not fit together.
    Misuse(Misuse),
    /// Memory was refused.
    Memory,
}

impl Misuse {
    /// Returns the line that says so.
    pub(crate) fn text(self) -> &'static str {
        match self {
            Misuse::TwoLimits => "error: --rules and --no-limit exclude each other\n",
            Misuse::FailuresAlone => "error: --failures needs --trace\n",
            Misuse::TablesOfCheck => {
                "error: --check runs nothing, so it takes neither --counts, --profile nor --trace\n"
            }
            Misuse::TwoForms => "error: --raw and --pretty exclude each other\n",
            Misuse::FormOfCheck => {
                "error: --check prints no result, so it takes neither --raw nor --pretty\n"
            }
            Misuse::TermOfCheck => "error: --check takes no TERM\n",
            Misuse::RepeatedFile => "error: a file of definitions is named twice\n",
        }
    }
}

impl From<AllocError> for Unasked {
    ghost use Rattle.std.specs.Prelude.{◌≡◌};
    ghost use Rattle.strc_command.specs.declared.request.Unasked.TheVariants.{Memory};

    ghost from_gives = { λ _ why. why ≡ Memory };

    fn from(_: AllocError) -> Unasked {
        Self::Memory
    }
}

/// Whether the word is one of these.
fn is_among(words: &[&str], word: &str) -> bool
    ensures { result ≡ is_among (texts_in words.now) word.now }
{
    (&*words).contains(&word)
}

/// Whether a word stands twice.
fn has_repeats(words: &[&str]) -> bool
    ensures { result ≡ has_repeats (texts_in words.now) }
{
    for index in 0..words.len() {
        if is_among(&words[index + 1..], words[index]) {
            return true;
        }
    }
    false
}

/// Returns the values of an option, in their order. The error is one of memory.
fn texts_of<'a>(alloc: Global, values: &[Value<'a>], name: &str) -> Result<Vec<&'a str>, AllocError>
    ensures { IfOk result (λ texts. texts_in texts.items
        ≡ texts_of name.now (values_in values.now)) }
{
    let mut texts = Vec::new(alloc);
    for value in values {
        if value.option == name {
            texts.push(value.text)?;
        }
    }
    Ok(texts)
}

/// Returns the number of rules that a value of `--rules` names; nothing if it is none that may be asked for.
fn number_in(text: &str) -> Option<u64>
    ensures value { result ≡ number_in text.now }
    ensures bound { IfSome result (λ number. number ≤ max_rules) }
{
    let Ok(number) = text.parse::<i64>() else {
        return None;
    };
    if number < 0 || number > MAX_RULES as i64 {
        return None;
    }
    Some(number as u64)
}

/// Returns the budget that values of `--rules` ask for, which is 1,000,000 rules where there is none; nothing if one is wrong.
fn budget_in(texts: &[&str]) -> Option<u64>
    ensures value { result ≡ budget_in (texts_in texts.now) }
    ensures bound { IfSome result (λ budget. budget ≤ max_rules) }
{
    match texts {
        [] => Some(DEFAULT_BUDGET),
        [text, ..] => number_in(text),
    }
}

/// The values of the options, by their names.
#[derive(Drop)]
struct Values<'a> {
    rules: Vec<&'a str>,
    main: Vec<&'a str>,
    traces: Vec<&'a str>,
    libraries: Vec<&'a str>,
}

impl<'a> Items<'a> {
    /// Whether the option without a value is given.
    fn gives(&self, name: &str) -> bool
        ensures { result ≡ is_given name.now (elements_in self.now) }
    {
        is_among(&self.flags, name)
    }

    /// Returns the values of the option, in their order. The error is one of memory.
    fn texts_of(&self, alloc: Global, name: &str) -> Result<Vec<&'a str>, AllocError>
        ensures { IfOk result (λ texts. texts_in texts.items
            ≡ texts_given name.now (elements_in self.now)) }
    {
        texts_of(alloc, &self.values, name)
    }

    /// Returns the values of all options. The error is one of memory.
    fn all_values(&self, alloc: Global) -> Result<Values<'a>, AllocError>
        ensures { IfOk result (HasValues (elements_in self.now)) }
    {
        Ok(Values {
            rules: self.texts_of(alloc, "--rules")?,
            main: self.texts_of(alloc, "--main")?,
            traces: self.texts_of(alloc, "--trace")?,
            libraries: self.texts_of(alloc, "--with")?,
        })
    }

    /// Returns what is written and reported.
    fn output(&self, values: &Values<'a>) -> OutputOptions
        requires { HasValues (elements_in self.now) values.now }
        ensures { result ≡ output_of (elements_in self.now) }
    {
        OutputOptions {
            form: form_of(self.gives("--raw"), self.gives("--pretty")),
            has_stats: self.gives("--stats"),
            explains: self.gives("--explain"),
            has_counts: self.gives("--counts"),
            has_all_counts: self.gives("--counts-all"),
            has_profile: self.gives("--profile"),
            has_traces: has_traces(self, values),
            only_failures: self.gives("--failures"),
        }
    }
}

/// Whether calls are asked for.
fn has_traces(items: &Items<'_>, values: &Values<'_>) -> bool
    requires { HasValues (elements_in items.now) values.now }
    ensures { result ≡ has_traces (elements_in items.now) }
{
    !values.traces.is_empty()
}

/// Whether tables of what a run did are asked for.
fn has_tables(items: &Items<'_>, values: &Values<'_>) -> bool
    requires { HasValues (elements_in items.now) values.now }
    ensures { result ≡ has_tables (elements_in items.now) }
{
    items.gives("--counts")
        || (items.gives("--counts-all") || (items.gives("--profile") || has_traces(items, values)))
}

/// Whether failures alone are asked for, and no calls.
fn is_failures_alone(items: &Items<'_>, values: &Values<'_>) -> bool
    requires { HasValues (elements_in items.now) values.now }
    ensures { result ≡ is_failures_alone (elements_in items.now) }
{
    items.gives("--failures") && !has_traces(items, values)
}

/// Returns the form in which the result is written.
fn form_of(is_raw: bool, is_pretty: bool) -> Form
    ensures { result ≡ form_of is_raw is_pretty }
{
    match (is_raw, is_pretty) {
        (true, _) => Form::Raw,
        (false, true) => Form::Pretty,
        (false, false) => Form::Line,
    }
}

/// Whether no option but `--trace` and `--with` stands twice, and there are at most two paths.
fn are_few(items: &Items<'_>, values: &Values<'_>) -> bool
    requires { HasValues (elements_in items.now) values.now }
    ensures { result ≡ are_few (elements_in items.now) }
{
    !has_repeats(&items.flags)
        && values.rules.len() <= 1
        && values.main.len() <= 1
        && items.paths.len() <= 2
}

/// Whether a file of definitions is named twice: by two words of `--with`, or by one of them and as the definitions. The word `prelude` is
/// the name of no file there.
fn is_repeated(libraries: &[&str], paths: &[&str]) -> bool
    ensures { result ≡ is_repeated (texts_in libraries.now) (texts_in paths.now) }
{
    let [definitions, ..] = paths else {
        return has_repeats(libraries);
    };
    has_repeats(libraries) || is_among(libraries, definitions) && *definitions != PRELUDE_WORD
}

/// Whether the limits of the run exclude each other.
fn has_two_limits(items: &Items<'_>, values: &Values<'_>) -> bool
    requires { HasValues (elements_in items.now) values.now }
    ensures { result ≡ has_two_limits (elements_in items.now) }
{
    items.gives("--no-limit") && !values.rules.is_empty()
}

/// Returns what is wrong with a request for a check, if anything is.
fn misuse_of_check(items: &Items<'_>, values: &Values<'_>) -> Option<Misuse>
    requires { HasValues (elements_in items.now) values.now }
    ensures { is_some result ≡ is_check_misused (elements_in items.now) }
{
    if !items.gives("--check") {
        return None;
    }
    if has_tables(items, values) {
        return Some(Misuse::TablesOfCheck);
    }
    if items.gives("--raw") || items.gives("--pretty") {
        return Some(Misuse::FormOfCheck);
    }
    if items.paths.len() > 1 {
        return Some(Misuse::TermOfCheck);
    }
    None
}

/// Returns what is wrong with options and paths that are right one by one, if anything is.
fn misuse_of(items: &Items<'_>, values: &Values<'_>) -> Option<Misuse>
    requires { HasValues (elements_in items.now) values.now }
    ensures { is_some result ≡ is_misused (elements_in items.now) }
{
    if has_two_limits(items, values) {
        return Some(Misuse::TwoLimits);
    }
    if is_failures_alone(items, values) {
        return Some(Misuse::FailuresAlone);
    }
    if items.gives("--raw") && items.gives("--pretty") {
        return Some(Misuse::TwoForms);
    }
    if let Some(misuse) = misuse_of_check(items, values) {
        return Some(misuse);
    }
    if is_repeated(&values.libraries, &items.paths) {
        return Some(Misuse::RepeatedFile);
    }
    None
}

/// Returns where the two texts come from.
fn texts_at<'a>(paths: &[&'a str]) -> Texts<'a>
    requires { length paths.now ≤ 2 }
    ensures { paths_in result ≡ texts_in paths.now }
{
    match paths {
        [] => Texts::Joined,
        [definitions] => Texts::Definitions(definitions),
        [definitions, term, ..] => Texts::Both(definitions, term),
    }
}

/// Returns the first text, or the other one if there is none.
fn first_or<'a>(texts: &[&'a str], otherwise: &'a str) -> &'a str
    ensures { result.now ≡ first_or (texts_in texts.now) otherwise.now }
{
    match texts {
        [] => otherwise,
        [text, ..] => text,
    }
}

/// Returns the request for a run with this budget.
fn request_within<'a>(items: Items<'a>, values: Values<'a>, budget: u64) -> Request<'a>
    requires values { HasValues (elements_in items) values }
    requires few { length items.paths.items ≤ 2 }
    ensures asked { asked_in result ≡ asked_within (elements_in items.entry) budget }
    ensures budget { result.rules ≡ budget }
{
    Request {
        rules: budget,
        main: first_or(&values.main, "main"),
        is_strict: items.gives("--strict"),
        checks: items.gives("--check"),
        output: items.output(&values),
        texts: texts_at(&items.paths),
        traces: values.traces,
        libraries: values.libraries,
    }
}

/// Returns what the items ask for, and if they ask for no run, why.
fn request_by<'a>(alloc: Global, items: Items<'a>) -> Result<Request<'a>, Unasked>
    ensures bound { IfOk result (λ request. request.rules ≤ max_budget) }
    ensures asked { IfOk result (λ request. asked_by (elements_in items.entry)
        ≡ Some (asked_in request)) }
    ensures unasked { IfErr result (λ why. why ≢ Unasked.Memory →
        asked_by (elements_in items.entry) ≡ None) }
{
    let values = items.all_values(alloc)?;
    if !are_few(&items, &values) {
        return Err(Unasked::Words);
    }
    let Some(rules) = budget_in(&values.rules) else {
        return Err(Unasked::Words);
    };
    if let Some(misuse) = misuse_of(&items, &values) {
        return Err(Unasked::Misuse(misuse));
    }
    let budget = if items.gives("--no-limit") {
        MAX_BUDGET
    } else {
        rules
    };
    Ok(request_within(items, values, budget))
}

/// Returns the words after the name of the program.
fn without_name(words: &[String]) -> &[String]
    ensures { result.now ≡ drop 1 words.now }
{
    match words {
        [] => words,
        [_, said @ ..] => said,
    }
}

/// Reads the words of the command line, of which the first is the name of the program, and returns what they ask for. The error says why they
/// ask for no run, or that memory was refused.
pub fn request_of<'a>(alloc: Global, words: &'a [String]) -> Result<Request<'a>, Unasked>
    ensures bound { IfOk result (λ request. request.rules ≤ max_budget) }
    ensures asked { IfOk result (λ request. asked_of (map string_bytes (drop 1 words.now))
        ≡ Some (asked_in request)) }
    ensures unasked { IfErr result (λ why. why ≢ Unasked.Memory →
        asked_of (map string_bytes (drop 1 words.now)) ≡ None) }
{
    match items_of(alloc, without_name(words))? {
        Some(items) => request_by(alloc, items),
        None => Err(Unasked::Words),
    }
}

/// Returns the options of a transformation that the request asks for.
pub(crate) fn options_of(alloc: Global, request: &Request<'_>) -> Result<Options, AllocError>
    ensures { IfOk result (HasOptions (asked_in request.now)) }
{
    Ok(Options {
        main: request.main.as_bytes().to_vec(alloc)?,
        strict: request.is_strict,
        budget: request.rules,
    })
}
