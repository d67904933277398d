//! What the words of the command line say, one after another.
ghost use Rattle.std.specs.Prelude.{◌≡◌, false, map, option_map, string_bytes, IfOk, OnOk};
ghost use Rattle.strc_command.specs.Elements.{alone, element_of, elements_from, elements_in, elements_of, flags, followed_by, no_elements, is_among, is_hyphened, is_value, pair_of, position_of, reading_at, reading_anywhere, reading_in_one, taking_any, valued};

use std::alloc::{AllocError, Global};

/// The options without a value.
const FLAGS: [&str; 11] = [
    "--no-limit",
    "--strict",
    "--stats",
    "--explain",
    "--counts",
    "--counts-all",
    "--profile",
    "--failures",
    "--check",
    "--raw",
    "--pretty",
];

/// The options with a value.
const VALUED: [&str; 4] = ["--rules", "--main", "--trace", "--with"];

/// Those of them that take any word as their value, one with a hyphen in front too.
const TAKING_ANY: [&str; 2] = ["--rules", "--main"];

/// An option and its value.
#[derive(Clone, Copy, Drop)]
pub(crate) struct Value<'a> {
    pub(crate) option: &'a str,
    pub(crate) text: &'a str,
}

impl<'a> Value<'a> {
    fn new(option: &'a str, text: &'a str) -> Value<'a>
        ensures option { result.option ≡ option.entry }
        ensures text { result.text ≡ text.entry }
    {
        Value { option, text }
    }
}

/// One thing that words say.
#[derive(Clone, Copy, Drop)]
pub(crate) enum Item<'a> {
    /// An option without a value.
    Flag(&'a str),
    /// An option with its value.
    Value(Value<'a>),
    Path(&'a str),
}

/// Where a word stands.
#[derive(Clone, Copy, Drop)]
pub(crate) enum Place<'a> {
    /// Among options and paths.
    Anywhere,
    /// After this option, which takes a value.
    AfterOption(&'a str),
    /// After `--`.
    AmongPaths,
}

/// What a word says, and where the next one stands.
#[derive(Clone, Copy, Drop)]
pub(crate) struct Reading<'a> {
    item: Option<Item<'a>>,
    next: Place<'a>,
}

impl<'a> Reading<'a> {
    fn new(item: Item<'a>, next: Place<'a>) -> Reading<'a>
        ensures item { result.item ≡ Some item.entry }
        ensures next { result.next ≡ next.entry }
    {
        Reading {
            item: Some(item),
            next,
        }
    }

    fn no_item(next: Place<'a>) -> Reading<'a>
        ensures item { result.item ≡ None }
        ensures next { result.next ≡ next.entry }
    {
        Reading { item: None, next }
    }
}

/// Whether this is an option without a value.
fn is_flag(word: &str) -> bool
    ensures { result ≡ is_among flags word.now }
{
    FLAGS.contains(&word)
}

/// Whether this is an option with a value.
fn is_valued(word: &str) -> bool
    ensures { result ≡ is_among valued word.now }
{
    VALUED.contains(&word)
}

/// Whether this is an option that takes any word as its value.
fn takes_any(word: &str) -> bool
    ensures { result ≡ is_among taking_any word.now }
{
    TAKING_ANY.contains(&word)
}

/// Whether the word begins with a hyphen, and is none.
fn is_hyphened(word: &str) -> bool
    ensures { result ≡ is_hyphened word.now }
{
    word.starts_with('-') && word != "-"
}

/// Whether the word next to this option is its value.
fn is_value(name: &str, word: &str) -> bool
    ensures { result ≡ is_value name.now word.now }
{
    takes_any(name) || !is_hyphened(word)
}

/// Returns the option and its value where they are one word, with `=` between them.
fn read_option<'a>(word: &'a str) -> Option<Reading<'a>>
    requires { is_among valued word.now ≡ false }
    ensures { option_map pair_of result ≡ reading_in_one word.now }
{
    let (name, value) = word.split_once('=')?;
    if !is_valued(name) {
        return None;
    }
    Some(Reading::new(Item::Value(Value::new(name, value)), Place::Anywhere))
}

/// Returns what a word says that stands among options and paths; nothing if it is wrong there.
fn read_anywhere<'a>(word: &'a str) -> Option<Reading<'a>>
    ensures { option_map pair_of result ≡ reading_anywhere word.now }
{
    if word == "--" {
        return Some(Reading::no_item(Place::AmongPaths));
    }
    if is_flag(word) {
        return Some(Reading::new(Item::Flag(word), Place::Anywhere));
    }
    if is_valued(word) {
        return Some(Reading::no_item(Place::AfterOption(word)));
    }
    if !is_hyphened(word) {
        return Some(Reading::new(Item::Path(word), Place::Anywhere));
    }
    read_option(word)
}

/// Returns what a word says that stands there; nothing if it is wrong there.
fn read_word<'a>(place: Place<'a>, word: &'a str) -> Option<Reading<'a>>
    ensures { option_map pair_of result ≡ reading_at (position_of place.entry) word.now }
{
    match place {
        Place::Anywhere => read_anywhere(word),
        Place::AfterOption(name) if !is_value(name, word) => None,
        Place::AfterOption(name) => Some(Reading::new(
            Item::Value(Value::new(name, word)),
            Place::Anywhere,
        )),
        Place::AmongPaths => Some(Reading::new(Item::Path(word), Place::AmongPaths)),
    }
}

/// What words say: which options without a value, which with one, and which paths, each in their order.
#[derive(Drop)]
pub(crate) struct Items<'a> {
    pub(crate) flags: Vec<&'a str>,
    pub(crate) values: Vec<Value<'a>>,
    pub(crate) paths: Vec<&'a str>,
}

impl<'a> Items<'a> {
    fn none(alloc: Global) -> Items<'a>
        ensures { elements_in result ≡ no_elements }
    {
        Items {
            flags: Vec::new(alloc),
            values: Vec::new(alloc),
            paths: Vec::new(alloc),
        }
    }

    /// Adds the item, if there is one. The error is one of memory.
    fn add(&mut self, item: Option<Item<'a>>) -> Result<(), AllocError>
        ensures { OnOk result (elements_in self.new ≡
            followed_by (elements_in self.old) (alone (option_map element_of item.entry))) }
    {
        match item {
            Some(Item::Flag(name)) => self.flags.push(name)?,
            Some(Item::Value(value)) => self.values.push(value)?,
            Some(Item::Path(path)) => self.paths.push(path)?,
            None => {}
        }
        Ok(())
    }
}

/// Returns what words say that come after the name of the program; nothing if one is wrong, or if a value is missing. The error is one of
/// memory.
pub(crate) fn items_of<'a>(
    alloc: Global,
    words: &'a [String],
) -> Result<Option<Items<'a>>, AllocError>
    ensures { IfOk result (λ items. elements_of (map string_bytes words.now)
        ≡ option_map elements_in items) }
{
    let mut items = Items::none(alloc);
    let mut place = Place::Anywhere;
    for word in words {
        let Some(Reading { item, next }) = read_word(place, word.as_str()) else {
            return Ok(None);
        };
        items.add(item)?;
        place = next;
    }
    match place {
        Place::AfterOption(_) => Ok(None),
        _ => Ok(Some(items)),
    }
}
