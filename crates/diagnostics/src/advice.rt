//! What to write in place of what is refused, or what the text seems to be.

/// What to write, or what the text seems to be.
#[derive(Clone, Copy, Debug, PartialEq, Eq)]
pub enum Advice {
    /// Definitions begin with no word of a section, and with no definition.
    NoDefinitions,
    /// Definitions begin with a definition.
    SectionWord,
    LeftChoice,
    Assignment,
    TypedParameters,
    DynamicRules,
    ConcreteSyntax,
    AppliedInMatch,
    /// Terms are compared by `<`.
    Less,
    /// Terms are compared by `>`.
    Greater,
    /// Terms are compared by `<=`.
    AtMost,
    /// Terms are compared by `>=`.
    AtLeast,
    /// Terms are compared by `==`.
    Equality,
    /// Terms are compared by `!=`.
    Inequality,
    /// The term is missing to which a strategy between `<` and `>` is applied.
    MissingOperand,
    /// A wildcard stands where a strategy is expected.
    WildcardAsStrategy,
    /// Annotations stand after a strategy.
    AnnotatedStrategy,
    /// A rule stands in place of a strategy.
    RuleInStrategy,
    /// A strategy stands in place of a rule.
    StrategyAfterColon,
    /// Terms are compared by `=` in a condition.
    EqualsInCondition,
    /// A rule has a further `where`.
    SecondCondition,
    /// A pattern takes a term apart whatever its constructor.
    AnyConstructor,
    /// An unknown strategy has a name such as constructors have.
    UndeclaredConstructor,
    /// The outcome of a run is given as a text.
    Outcome,
    Comment,
    CommentInTerm,
    RealNumber,
    Interpolation,
    ByteOrderMark,
    NotAscii,
    SingleQuotes,
    /// Definitions are given as a term.
    Definitions,
    Module,
    Imports,
    Overlays,
    With,
    Conditional,
    Otherwise,
    External,
}

impl Advice {
    /// The name of the primitive with two arguments that the advice needs, if it needs one.
    pub fn primitive(self) -> Option<&'static str> {
        match self {
            Advice::Less | Advice::Greater | Advice::AtMost | Advice::AtLeast => Some("less"),
            Advice::Interpolation => Some("concat"),
            _ => None,
        }
    }

    /// Returns the advice in words, a part of a sentence without a full stop.
    pub fn words(self) -> &'static str {
        match self {
            Advice::NoDefinitions => {
                "definitions begin with 'signature', 'rules' or 'strategies'; a term is the second file"
            }
            Advice::SectionWord => "write 'rules' or 'strategies' before the first definition",
            Advice::LeftChoice => "write '<+' for a choice; '+' stands only in s1 < s2 + s3",
            Advice::Assignment =>
                "':=' is not supported; for x := p write where(!p => x), for x := <s> p write <s> p => x",
            Advice::TypedParameters => {
                "types of parameters are not supported; leave out ':' and the type"
            }
            Advice::DynamicRules => "dynamic rules are not supported",
            Advice::ConcreteSyntax => {
                "concrete syntax is not supported; write the term, such as Add(x, y)"
            }
            Advice::AppliedInMatch => {
                "a match has no '<..>'; match a variable x, and write where(<s> x => p)"
            }
            Advice::Less => { "a comparison is a strategy: for x < y write prim(\"less\", x, y)" }
            Advice::Greater => {
                "a comparison is a strategy: for x > y write prim(\"less\", y, x)"
            }
            Advice::AtMost => {
                "a comparison is a strategy: for x <= y write not(prim(\"less\", y, x))"
            }
            Advice::AtLeast => {
                "a comparison is a strategy: for x >= y write not(prim(\"less\", x, y))"
            }
            Advice::Equality => "a comparison is a strategy: for x == y write !x => y",
            Advice::Inequality => "a comparison is a strategy: for x != y write not(!x => y)",
            Advice::MissingOperand => "'<s>' applies s to a term: write <s> p => q, or s => q",
            Advice::WildcardAsStrategy =>
                "'_' is a pattern; a strategy that succeeds on each term is id",
            Advice::AnnotatedStrategy => "annotations stand only in patterns, such as ?p{a}",
            Advice::RuleInStrategy => {
                "a rule in a strategy is written \\ p -> q \\; one with a name is name : p -> q"
            }
            Advice::StrategyAfterColon => {
                "a strategy is defined with '='; after ':' there is a rule p -> q"
            }
            Advice::EqualsInCondition => {
                "'=' begins a definition; for a comparison of x and y write !x => y"
            }
            Advice::SecondCondition => "a rule has one 'where'; join conditions with ';'",
            Advice::AnyConstructor => {
                "c#(xs) is not supported; get-arguments of the prelude returns the parts of a term"
            }
            Advice::UndeclaredConstructor => "if it is a constructor, declare it in a signature",
            Advice::Outcome =>
                "this is the outcome of another run, which has no term as its result",
            Advice::Comment => "comments begin with '//', or stand between '/*' and '*/'",
            Advice::CommentInTerm => "a term has no comments",
            Advice::RealNumber => "real numbers are not supported",
            Advice::Interpolation => {
                "string interpolation is not supported; join texts with prim(\"concat\", x, y)"
            }
            Advice::ByteOrderMark => "save the text without a byte order mark",
            Advice::NotAscii => {
                "names are made of ASCII letters; other characters can stand between quotes"
            }
            Advice::SingleQuotes => "a text stands between double quotes",
            Advice::Definitions => {
                "these seem to be definitions, which come first; the term is the second file"
            }
            Advice::Module => {
                "a file has no header; it begins with 'signature', 'rules' or 'strategies'"
            }
            Advice::Imports => "files are not imported; read another file with --with FILE",
            Advice::Overlays => "write the pattern itself in place of each overlay",
            Advice::With => "'where' does the same as long as its strategy succeeds",
            Advice::Conditional => "write 'if', or s1 < s2 + s3",
            Advice::Otherwise => "write 'else', or the last alternative of s1 <+ s2",
            Advice::External => "a primitive is called with prim(\"name\", ..)",
        }
    }
}
