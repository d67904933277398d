//! What can be wrong with a file, the complaint of the least number first.

/// Parts of a file in which something is wrong, and the word of the fault.
pub(crate) struct Part {
    pub(crate) word: &'static str,
    pub(crate) declarations: &'static str,
    pub(crate) definitions: &'static str,
    pub(crate) has_main: bool,
}

/// Nothing is wrong with the last part.
pub(crate) const PARTS: &[Part] = &[
    Part {
        word: "DuplicateDeclaration",
        declarations: "C : T C : T ",
        definitions: "",
        has_main: true,
    },
    Part {
        word: "Undeclared",
        declarations: "",
        definitions: "a = ?D(x) ",
        has_main: true,
    },
    Part {
        word: "Parameters",
        declarations: "",
        definitions: "b(s|s) = id ",
        has_main: true,
    },
    Part {
        word: "Clash",
        declarations: "e : T ",
        definitions: "e = id ",
        has_main: true,
    },
    Part {
        word: "UnknownStrategy",
        declarations: "",
        definitions: "g = missing ",
        has_main: true,
    },
    Part {
        word: "NotBuildable",
        declarations: "",
        definitions: "h = !_ ",
        has_main: true,
    },
    Part {
        word: "UnknownPrimitive",
        declarations: "",
        definitions: "p = prim(\"nope\") ",
        has_main: true,
    },
    Part {
        word: "NoMain",
        declarations: "",
        definitions: "",
        has_main: false,
    },
    Part {
        word: "",
        declarations: "",
        definitions: "",
        has_main: true,
    },
];
