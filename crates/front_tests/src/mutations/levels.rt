//! Files that are nested to the greatest level and one level beyond it, by each form in which a part can stand.
use super::readings::{Reading, reading_of};
use std::alloc::{AllocError, Global};
use std::test::Fail;

/// The greatest level of a part.
const MOST_LEVELS: usize = 200;

/// A token with which no part begins.
const NO_PART: &str = "= ";

/// A form in which a part stands: what stands before the first part of the form, what between there and the part in question, and what
/// after that part; and by how many levels that part is further in. The first part of a form is one level further in.
type Form = (&'static str, &'static str, &'static str, usize);

const STRATEGIES: &[Form] = &[
    ("a <+ ", "", "", 1),
    ("a < ", "", "+ b ", 1),
    ("a < ", "b + ", "", 1),
    ("a ; ", "", "", 1),
    ("! ", "< ", "> ", 2),
    ("< ", "", "> x ", 1),
    ("( ", "", ") ", 1),
    ("{ x : ", "", "} ", 1),
    ("where ( ", "", ") ", 1),
    ("not ( ", "", ") ", 1),
    ("all ( ", "", ") ", 1),
    ("one ( ", "", ") ", 1),
    ("some ( ", "", ") ", 1),
    ("if ", "", "then a end ", 1),
    ("if ", "a then ", "end ", 1),
    ("if ", "a then ", "else b end ", 1),
    ("if ", "a then b else ", "end ", 1),
    ("rec x ( ", "", ") ", 1),
    ("let f = ", "", "in f end ", 1),
    ("let f = ", "a g = ", "in f end ", 1),
    ("let f = ", "a in ", "end ", 1),
    ("prim ( \"p\" , ", "< ", "> ) ", 2),
    ("\\ ", "x -> y where ", "\\ ", 1),
    ("\\ ", "x -> < ", "> \\ ", 2),
    ("f ( ", "", ") ", 1),
    ("f ( ", "a , ", ") ", 1),
    ("f ( ", "", "| x ) ", 1),
    ("f ( | ", "< ", "> ) ", 2),
    ("( ", "", ", a ) ", 1),
    ("( ", "a , ", ") ", 1),
    ("[ ", "", "] ", 1),
    ("[ ", "a , ", "] ", 1),
    ("[ ", "", "| a ] ", 1),
    ("[ ", "a | ", "] ", 1),
];

const PATTERNS: &[Form] = &[
    ("x @ ", "", "", 1),
    ("C ( ", "", ") ", 1),
    ("C ( ", "x , ", ") ", 1),
    ("( ", "", ") ", 1),
    ("( ", "", ", x ) ", 1),
    ("( ", "x , ", ") ", 1),
    ("[ ", "", "] ", 1),
    ("[ ", "x , ", "] ", 1),
    ("[ ", "", "| x ] ", 1),
    ("[ ", "x | ", "] ", 1),
    ("x { ", "", "} ", 1),
    ("x { ", "y , ", "} ", 1),
    ("x { ", "", ", y } ", 1),
];

const APPLICATIONS: &[Form] = &[
    ("< ", "a > ", "", 1),
    ("< ", "! ", "> ", 2),
    ("< ", "! ", "> y ", 2),
];

const SORTS: &[Form] = &[("A ( ", "", ") ", 1), ("A ( ", "B , ", ") ", 1)];

/// A place of a file where a part stands: what stands before it and after it, its level, and a part of one word.
type Site = (&'static str, &'static str, usize, &'static str);

const STRATEGY_SITES: &[Site] = &[
    ("strategies main = ", "", 1, "a "),
    ("rules r : x -> y where ", "", 1, "id "),
    ("strategies main = \\ x -> y where ", "\\ ", 2, "a "),
];

const MATCH_SITES: &[Site] = &[
    ("rules r : ", "-> x", 1, "x "),
    ("strategies main = ? ", "", 2, "_ "),
    ("strategies main = a => ", "; b", 2, "\"x\" "),
    ("strategies main = \\ ", "-> x \\", 2, "1 "),
];

const BUILD_SITES: &[Site] = &[
    ("rules r : x -> ", "", 1, "x "),
    ("strategies main = ! ", "", 2, "_ "),
    ("strategies main = < a > ", "; b", 2, "1 "),
    ("strategies main = f ( | ", ")", 2, "x "),
    ("strategies main = prim ( \"p\" , ", ")", 2, "x "),
    ("strategies main = \\ x -> ", "\\", 2, "x "),
];

const SORT_SITES: &[Site] = &[
    ("signature sorts ", "", 1, "B "),
    ("signature constructors C : ", "", 1, "B "),
    ("signature constructors : A * ", "-> B", 1, "B "),
    ("signature constructors : A -> ", "", 1, "B "),
];

/// Repeats the text this number of times.
pub(crate) fn push_times(text: &mut String, piece: &str, times: usize) -> Result<(), AllocError> {
    for _ in 0..times {
        text.push_str(piece)?;
    }
    Ok(())
}

/// Files with a part that is this number of forms further in than the site is.
#[derive(Clone, Copy)]
struct Nesting {
    site: Site,
    form: Form,
    times: usize,
}

impl Nesting {
    /// The file with this part.
    fn file(self, alloc: Global, part: &str) -> Result<String, AllocError> {
        let mut text = String::from_str(alloc, self.site.0)?;
        for _ in 0..self.times {
            text.push_str(self.form.0)?;
            text.push_str(self.form.1)?;
        }
        text.push_str(part)?;
        push_times(&mut text, self.form.2, self.times)?;
        text.push_str(self.site.1)?;
        Ok(text)
    }

    /// How many bytes stand before the part.
    fn bytes_before(self) -> usize {
        let form = self.form.0.len().saturating_add(self.form.1.len());
        let site = self.site.0.len();
        site.saturating_add(form.saturating_mul(self.times))
    }

    /// The level of the part.
    fn level(self) -> usize {
        let levels = self.form.3.saturating_mul(self.times);
        levels.saturating_add(self.site.2)
    }

    /// With as many forms as the greatest level allows.
    fn most(site: Site, form: Form) -> Nesting {
        let levels = MOST_LEVELS.saturating_sub(site.2);
        let times = levels.checked_div(form.3).unwrap_or(0);
        Nesting { site, form, times }
    }

    /// With one form more.
    fn one_more(self) -> Nesting {
        let times = self.times.saturating_add(1);
        Nesting { times, ..self }
    }

    /// Fails with its text where the file with this part is not read so.
    fn expect(self, alloc: Global, part: &str, expected: Reading) -> Result<(), Fail> {
        let text = self.file(alloc, part)?;
        if reading_of(alloc, text.as_bytes()) != expected {
            return Err(Fail::new(text));
        }
        Ok(())
    }
}

/// Where the first part at level 201 begins, with one form more than the greatest level allows.
fn beyond(most: Nesting) -> usize {
    if most.level() == MOST_LEVELS {
        return most.bytes_before().saturating_add(most.form.0.len());
    }
    most.one_more().bytes_before()
}

/// Compares what files are read as in which a part stands at the greatest level, or one form further in.
fn try_form(alloc: Global, site: Site, form: Form) -> Result<(), Fail> {
    let most = Nesting::most(site, form);
    most.expect(alloc, site.3, Reading::File)?;
    let fault = Reading::Syntax(most.bytes_before() as u64);
    most.expect(alloc, NO_PART, fault)?;

    let more = most.one_more();
    let at = beyond(most);
    more.expect(alloc, site.3, Reading::Nesting(at as u64))?;
    let fault = if at == more.bytes_before() {
        Reading::Syntax(at as u64)
    } else {
        Reading::Nesting(at as u64)
    };
    more.expect(alloc, NO_PART, fault)
}

/// Tries all of these forms at each of these sites.
fn try_forms(alloc: Global, sites: &[Site], forms: &[Form]) -> Result<(), Fail> {
    for site in sites {
        for form in forms {
            try_form(alloc, *site, *form)?;
        }
    }
    Ok(())
}

/// Sites, and the forms that can stand there.
const TABLE: &[(&[Site], &[Form])] = &[
    (STRATEGY_SITES, STRATEGIES),
    (MATCH_SITES, PATTERNS),
    (BUILD_SITES, PATTERNS),
    (BUILD_SITES, APPLICATIONS),
    (SORT_SITES, SORTS),
];

#[test]
fn each_form_nests_to_level_200(rt: HostRuntime) -> Result<(), Fail> {
    for (sites, forms) in TABLE {
        try_forms(rt.alloc(), sites, forms)?;
    }
    Ok(())
}
