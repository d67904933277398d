//! Results with line breaks and indentation.
ghost use Rattle.std.specs.Prelude.{◌≡◌, ◌||◌, ◌==◌, [], ◌∷◌, ◌++◌, IsTrue, IfOk, OnOk};
ghost use Rattle.strc_command.specs.Pretty.{next, is_opening, is_closing, is_space, IsSpaced, GainsSpaces, GainsPiece};

use std::alloc::{AllocError, Global};

/// The most columns of a line. A column is a byte.
const WIDTH: usize = 80;

/// The most open brackets that indent a line. Without such a bound the parts of a term at depth 1,000 would have 2,000 blanks each.
const MOST_LEVELS: usize = 30;

/// Where a byte of a line stands.
#[derive(Clone, Copy)]
enum Place {
    /// Outside quotes.
    Outside,
    /// Within quotes.
    Quoted,
    /// Within quotes, after a backslash.
    Escaped,
}

impl Place {
    /// Returns the place after this byte.
    fn after(self, byte: u8) -> Place
        ensures { result ≡ next self byte }
    {
        match (self, byte) {
            (Place::Outside, b'"') | (Place::Escaped, _) => Place::Quoted,
            (Place::Quoted, b'"') => Place::Outside,
            (Place::Quoted, b'\\') => Place::Escaped,
            _ => self,
        }
    }
}

/// A text that is laid out in lines. After a refused growth it has the bytes that were added before.
#[derive(Drop)]
struct Layout {
    /// The text so far.
    text: Vec<u8>,
    /// Where the next byte stands.
    place: Place,
    /// How many bytes still fit in the line.
    room: usize,
    /// How many of the next bytes stand in brackets that fit in the line.
    flat: usize,
    /// How many brackets are open that do not fit in a line.
    levels: usize,
}

impl Layout {
    /// Makes an empty text.
    fn new(alloc: Global) -> Layout
        ensures empty { result.text.items ≡ [] }
        ensures outside { result.place ≡ Place.Outside }
    {
        Layout {
            text: Vec::new(alloc),
            place: Place::Outside,
            room: WIDTH,
            flat: 0,
            levels: 0,
        }
    }

    /// Adds a byte of the line as it is. An error is a refused growth.
    fn copy(&mut self, byte: u8) -> Result<(), AllocError>
        ensures text { OnOk result (self.new.text.items ≡ self.old.text.items ++ byte ∷ []) }
        ensures place { OnOk result (self.new.place ≡ next self.old.place byte) }
    {
        self.text.push(byte)?;
        self.place = self.place.after(byte);
        self.room = self.room.saturating_sub(1);
        Ok(())
    }

    /// Adds a line feed or a blank that is not in the line. An error is a refused growth.
    fn space(&mut self, byte: u8) -> Result<(), AllocError>
        requires { IsTrue (is_space byte) }
        ensures text { OnOk result (self.new.text.items ≡ self.old.text.items ++ byte ∷ []) }
        ensures place { OnOk result (self.new.place ≡ self.old.place) }
    {
        self.text.push(byte)?;
        Ok(())
    }

    /// Begins a new line, which is indented by two blanks for each open bracket. An error is a refused growth.
    #[tactic(auto, using(crate::proofs::PrettyLaws::gains_more, crate::proofs::PrettyLaws::gains_first))]
    fn break_line(&mut self) -> Result<(), AllocError>
        ensures { OnOk result (GainsSpaces self.old self.new) }
    {
        let indentation = 2 * self.levels.min(MOST_LEVELS);
        self.space(b'\n')?;
        for _column in 0..indentation {
            self.space(b' ')?;
        }
        self.room = WIDTH - indentation;
        Ok(())
    }

    /// Adds an opening bracket, which these bytes follow, and begins a new line unless all up to the closing bracket fits in this one. An
    /// error is a refused growth.
    #[tactic(auto, using(crate::proofs::PrettyLaws::gains_after, crate::proofs::PrettyLaws::gains_bare))]
    fn open(&mut self, bracket: u8, after: &[u8]) -> Result<(), AllocError>
        requires outside { self.old.place ≡ Place.Outside }
        requires opening { IsTrue (is_opening bracket) }
        ensures { OnOk result (GainsPiece self.old self.new bracket) }
    {
        self.copy(bracket)?;
        match flat_length(after, self.room) {
            Some(length) => {
                self.flat = length;
                Ok(())
            }
            None => {
                self.levels = self.levels.saturating_add(1);
                self.break_line()
            }
        }
    }

    /// Adds a closing bracket on a new line. An error is a refused growth.
    fn close(&mut self, bracket: u8) -> Result<(), AllocError>
        requires outside { self.old.place ≡ Place.Outside }
        requires closing { IsTrue (is_closing bracket) }
        ensures { OnOk result (GainsPiece self.old self.new bracket) }
    {
        self.levels = self.levels.saturating_sub(1);
        self.break_line()?;
        self.copy(bracket)
    }

    /// Adds the next byte of the line, which these bytes follow, with what breaks the line there. An error is a refused growth.
    #[tactic(auto, using(crate::proofs::PrettyLaws::gains_after, crate::proofs::PrettyLaws::gains_bare))]
    fn put(&mut self, byte: u8, after: &[u8]) -> Result<(), AllocError>
        ensures { OnOk result (GainsPiece self.old self.new byte) }
    {
        if self.flat > 0 {
            self.flat -= 1;
            return self.copy(byte);
        }
        match (self.place, byte) {
            (Place::Outside, b'(' | b'[' | b'{') => self.open(byte, after),
            (Place::Outside, b')' | b']' | b'}') => self.close(byte),
            (Place::Outside, b',') => {
                self.copy(byte)?;
                self.break_line()
            }
            _ => self.copy(byte),
        }
    }
}

/// Returns how many of the bytes after an opening bracket there are up to its closing bracket, with this one; `None` if they do not fit in
/// this room, together with a comma or the opening bracket of annotations where one comes next. It looks at no more bytes than that.
/// Brackets with nothing between always fit.
fn flat_length(after: &[u8], room: usize) -> Option<usize> {
    if let [b')' | b']' | b'}', ..] = after {
        return Some(1);
    }
    let mut place = Place::Outside;
    let mut open: usize = 1;
    let end = after.len().min(room);
    for (index, byte) in after[..end].iter().enumerate() {
        match (place, *byte) {
            (Place::Outside, b'(' | b'[' | b'{') => open = open.saturating_add(1),
            (Place::Outside, b')' | b']' | b'}') => open = open.saturating_sub(1),
            _ => {}
        }
        place = place.after(*byte);
        if open == 0 {
            let length = index + 1;
            let goes_on = matches!(after.get(length), Some(b',' | b'{'));
            return (length < room || !goes_on).then_some(length);
        }
    }
    None
}

/// Returns what `--pretty` writes for a line: the same with line breaks and indentation. Brackets stand in one line with all that is between
/// them if that fits; else each part between them stands on a line of its own, and the closing bracket too. An error is a refused growth.
pub(crate) fn lay_out(alloc: Global, line: &[u8]) -> Result<Vec<u8>, AllocError>
    ensures { IfOk result (λ text. IsSpaced line.now text.items) }
{
    let mut layout = Layout::new(alloc);
    for (index, byte) in line.iter().enumerate() {
        layout.put(*byte, &line[index + 1..])?;
    }
    Ok(layout.text)
}
