//! Going back: what came after a mark is given back.
ghost use Rattle.std.specs.Prelude.{◌≡◌, ◌<◌, ◌≤◌};
ghost use Rattle.term_store.specs.Store.{IsLast, AreNamed};
ghost use Rattle.term_store.specs.Space.{count, last_extent, GoesBack};

use crate::store::StoreSpace;
use crate::stored::Extent;

impl StoreSpace {
    /// Keeps the first `mark` places, and the chains and symbols that were there when the last of their shapes came. The symbols of names
    /// stay.
    #[inline(never)]
    pub(crate) fn cut(&mut self, mark: usize)
        requires small { self.old.shapes.small ≤ mark }
        requires within { mark < count self.old }
        ensures { GoesBack self.old self.new mark }
    {
        let last = self.last_extent(mark);
        let symbols = last.symbols.max(self.named);
        self.shapes.truncate(mark);
        self.extents.truncate(mark);
        self.chains.truncate(last.chains);
        self.spans.truncate(last.chains as usize);
        self.symbols.truncate(symbols as usize);
    }

    /// Returns the extent of the last of the first places: the shapes of these name no later chains and symbols.
    fn last_extent(&self, places: usize) -> Extent
        requires some { 0 < places }
        requires within { places ≤ count self.now }
        ensures extent { result ≡ last_extent self.now places }
        ensures chains { IsLast self.now.chains self.now.extents.items places result.chains }
        ensures symbols { AreNamed self.now.symbols.keys self.now.extents.items places
            result.symbols }
    {
        self.extents.get(places - 1)
    }
}
