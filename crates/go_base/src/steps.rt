ghost use Rattle.std.specs.Prelude.{◌≡◌, ◌+◌, ◌≤◌};
ghost use Rattle.go_base.specs.Steps.{no_counts};

use std::marker::Model;
use std::sync::ledger::{Blank, Book, Ledger, Share};

/// Counts of work, for contracts alone: a counter takes no memory and no time, and no code reads it.
/// It counts the functions whose bodies were checked, the windows that were entered into an index, and
/// the pairs of windows that were compared.
#[derive(Drop)]
pub struct Steps<L: Ledger> {
    book: Book<L>,
    checked: Share<L>,
    entered: Share<L>,
    compared: Share<L>,
}

impl<L: Ledger> Model for Steps<L> {
    ghost use Rattle.std.specs.Prelude.{◌<◌};
    ghost use Rattle.go_base.specs.Steps.{Counts};

    ghost Value = { Counts };

    ghost view = { λ s. record { checked = s.checked.amount; entered = s.entered.amount; compared = s.compared.amount } };

    ghost invariant = { λ s. (0 < s.checked.parts) × (0 < s.entered.parts) × (0 < s.compared.parts) };
}

impl<L: Ledger> Steps<L> {
    /// A counter with no step, over a ledger of at least three parts.
    pub fn new(blank: Blank) -> Steps<L>
        requires name { blank.name ≡ L.name }
        requires parts { blank.parts ≡ L.parts }
        requires room { 3 ≤ blank.parts }
        ensures { result ≡ no_counts }
    {
        let (book, mut checked) = blank.open::<L>();
        let entered = checked.split_off(1, 0);
        let compared = checked.split_off(1, 0);
        Steps {
            book,
            checked,
            entered,
            compared,
        }
    }

    /// One more body of a function is checked.
    pub fn tick_checked(&mut self)
        ensures { self.new ≡ record self.old { checked = self.old.checked + 1 } }
    {
        self.book.add(&mut self.checked, 1);
    }

    /// One more window is entered into an index.
    pub fn tick_entered(&mut self)
        ensures { self.new ≡ record self.old { entered = self.old.entered + 1 } }
    {
        self.book.add(&mut self.entered, 1);
    }

    /// One more pair of windows is compared.
    pub fn tick_compared(&mut self)
        ensures { self.new ≡ record self.old { compared = self.old.compared + 1 } }
    {
        self.book.add(&mut self.compared, 1);
    }
}
