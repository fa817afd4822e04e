//! Laws of trees that are copied and filled. The functions do nothing: their contracts are the laws.

ghost use Rattle.extract_trees.specs.Examples.{Examples};
ghost use Rattle.extract_trees.specs.Results.{OtherResultsHaveOneCopy, ResultsAreForReturns};
ghost use Rattle.extract_trees.specs.WindowExamples.{WindowExamples};
ghost use Rattle.extract_trees.specs.Windows.{HolesAloneAgree, PairedLocalsHaveOneNumber, SameWindowsHaveOneCopy};

/// What the definitions say of statements and blocks, worked out by hand.
pub fn examples()
    ensures { Examples }
{}

/// Windows that are the same have one copy, each under numbers of its own that are alike, where the rules of types give what their
/// nodes stand for and constants that name variables have equal values.
pub fn same_windows_have_one_copy()
    ensures { SameWindowsHaveOneCopy }
{}

/// In windows whose constants name no variables no constants but holes are compared.
pub fn holes_alone_agree()
    ensures { HolesAloneAgree }
{}

/// There are such numbers for the locals of the second window.
pub fn paired_locals_have_one_number()
    ensures { PairedLocalsHaveOneNumber }
{}

/// What nodes stand for by the rules depends on the results of the function at `return` alone.
pub fn results_are_for_returns()
    ensures { ResultsAreForReturns }
{}

/// So windows without `return` that are the same have one copy, whatever the results of their functions are.
pub fn other_results_have_one_copy()
    ensures { OtherResultsHaveOneCopy }
{}

/// Two windows that are the same, worked out by hand: all that is asked of them holds.
pub fn window_examples()
    ensures { WindowExamples }
{}
