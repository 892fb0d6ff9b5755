//! The laws of words and hands. Each is the contract of a function that is proof only.
//!
//! They are stated over lists of words and lists of hands as plain data (`specs/Laws.antt`), so
//! that a rule over atomic words can use them unchanged.
ghost use Rattle.snzi_core.specs.Laws.{LoadKeeps, FastAddKeeps, RootAddKeeps, ChildAddKeeps, LeaveKeeps, StripeAddKeeps, SplitKeeps, JoinKeeps, TellsPresence, MainKnows, WordsAreSmall, ListsKeep};

/// A load keeps the balance and the caps.
pub fn load_keeps()
    ensures { LoadKeeps }
{}

/// A fast add keeps the balance and the caps.
pub fn fast_add_keeps()
    ensures { FastAddKeeps }
{}

/// An add at a root keeps the balance and the caps.
pub fn root_add_keeps()
    ensures { RootAddKeeps }
{}

/// An add below a root, by a hand with a token at the parent, keeps the balance and the caps.
pub fn child_add_keeps()
    ensures { ChildAddKeeps }
{}

/// A leave keeps the balance and the caps.
pub fn leave_keeps()
    ensures { LeaveKeeps }
{}

/// An add in a stripe keeps the balance and the caps.
pub fn stripe_add_keeps()
    ensures { StripeAddKeeps }
{}

/// A split keeps the balance and the caps.
pub fn split_keeps()
    ensures { SplitKeeps }
{}

/// A join keeps the balance and the caps.
pub fn join_keeps()
    ensures { JoinKeeps }
{}

/// A node's word is positive exactly if some hand has a token at the node or below it.
pub fn words_tell_presence()
    ensures { TellsPresence }
{}

/// Main with no helper out knows every sum, and at which nodes a token is present.
pub fn main_knows()
    ensures { MainKnows }
{}

/// A node's word is always far below the greatest u64.
pub fn words_are_small()
    ensures { WordsAreSmall }
{}

/// Every list of lawful events, from a new core on, keeps the balance and the caps.
pub fn lists_keep()
    ensures { ListsKeep }
{}
