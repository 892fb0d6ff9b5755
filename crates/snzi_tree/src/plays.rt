//! What each kind of step tells its hand.
use crate::board::{Tally, View};
use atomic_table::{Join, Play, Split};
use std::marker::PhantomData;

// A step that is one event of the hand.
pub(crate) struct Counted<M: Play<(), View>> {
    play: PhantomData<M>,
}

impl<M: Play<(), View>> Play<(), Tally> for Counted<M> {
    ghost use Rattle.snzi_tree.specs.Tallies.{counts_one};

    ghost then = { counts_one M.then };
}

// A load that counts as no event of the hand.
pub(crate) struct Uncounted<M: Play<(), View>> {
    play: PhantomData<M>,
}

impl<M: Play<(), View>> Play<(), Tally> for Uncounted<M> {
    ghost use Rattle.snzi_tree.specs.Tallies.{counts_none};

    ghost then = { counts_none M.then };
}

// A load of a node.
pub(crate) struct Look;

impl Play<(), View> for Look {
    ghost use Rattle.snzi_tree.specs.Tell.{looked};

    ghost then = { looked };
}

// A load of a root, for the result of `query`.
pub(crate) struct Query<const W: usize, const L: usize>;

impl<const W: usize, const L: usize> Play<(), View> for Query<W, L> {
    ghost use Rattle.std.specs.Prelude.{◌+◌};
    ghost use Rattle.snzi_tree.specs.Tell.{queried};

    ghost then = { queried W (W + L) };
}

// A load of a stripe.
pub(crate) struct Count;

impl Play<(), View> for Count {
    ghost use Rattle.snzi_tree.specs.Tell.{summed};

    ghost then = { summed };
}

// A fetch_add on a root.
pub(crate) struct RootAdd;

impl Play<(), View> for RootAdd {
    ghost use Rattle.snzi_tree.specs.Tell.{root_added};

    ghost then = { root_added };
}

// A fetch_add on a node below a root.
pub(crate) struct ChildAdd<const W: usize, const L: usize>;

impl<const W: usize, const L: usize> Play<(), View> for ChildAdd<W, L> {
    ghost use Rattle.std.specs.Prelude.{◌+◌};
    ghost use Rattle.snzi_tree.specs.Tell.{child_added};

    ghost then = { child_added W (W + L) };
}

// A compare-exchange on a node that is not zero.
pub(crate) struct FastAdd;

impl Play<(), View> for FastAdd {
    ghost use Rattle.snzi_tree.specs.Tell.{fast_added};

    ghost then = { fast_added };
}

// A fetch_sub on a node.
pub(crate) struct Leave<const W: usize, const L: usize>;

impl<const W: usize, const L: usize> Play<(), View> for Leave<W, L> {
    ghost use Rattle.std.specs.Prelude.{◌+◌};
    ghost use Rattle.snzi_tree.specs.Tell.{left};

    ghost then = { left W (W + L) };
}

// A fetch_add on a stripe.
pub(crate) struct StripeAdd;

impl Play<(), View> for StripeAdd {
    ghost use Rattle.snzi_tree.specs.Tell.{added_on};

    ghost then = { added_on };
}

// A load that begins a share.
pub(crate) struct Unstage;

impl Play<(), View> for Unstage {
    ghost use Rattle.snzi_tree.specs.Tell.{unstaged};

    ghost then = { unstaged };
}

// A load that adds a token to the share.
pub(crate) struct Stage;

impl Play<(), View> for Stage {
    ghost use Rattle.snzi_tree.specs.Tell.{staged};

    ghost then = { staged };
}

// The last load of a board.
pub(crate) struct Ended<const G: usize, const W: usize, const L: usize>;

impl<const G: usize, const W: usize, const L: usize> Play<(), Tally> for Ended<G, W, L> {
    ghost use Rattle.snzi_tree.specs.Ended.{ended};

    ghost then = { ended G W L };
}

// A split by the share, or a join.
pub(crate) struct Share;

impl Split<Tally> for Share {
    ghost use Rattle.snzi_tree.specs.Tallies.{kept_tally, given_tally};

    ghost left = { kept_tally };

    ghost right = { given_tally };
}

impl Join<Tally> for Share {
    ghost use Rattle.snzi_tree.specs.Tallies.{joined_tally, spent_tally};

    ghost both = { joined_tally };

    ghost spent = { spent_tally };
}
