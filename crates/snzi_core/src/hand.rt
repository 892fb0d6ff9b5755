//! What one hand of a core holds.
ghost use Rattle.std.specs.Prelude.{◌≡◌, ◌≢◌, ℕ, ◌+◌, ◌-◌, ◌*◌, ◌%◌, ◌^◌, ◌<◌, ◌≤◌, [], length, replicate, IfOk, slice_index};
ghost use Rattle.snzi_core.specs.Caps.{token_cap, helper_cap};
ghost use Rattle.snzi_core.specs.Holding.{tokens_at, gain, lose, raise, empty, keeper, rejoined, out};
ghost use Rattle.snzi_core.specs.CoreState.{fresh};

use crate::holding::Role;
use crate::table::{add_each, subtract_each, wrapping_add_each};
use std::alloc::{AllocError, Allocator};
use std::marker::Model;

// Tokens and amounts have an entry for each word, so that one number finds all of them. A spent hand has no entries.
#[derive(Drop)]
pub(crate) struct Hand<A: Allocator> {
    role: Role,
    tokens: Vec<u64, A>,
    amounts: Vec<u64, A>,
}

impl<A: Allocator> Model for Hand<A> {
    ghost use Rattle.snzi_core.specs.declared.holding.Holding.{Holding};

    ghost Value = { Holding };

    ghost view = { λ h. record { role = h.role; tokens = h.tokens.items; amounts = h.amounts.items } };
}

impl<A: Allocator + Clone> Hand<A> {
    pub(crate) fn fresh(alloc: A, role: Role, words: usize) -> Result<Hand<A>, AllocError>
        ensures { IfOk result (λ h. h ≡ fresh words role) }
    {
        let tokens = Vec::from_elem(alloc.clone()?, 0, words)?;
        let amounts = Vec::from_elem(alloc, 0, words)?;
        Ok(Hand {
            role,
            tokens,
            amounts,
        })
    }
}

impl<A: Allocator> Hand<A> {
    pub(crate) fn role(&self) -> Role
        ensures { result ≡ self.now.role }
    {
        self.role
    }

    // The tokens at a word.
    pub(crate) fn tokens_at(&self, word: usize) -> u64
        ensures { result ≡ tokens_at word self.now }
    {
        self.tokens.get(word).copied().unwrap_or(0)
    }

    pub(crate) fn gain(&mut self, word: usize)
        requires place { word < length self.old.tokens }
        requires room { tokens_at word self.old < 2 ^ 64 - 1 }
        ensures { self.new ≡ gain self.old word }
    {
        self.tokens[word] += 1;
    }

    pub(crate) fn lose(&mut self, word: usize)
        requires place { word < length self.old.tokens }
        requires token { 0 < tokens_at word self.old }
        ensures { self.new ≡ lose self.old word }
    {
        self.tokens[word] -= 1;
    }

    pub(crate) fn raise(&mut self, word: usize, n: u64)
        requires { word < length self.old.amounts }
        ensures { self.new ≡ raise self.old word n }
    {
        self.amounts[word] = self.amounts[word].wrapping_add(n);
    }

    // Replaces a token at the parent of a word by one at the word.
    pub(crate) fn descend(&mut self, parent: usize, word: usize)
        requires place { (parent < length self.old.tokens) × (word < length self.old.tokens) × (parent ≢ word) }
        requires room { tokens_at word self.old < token_cap }
        requires token { 0 < tokens_at parent self.old }
        ensures { self.new ≡ lose (gain self.old word) parent }
    {
        self.gain(word);
        self.lose(parent);
    }

    // Replaces a token at a word by one at its parent.
    pub(crate) fn ascend(&mut self, parent: usize, word: usize)
        requires place { (parent < length self.old.tokens) × (word < length self.old.tokens) × (parent ≢ word) }
        requires room { tokens_at parent self.old < token_cap }
        requires token { 0 < tokens_at word self.old }
        ensures { self.new ≡ gain (lose self.old word) parent }
    {
        self.lose(word);
        self.gain(parent);
    }

    // Gives away the tokens of a new helper, which is then out.
    pub(crate) fn give(&mut self, helper: &Hand<A>)
        requires len { length helper.now.tokens ≡ length self.old.tokens }
        requires enough { (i : ℕ) → tokens_at i helper.now ≤ tokens_at i self.old }
        requires room { out self.old.role < helper_cap }
        ensures { self.new ≡ keeper self.old helper.now.tokens }
    {
        subtract_each(&mut self.tokens, &helper.tokens);
        if let Role::Main(n) = self.role {
            self.role = Role::Main(n + 1);
        }
    }

    // Takes all that a helper has, which is then no longer out.
    pub(crate) fn absorb(&mut self, helper: &Hand<A>)
        requires tokens { length helper.now.tokens ≡ length self.old.tokens }
        requires amounts { length helper.now.amounts ≡ length self.old.amounts }
        requires room { (i : ℕ) → tokens_at i self.old + tokens_at i helper.now < 2 ^ 64 }
        ensures { self.new ≡ rejoined self.old helper.now }
    {
        add_each(&mut self.tokens, &helper.tokens);
        wrapping_add_each(&mut self.amounts, &helper.amounts);
        if let Role::Main(n) = self.role {
            self.role = Role::Main(n.saturating_sub(1));
        }
    }

    // Gives up everything and frees the memory.
    pub(crate) fn spend(&mut self)
        ensures { self.new ≡ empty Role.Spent }
    {
        self.role = Role::Spent;
        self.tokens.clear();
        self.tokens.shrink_to_fit();
        self.amounts.clear();
        self.amounts.shrink_to_fit();
    }
}
