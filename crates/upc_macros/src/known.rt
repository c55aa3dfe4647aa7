//! What macros are known to give.
ghost use Rattle.std.specs.Prelude.{◌≡◌, ◌<◌, Bool, true, false, None, Some, length, replicate, slice_set, IfOk};
ghost use Rattle.upc_macros.specs.code.Table.{IsNumbered};
ghost use Rattle.upc_macros.specs.code.Known.{gift_of, is_defined};

use std::alloc::Global;
use upc_lexer::{Token, TokenKind};
use upc_text::OutOfMemory;

/// Tokens of the expansion that a macro gave: their number, and the index of the first.
#[derive(Clone, Copy)]
pub(crate) struct Gift {
    /// What `since` was when the macro gave them.
    pub(crate) since: usize,
    pub(crate) from: usize,
    pub(crate) count: usize,
}

/// What is known of the macros as they are.
#[derive(Drop)]
pub(crate) struct Known {
    /// The index of the first token after the last directive that changed a macro.
    pub(crate) since: usize,
    /// For each name, whether it is a macro, also while it is being replaced.
    pub(crate) defined: Vec<bool>,
    /// For each name, what its macro gave when it was last replaced and no macro that was being replaced was met.
    pub(crate) gifts: Vec<Option<Gift>>,
}

impl Known {
    /// At first no name is a macro.
    pub(crate) fn new(alloc: Global, names: usize) -> Result<Known, OutOfMemory>
        ensures since { IfOk result (λ known. known.since ≡ 0) }
        ensures defined { IfOk result (λ known. known.defined.items ≡ replicate names false) }
        ensures gifts { IfOk result (λ known. known.gifts.items ≡ replicate names None) }
    {
        Ok(Known {
            since: 0,
            defined: vec![in alloc; false; names]?,
            gifts: vec![in alloc; None; names]?,
        })
    }

    /// What the token gives, if it is a macro of which that is known.
    pub(crate) fn gift(&self, token: &Token) -> Option<Gift>
        requires { IsNumbered (length self.now.gifts.items) token.now.kind }
        ensures { result ≡ gift_of self.now token.now.kind }
    {
        let TokenKind::Name(number) = token.kind else {
            return None;
        };
        let gift = self.gifts[number as usize]?;
        if gift.since == self.since {
            Some(gift)
        } else {
            None
        }
    }

    /// Whether the token is a macro, also while it is being replaced.
    pub(crate) fn is_defined(&self, token: &Token) -> bool
        requires { IsNumbered (length self.now.defined.items) token.now.kind }
        ensures { result ≡ is_defined self.now token.now.kind }
    {
        let TokenKind::Name(number) = token.kind else {
            return false;
        };
        self.defined[number as usize]
    }

    /// The macro of this name gave so many tokens from this index on.
    pub(crate) fn learn(&mut self, name: usize, from: usize, count: usize)
        requires { name < length self.old.gifts.items }
        ensures since { self.new.since ≡ self.old.since }
        ensures defined { self.new.defined.items ≡ self.old.defined.items }
        ensures gifts { self.new.gifts.items ≡ slice_set self.old.gifts.items name
            (Some (record { since = self.old.since; from = from; count = count })) }
    {
        self.gifts[name] = Some(Gift {
            since: self.since,
            from,
            count,
        });
    }

    /// A directive made this name a macro, or none, and this token is the first after it: nothing is known any more.
    pub(crate) fn change(&mut self, name: usize, defined: bool, since: usize)
        requires { name < length self.old.defined.items }
        ensures since { self.new.since ≡ since }
        ensures defined { self.new.defined.items ≡ slice_set self.old.defined.items name defined }
        ensures gifts { self.new.gifts.items ≡ self.old.gifts.items }
    {
        self.since = since;
        self.defined[name] = defined;
    }
}
