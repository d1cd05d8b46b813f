//! What was settled.
ghost use Rattle.std.specs.Prelude.{◌≡◌, ◌+◌, ◌≤◌};

use crate::brand::QueueBrand;
use crate::passes::TakePass;
use std::sync::ledger::Book;

/// The total of what was settled through all take passes.
#[derive(Drop)]
pub struct SettleBook<B: QueueBrand> {
    pub(crate) book: Book<B>,
}

impl<B: QueueBrand> SettleBook<B> {
    /// Settles an amount that the pass owes.
    pub fn book(&mut self, pass: &mut TakePass<B>, amount: u64)
        requires owed { amount ≤ pass.old.owed }
        ensures total { self.new.book.total ≡ self.old.book.total + amount }
        ensures settled { pass.new.share.amount ≡ pass.old.share.amount + amount }
        ensures owed { pass.new.owed + amount ≡ pass.old.owed }
        ensures parts { pass.new.share.parts ≡ pass.old.share.parts }
        ensures queue { pass.new.pass ≡ pass.old.pass }
    {
        let TakePass {
            pass: _,
            share,
            owed,
        } = pass;
        self.book.add(share, amount);
        *owed -= amount;
    }

    /// Changes nothing, and tells that what was settled in all was settled through this pass, which has all the parts.
    pub fn agree(&mut self, pass: &mut TakePass<B>)
        requires { pass.old.share.parts ≡ B.parts }
        ensures total { self.new.book.total ≡ self.old.book.total }
        ensures agree { self.new.book.total ≡ pass.new.share.amount }
        ensures settled { pass.new.share.amount ≡ pass.old.share.amount }
        ensures owed { pass.new.owed ≡ pass.old.owed }
        ensures parts { pass.new.share.parts ≡ pass.old.share.parts }
        ensures queue { pass.new.pass ≡ pass.old.pass }
    {
        self.book.audit(&mut pass.share);
    }
}
