// The rules of one class, from one rule to the next along the index.
ghost use Rattle.std.specs.Prelude.{◌≡◌, ◌+◌, ◌<◌};
ghost use Rattle.std.specs.Iterator.{YieldsFirst, item_count};
ghost use Rattle.tables.specs.Table.{rule_in};
ghost use Rattle.rule_index.specs.Classes.{class_of};
ghost use Rattle.rule_index.specs.Chain.{rules_from};

use crate::IndexedGrammar;
use std::marker::Model;

// The rules of a class that are still to come, in rising order: a contract sees the list of them.
#[derive(Drop)]
pub struct Chain<'a> {
    grammar: IndexedGrammar<'a>,
    rule: usize,
}

impl<'a> Model for Chain<'a> {
    ghost use Rattle.std.specs.Prelude.{ℕ, List};
    ghost use Rattle.tables.specs.Table.{rule_in};
    ghost use Rattle.rule_index.specs.Classes.{class_of};
    ghost use Rattle.rule_index.specs.Chain.{rules_from};

    ghost Value = { List ℕ };

    ghost view = { λ c. rules_from c.grammar.table.now c.grammar.head.rules (class_of (rule_in c.grammar.table.now c.rule)) c.rule };
}

impl Iterator for Chain<'_> {
    type Item = usize;

    ghost next_gives = { YieldsFirst (λ left. left) };

    ghost remaining = { item_count (λ left. left) };

    fn next(&mut self) -> Option<usize> {
        let rule = self.rule;
        if rule < self.grammar.head.rules {
            self.rule = self.grammar.next(rule);
            return Some(rule);
        }
        None
    }
}

impl<'a> IndexedGrammar<'a> {
    // The rules of a class.
    pub fn chain(&self, class: usize) -> Chain<'a>
        requires { class < 256 }
        ensures { result ≡ rules_from self.now.table.now self.now.head.rules class 0 }
    {
        Chain {
            grammar: *self,
            rule: self.first(class),
        }
    }

    // Those behind rule r in its class.
    pub fn chain_behind(&self, r: usize) -> Chain<'a>
        requires { r < self.now.head.rules }
        ensures { result ≡ rules_from self.now.table.now self.now.head.rules (class_of (rule_in self.now.table.now r)) (r + 1) }
    {
        Chain {
            grammar: *self,
            rule: self.next(r),
        }
    }
}
