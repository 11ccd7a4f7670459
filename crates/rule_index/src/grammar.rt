// A grammar as the passes read it: what its file says before the rules, and the table of its rules with their index.
ghost use Rattle.rule_index.specs.Index.{Indexed};
ghost use Rattle.std.proofs.Props.{props};
ghost use Rattle.rule_index.specs.Once.{small_once, form_once};

use tables::{Head, Table};

// Every table of this type has been indexed, which `index_rules` does.
#[derive(Clone, Copy)]
pub struct IndexedGrammar<'a> {
    pub table: &'a Table,
    pub head: Head,
    ghost indexed: { Indexed table.now head } by { Prim.hlevel (props, small_once, form_once) },
}

impl IndexedGrammar<'_> {
    ghost use Rattle.std.specs.Prelude.{◌≡◌, ◌<◌};
    ghost use Rattle.rule_index.specs.Index.{first_in, next_in, end_in, ends_in, low_ends_in, inside_in, after_in};

    // The first rule of a class; the number of rules where there is none.
    pub fn first(&self, class: usize) -> usize
        requires { class < 256 }
        ensures { result ≡ first_in self.now.table.now class }
    {
        self.table.first[class] as usize
    }

    // The rule behind rule r in its class; the number of rules where there is none.
    pub fn next(&self, r: usize) -> usize
        requires { r < 128 }
        ensures { result ≡ next_in self.now.table.now r }
    {
        self.table.next[r] as usize
    }

    // The empty rule of a nonterminal; the number of rules where there is none.
    pub fn end(&self, nonterminal: usize) -> usize
        requires { nonterminal < 32 }
        ensures { result ≡ end_in self.now.table.now nonterminal }
    {
        crate::end_of(self.table, nonterminal)
    }

    // The nonterminals that have an empty rule.
    pub fn ends(&self) -> u32
        ensures { result ≡ ends_in self.now.table.now }
    {
        self.table.ends
    }

    // The well-matched ones among them: those that can end before a close.
    pub fn low_ends(&self) -> u32
        ensures { result ≡ low_ends_in self.now.table.now }
    {
        self.table.low_ends
    }

    // The digit that rule r asks for behind its token.
    pub fn inside(&self, r: usize) -> usize
        requires { r < 128 }
        ensures { result ≡ inside_in self.now.table.now r }
    {
        self.table.inside[r] as usize
    }

    // And behind the close of its step.
    pub fn after(&self, r: usize) -> usize
        requires { r < 128 }
        ensures { result ≡ after_in self.now.table.now r }
    {
        self.table.after[r] as usize
    }
}
