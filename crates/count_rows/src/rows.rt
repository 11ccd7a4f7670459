// The counts of all positions, and how one of them is read or grows.
ghost use Rattle.count_rows.specs.Sized.{Sized};

use capped::Count;
use contexts::Context;

// For each position 32 counts, one for each nonterminal, and the word of the nonterminals whose count there is over. Behind the last position there is
// one more, whose counts stay 0.
#[derive(Clone, Copy)]
pub struct Rows {
    pub counts: [[u64; 32]; 1026],
    pub overs: [u64; 1026],
    ghost sized: { Sized counts overs },
}

// The words of the two positions behind: that behind a rule's first token, and that behind its close. Where counts are stored in a loop they
// are read once, since each store might have changed them.
#[derive(Clone, Copy)]
pub struct Overs {
    pub inside: u64,
    pub after: u64,
}

impl Rows {
    ghost use Rattle.std.specs.Prelude.{◌≡◌, ◌<◌};
    ghost use Rattle.capped.specs.Capped.{value};
    ghost use Rattle.count_rows.specs.Rows.{overs_at, value_at, OversBehind, Added};

    // The count of nonterminal l at position p.
    pub fn count_at(&self, p: usize, l: usize) -> Count
        requires { (p < 1026) × (l < 32) }
        ensures { value result ≡ value_at self.now p l }
    {
        self.count_by(p, l, self.overs[p])
    }

    // The same by the position's word, which the caller has read.
    pub fn count_by(&self, p: usize, l: usize, overs: u64) -> Count
        requires { (p < 1026) × (l < 32) × (overs ≡ overs_at self.now p) }
        ensures { value result ≡ value_at self.now p l }
    {
        if bits::has(overs, l) {
            None
        } else {
            Some(self.counts[p][l])
        }
    }

    pub fn overs_behind(&self, context: Context) -> Overs
        requires { (context.position < 1025) × (context.closing < 1025) }
        ensures { OversBehind self.now context.position context.closing result }
    {
        Overs {
            inside: self.overs[context.position + 1],
            after: self.overs[context.closing + 1],
        }
    }

    // Adds n to a count. One that is over stays over.
    pub fn add_at(&mut self, p: usize, l: usize, n: Count)
        requires { (p < 1026) × (l < 32) }
        ensures { Added self.old p l (value n) self.new }
    {
        let overs = self.overs[p];
        if bits::has(overs, l) {
            return;
        }
        match capped::sum(Some(self.counts[p][l]), n) {
            Some(total) => self.counts[p][l] = total,
            None => self.overs[p] = overs | (1 << l),
        }
    }
}
