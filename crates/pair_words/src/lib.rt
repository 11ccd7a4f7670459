// The 32 words of a pair state over a token: word L is the set of the contexts in which L is current, a digit to a context.
// Only the rules of the token's class are looked at, once each; a rule of another name in the class is passed over.
#![tactic(auto)]

ghost use Rattle.std.specs.Prelude.{◌≡◌, ◌&&◌, ◌<◌, ℕ, true, eqb, length, replicate};
ghost use Rattle.vpg.specs.declared.Rule.{Rule};
ghost use Rattle.vpg.specs.declared.Token.{Token as TokenValue};
ghost use Rattle.tables.specs.Table.{rule_in};
ghost use Rattle.tables.specs.Ready.{Below};
ghost use Rattle.rule_index.specs.Classes.{class_at, class_of};
ghost use Rattle.rule_index.proofs.Classes.{class_small};
ghost use Rattle.pair_words.specs.Words.{Gives, itself_of, contexts_by, gives_at, gives_behind, gained, words_by};
ghost use Rattle.pair_words.specs.OneClass.{at_class, behind_class};

use rule_index::IndexedGrammar;
use tables::Six;
use vpg::{CloseName, OpenName, Token};

// One word to a nonterminal.
pub type Words = [u32; 32];

// Inside a step the first nonterminal has itself alone as context; from a nonterminal that is current in no context, none.
fn itself(own: u32, next: usize) -> u32
    requires { next < 32 }
    ensures { result ≡ itself_of own next }
{
    if own != 0 { bits::with(0, next) } else { 0 }
}

// The contexts of the nonterminal behind the first token of a rule of this form; own has those of the rule's own nonterminal.
fn contexts(form: u16, own: u32, next: usize) -> u32
    requires { next < 32 }
    ensures { result ≡ contexts_by form own next }
{
    if form == 2 { itself(own, next) } else { own }
}

// Rules of one class that give pairs behind a token, or behind the close of their step.
trait Givers {
    ghost gives: { Self → Gives };

    ghost class: { Self → ℕ };

    fn class(&self) -> usize
        ensures { result ≡ class self.now };

    // Adds what rule k gives, which is of the class.
    fn gain(&self, grammar: &IndexedGrammar, k: usize, out: &mut Words)
        requires k_bound { (k < 128) × Below 32 (rule_in grammar.now.table.now k) × (class_of (rule_in grammar.now.table.now k) ≡ class self.now) }
        requires out_len { length out.old ≡ 32 }
        ensures { out.new ≡ gained (gives self.now) out.old (rule_in grammar.now.table.now k) };

    ghost small: { (s : Self) → class s < 256 };

    ghost one_class: { (s : Self) (R : Rule) → (gives s).matches R ≡ true → class_of R ≡ class s };
}

// The rules that take a token alone and those whose step it opens; from has the words before it.
#[derive(Drop)]
struct AtToken<'a> {
    token: Token,
    from: &'a Words,
}

impl Givers for AtToken<'_> {
    ghost gives = { λ s. gives_at s.token s.from.now };

    ghost class = { λ s. class_at s.token };

    fn class(&self) -> usize {
        rule_index::class_at(self.token)
    }

    // The rule is of the token's class, so the name alone is asked for.
    fn gain(&self, grammar: &IndexedGrammar, k: usize, out: &mut Words) {
        let v = tables::six_in(grammar.table, k);
        if v.2 == tables::name_of(self.token) {
            let own = v.1 as usize;
            let next = v.3 as usize;
            out[next] |= contexts(v.0, self.from[own], next);
        }
    }

    ghost small = { λ s. class_small s.token };

    ghost one_class = { λ s. at_class s.token s.from.now };
}

// The rules whose step has these names and whose inside may begin with one of done; from has the words before the open.
#[derive(Drop)]
struct Behind<'a> {
    open_name: OpenName,
    close_name: CloseName,
    done: u32,
    from: &'a Words,
}

// Whether the six numbers are those of a step with these names. Few of the rules that are asked have the open's: it comes first.
fn is_step(v: Six, a: OpenName, b: CloseName) -> bool
    ensures { result ≡ (eqb v.2 a.0 && (eqb v.4 b.0 && eqb v.0 2)) }
{
    v.2 == a.0 && v.4 == b.0 && v.0 == 2
}

impl Givers for Behind<'_> {
    ghost gives = { λ s. gives_behind s.open_name s.close_name s.done s.from.now };

    ghost class = { λ s. class_at (TokenValue.Open s.open_name) };

    fn class(&self) -> usize {
        rule_index::class_by(1, self.open_name.0)
    }

    #[tactic(auto, using(crate::proofs::Sixes::step_below))]
    fn gain(&self, grammar: &IndexedGrammar, k: usize, out: &mut Words) {
        let v = tables::six_in(grammar.table, k);
        if is_step(v, self.open_name, self.close_name)
            && bits::has(self.done as u64, v.3 as usize)
        {
            let own = v.1 as usize;
            let next = v.5 as usize;
            out[next] |= self.from[own];
        }
    }

    ghost small = { λ s. class_small (TokenValue.Open s.open_name) };

    ghost one_class = { λ s. behind_class s.open_name s.close_name s.done s.from.now };
}

// Adds what the rules of the class give: no other rule gives any.
fn gain_all<G: Givers>(givers: &G, grammar: &IndexedGrammar, out: &mut Words)
    requires out_len { length out.old ≡ 32 }
    ensures { out.new ≡ words_by (G.gives givers.now) out.old grammar.now.table.now grammar.now.head.rules }
{
    for k in grammar.chain(givers.class()) {
        givers.gain(grammar, k, out);
    }
}

// Puts the pairs behind the token into out, by the rules that take it alone and those whose step it opens; from has the words before it. It fills what
// the caller lends: words that are handed back by value would be copied at every token.
pub fn words_after(grammar: &IndexedGrammar, token: Token, from: &Words, out: &mut Words)
    ensures { out.new ≡ words_by (gives_at token from.now) (replicate 32 0) grammar.now.table.now grammar.now.head.rules }
{
    *out = [0u32; 32];
    gain_all(&AtToken { token, from }, grammar, out);
}

// Adds to out the pairs behind the close of a step; from has the words before its open, done the nonterminals with which its inside may begin.
pub fn words_behind(
    grammar: &IndexedGrammar,
    open_name: OpenName,
    close_name: CloseName,
    done: u32,
    from: &Words,
    out: &mut Words,
)
    requires out_len { length out.old ≡ 32 }
    ensures { out.new ≡ words_by (gives_behind open_name close_name done from.now) out.old grammar.now.table.now grammar.now.head.rules }
{
    let givers = Behind {
        open_name,
        close_name,
        done,
        from,
    };
    gain_all(&givers, grammar, out);
}
