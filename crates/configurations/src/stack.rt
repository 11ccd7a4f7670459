// The open steps of a configuration, the outermost first.
ghost use Rattle.std.specs.Prelude.{◌≡◌, ◌≤◌, length};

use pair_states::Opened;
use pair_words::Words;
use vpg::OpenName;

// The first `depth` of them are open; the others are left over.
#[derive(Clone, Copy)]
pub struct Stack {
    pub opened: [Opened; 128],
    pub depth: usize,
    ghost bounded: { (length opened ≡ 128) × (depth ≤ 128) },
}

impl Stack {
    ghost use Rattle.std.specs.Prelude.{◌<◌, ◌-◌, get_or, IfNone, IfSome};
    ghost use Rattle.configurations.specs.Stack.{nothing, Pushed};

    // With no step open.
    pub fn new() -> Stack
        ensures { result.depth ≡ 0 }
    {
        let none = Opened {
            name: OpenName(0),
            words: [0u32; 32],
        };
        Stack {
            opened: [none; 128],
            depth: 0,
        }
    }

    // Opens a step in the state of these words.
    pub fn push(&mut self, name: OpenName, words: &Words)
        requires { self.old.depth < 128 }
        ensures { Pushed name words.now self.old self.new }
    {
        self.opened[self.depth].name = name;
        self.opened[self.depth].words = *words;
        self.depth += 1;
    }

    // The step that was opened last, if one is open.
    pub fn last(&self) -> Option<&Opened>
        ensures none { IfNone result (self.now.depth ≡ 0) }
        ensures some { IfSome result (λ opened. (0 < self.now.depth) × (opened.now ≡ get_or self.now.opened (self.now.depth - 1) nothing)) }
    {
        if self.depth == 0 {
            None
        } else {
            Some(&self.opened[self.depth - 1])
        }
    }

    // Closes the step that was opened last.
    pub fn pop(&mut self)
        requires { 0 < self.old.depth }
        ensures { (self.new.opened ≡ self.old.opened) × (self.new.depth ≡ self.old.depth - 1) }
    {
        self.depth -= 1;
    }
}
