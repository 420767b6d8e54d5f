// How a list is written, and whether brackets and separators are told apart.
ghost use Rattle.std.specs.Prelude.{◌≡◌};
ghost use Rattle.calls.specs.Tokens.{blank, own};
ghost use Rattle.calls.specs.Values.{apart, fresh, sound_rule, unambiguous};

// How a list is written: its brackets, what stands between its values, and how far these are indented.
#[derive(Clone, Copy, Debug, PartialEq, Eq)]
pub struct Rule {
    pub open: u8,
    pub close: u8,
    pub separator: u8,
    pub indent: u8,
}

// The rules where none are given: a comma in round, square or curly brackets, two columns deep.
pub const DEFAULT: [Rule; 3] = [
    Rule {
        open: b'(',
        close: b')',
        separator: b',',
        indent: 2,
    },
    Rule {
        open: b'[',
        close: b']',
        separator: b',',
        indent: 2,
    },
    Rule {
        open: b'{',
        close: b'}',
        separator: b',',
        indent: 2,
    },
];

// Whether a byte is a blank, a tab or the end of a line.
pub(crate) fn is_blank(byte: u8) -> bool
    ensures { result ≡ blank byte }
{
    matches!(byte, b' ' | b'\t' | b'\n' | b'\r')
}

impl Rule {
    // Whether a byte is one of a rule's brackets or its separator.
    pub(crate) fn has(&self, byte: u8) -> bool
        ensures { result ≡ own self.now byte }
    {
        byte == self.open || byte == self.close || byte == self.separator
    }

    // Whether a rule's own bytes are told apart, and from blanks.
    fn is_sound(&self) -> bool
        ensures { result ≡ sound_rule self.now }
    {
        !is_blank(self.open)
            && !is_blank(self.close)
            && !is_blank(self.separator)
            && self.open != self.close
            && self.open != self.separator
            && self.close != self.separator
    }

    // Whether no bracket of one of two rules is a byte of the other, but that both may close alike: field by field, as no derive says so.
    fn is_apart(&self, other: &Rule) -> bool
        ensures { result ≡ apart self.now other.now }
    {
        !other.has(self.open)
            && !self.has(other.open)
            && self.close != other.separator
            && self.separator != other.close
    }
}

// Whether a rule is told apart from each of some others.
#[tactic(auto, unfolding(crate::specs::Values::fresh))]
fn fresh(rules: &[Rule], rule: &Rule) -> bool
    ensures { result ≡ fresh rules.now rule.now }
{
    rules.iter().all(|other| other.is_apart(rule))
}

// Whether brackets and separators are told apart in all rules.
#[tactic(auto, unfolding(crate::specs::Values::unambiguous))]
pub fn unambiguous(rules: &[Rule]) -> bool
    ensures { result ≡ unambiguous rules.now }
{
    let mut left = rules;
    // No `all`: each rule is compared with those behind it, for which a closure would count an index.
    while let Some((rule, others)) = left.split_first() {
        if !rule.is_sound() || !fresh(others, rule) {
            return false;
        }
        left = others;
    }
    true
}
