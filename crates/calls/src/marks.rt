// Which rule a byte opens, and whether it closes one.
ghost use Rattle.std.specs.Prelude.{◌≡◌};
ghost use Rattle.calls.specs.Parsing.{opened_by, closes};

use crate::lexer::Source;
use crate::rule::Rule;

impl Source<'_> {
    // The first rule whose opening bracket a byte is.
    pub(crate) fn opened_by(&self, byte: u8) -> Option<Rule>
        ensures { result ≡ opened_by self.now.rules.now byte }
    {
        self.rules.iter().find(|rule| byte == rule.open).copied()
    }

    // Whether a byte is the closing bracket of some rule.
    pub(crate) fn closes(&self, byte: u8) -> bool
        ensures { result ≡ closes self.now.rules.now byte }
    {
        self.rules.iter().any(|rule| byte == rule.close)
    }
}
