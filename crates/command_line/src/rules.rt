// The words that name a rule.
ghost use Rattle.std.specs.Prelude.{◌≡◌};
ghost use Rattle.command_line.specs.Rules.{scope_of, typing_of};

use diagnostics::{Rule, scope_rule, typing_rule};
use generated_inputs::size_of;

/// The typing rule whose number a word is.
pub(crate) fn typing_of(word: &str) -> Option<Rule>
    ensures { result ≡ typing_of word.now }
{
    let number = size_of(word)?;
    let rule = typing_rule(number)?;
    Some(Rule::Typing(rule))
}

/// The rule of SQL texts whose number a word is.
pub(crate) fn scope_of(word: &str) -> Option<Rule>
    ensures { result ≡ scope_of word.now }
{
    let number = size_of(word)?;
    let rule = scope_rule(number)?;
    Some(Rule::Scope(rule))
}
