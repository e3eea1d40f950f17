//! Laws about the answers, which are the contracts of functions that do nothing.
ghost use Rattle.cbor_tool.specs.Answer.{IsAnswered, IsAnsweredByRules, IsAnsweredStrictly};
ghost use Rattle.cbor_tool.specs.Answer.{OneAnswer};
ghost use Rattle.cbor_rules.specs.declared.settings.Rules.{Rules};

use serde_cbor::rules::none_where_kept;

/// A line has no two answers, so what the program is to print for it is settled.
pub fn one_answer()
    ensures { OneAnswer IsAnswered }
{}

/// Nor has it where canonical encodings alone are read.
pub fn one_strict_answer()
    ensures { OneAnswer IsAnsweredStrictly }
{}

/// Nor has it where bytes are read by rules.
pub fn one_answer_by_rules()
    ensures { (rules : Rules) → OneAnswer (IsAnsweredByRules rules) }
{
    none_where_kept();
}
