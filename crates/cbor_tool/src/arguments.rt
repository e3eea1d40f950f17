//! The words after the program's name.

ghost use Rattle.std.specs.Prelude.{map};
ghost use Rattle.std.specs.String.{string_bytes};
ghost use Rattle.cbor_tool.specs.RunSteps.{Chooses, ChoosesForm};

use crate::program::{Mode, Preset};
use crate::sequence::Form;

/// The mode that the words choose: no word is lenient, `strict`, `diagnose` and `diagnose --pretty`
/// choose those, and `deterministic`, `length-first`, `ctap2`, `dcbor` and `unique-keys` the rules of these
/// forms.
/// Other words choose none.
pub fn mode(words: &[String]) -> Option<Mode>
    ensures { Chooses (map string_bytes words.now) result }
{
    match words {
        [] => Some(Mode::Lenient),
        [word] if word.as_str() == "strict" => Some(Mode::Strict),
        [word] if word.as_str() == "diagnose" => Some(Mode::Diagnose),
        [word] if word.as_str() == "deterministic" => Some(Mode::ByRules(Preset::Deterministic)),
        [word] if word.as_str() == "length-first" => Some(Mode::ByRules(Preset::LengthFirst)),
        [word] if word.as_str() == "ctap2" => Some(Mode::ByRules(Preset::Ctap2)),
        [word] if word.as_str() == "dcbor" => Some(Mode::ByRules(Preset::Dcbor)),
        [word] if word.as_str() == "unique-keys" => Some(Mode::ByRules(Preset::UniqueKeys)),
        [word, option] if word.as_str() == "diagnose" && option.as_str() == "--pretty" => {
            Some(Mode::DiagnosePretty)
        }
        _ => None,
    }
}

/// The form in which a sequence is answered that the words choose: `raw`, `diagnose raw` or
/// `diagnose --pretty raw`. Other words choose none.
pub fn form(words: &[String]) -> Option<Form>
    ensures { ChoosesForm (map string_bytes words.now) result }
{
    match words {
        [raw] if raw.as_str() == "raw" => Some(Form::Canonical),
        [word, raw] if word.as_str() == "diagnose" && raw.as_str() == "raw" => Some(Form::Notation),
        [word, option, raw]
            if word.as_str() == "diagnose"
                && option.as_str() == "--pretty"
                && raw.as_str() == "raw" => { Some(Form::PrettyNotation) }
        _ => None,
    }
}
