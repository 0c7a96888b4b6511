//! What a link file says, and the text of a script.
ghost use Rattle.book_cmd_link.specs.declared.script.KeysFrom.{KeysFrom};
ghost use Rattle.std.specs.Prelude.{◌≡◌, ℕ, List, Ok};
ghost use Rattle.book_cmd_link.specs.declared.script.Script.{Script};
ghost use Rattle.book_cmd_link.specs.LinkFiles.{keys_by, script_of};
ghost use Rattle.book_cmd_link.specs.declared.timed.TimedScript.{TimedScript};
ghost use Rattle.book_cmd_link.specs.TimedRuns.{timed_script_of};
ghost use Rattle.law_scripts.specs.Printed.{text_of};
ghost use Rattle.law_scripts.specs.Scripts.{IsScript};
ghost use Rattle.law_scripts.specs.Timed.{IsTimedScript};

/// What a link file says is a script whose numbers and lengths are in their ranges, with a shared key
/// exactly where it stands alone.
pub fn files_say_scripts()
    ensures ranges { (keys : KeysFrom) (text : List ℕ) (script : Script) → script_of keys text ≡ Ok script
        → IsScript script }
    ensures shared { (keys : KeysFrom) (text : List ℕ) (script : Script) → script_of keys text ≡ Ok script
        → keys_by script.shared ≡ keys }
{}

/// What a link file with waits says is a script whose numbers and lengths are in their ranges.
pub fn timed_files_say_scripts()
    ensures { (text : List ℕ) (script : TimedScript) → timed_script_of text ≡ Ok script → IsTimedScript script }
{}

/// Each script in its ranges has a text that says it.
pub fn scripts_have_texts()
    ensures { (script : Script) → IsScript script → script_of (keys_by script.shared) (text_of script) ≡ Ok script }
{}
