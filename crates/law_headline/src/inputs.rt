//! What a link file and a key file say, and what a storm is made of, fits a link, and each such run
//! gets through.
ghost use Rattle.book_cmd_link.specs.declared.script.KeysFrom.{KeysFrom};
ghost use Rattle.book_cmd_link.specs.declared.script.KeysFrom.TheVariants as keys_from;
ghost use Rattle.std.specs.Prelude.{◌≡◌, ◌≤◌, ℕ, List, length, Ok};
ghost use Rattle.std.specs.List.{AllByRecursion};
ghost use Rattle.book_base.specs.declared.address.Socket.{Socket};
ghost use Rattle.book_keys.specs.Nodes.{tables_of};
ghost use Rattle.book_keys.specs.Rows.{Table};
ghost use Rattle.law_link.specs.Laws.{SetupFits, TablesFit, EventFits};
ghost use Rattle.book_link.specs.Storm.{storm_setup, storm_events};
ghost use Rattle.book_link.specs.Worlds.{Setup, setup_of};
ghost use Rattle.book_cmd_link.specs.declared.script.Script.{Script};
ghost use Rattle.book_cmd_link.specs.declared.timed.TimedScript.{TimedScript};
ghost use Rattle.book_cmd_link.specs.TimedRuns.{most_events};
ghost use Rattle.book_cmd_link.specs.LinkFiles.{shared_by};
ghost use Rattle.book_cmd_link.specs.LinkFiles.{script_of};
ghost use Rattle.book_cmd_link.specs.TimedRuns.{expand, timed_script_of};
ghost use Rattle.law_headline.specs.GetsThrough.{GetsThrough};

/// The sockets of a link file with the tables of a key file, or with those of the key that the link
/// file names, fit a link, and so does each event of a link file.
pub fn link_files_fit()
    ensures keyed { (keys text : List ℕ) (tables : List Table) (script : Script) → tables_of keys ≡ Ok tables
        → script_of keys_from.KeyFile text ≡ Ok script
        → SetupFits (setup_of tables script.a script.b) }
    ensures shared { (text : List ℕ) (script : Script) → script_of keys_from.LinkFile text ≡ Ok script
        → SetupFits (setup_of (shared_by script script.shared) script.a script.b) }
    ensures events { (keys : KeysFrom) (text : List ℕ) (script : Script) → script_of keys text ≡ Ok script
        → AllByRecursion EventFits script.events }
{}

/// The tables of a key file, at whichever sockets, have no overlap, and neither have those of the key
/// that a link file names.
pub fn tables_fit()
    ensures keyed { (keys : List ℕ) (tables : List Table) (a b : Socket) → tables_of keys ≡ Ok tables
        → TablesFit (setup_of tables a b) }
    ensures shared { (script : Script) → TablesFit (setup_of (shared_by script script.shared) script.a script.b) }
{}

/// The run of a link file over a key file gets through, whether `link` or `bgp` makes it, and so does
/// that of a link file that names its key.
pub fn link_files_get_through()
    ensures keyed { (keys text : List ℕ) (tables : List Table) (script : Script) → tables_of keys ≡ Ok tables
        → script_of keys_from.KeyFile text ≡ Ok script
        → GetsThrough (setup_of tables script.a script.b) script.events }
    ensures shared { (text : List ℕ) (script : Script) → script_of keys_from.LinkFile text ≡ Ok script
        → GetsThrough (setup_of (shared_by script script.shared) script.a script.b) script.events }
{}

/// The sockets of a link file with waits, with the tables of a key file, fit a link, and so does each
/// event of the plain run that such a file is; where that has no more events than a link with timers
/// may have, it gets through.
pub fn timed_files_fit()
    ensures link { (keys text : List ℕ) (tables : List Table) (script : TimedScript) → tables_of keys ≡ Ok tables
        → timed_script_of text ≡ Ok script
        → SetupFits (setup_of tables script.a script.b) }
    ensures events { (setup : Setup) (text : List ℕ) (script : TimedScript) → timed_script_of text ≡ Ok script
        → AllByRecursion EventFits (expand setup script.events).events }
    ensures through { (keys text : List ℕ) (tables : List Table) (script : TimedScript) → tables_of keys ≡ Ok tables
        → timed_script_of text ≡ Ok script
        → length (expand (setup_of tables script.a script.b) script.events).events ≤ most_events
        → GetsThrough (setup_of tables script.a script.b) (expand (setup_of tables script.a script.b)
        script.events).events }
{}

/// The link of a storm and each of its events fit, its tables have no overlap, and a storm of at most
/// 10,000 drawn events gets through.
pub fn storms_fit()
    ensures link { SetupFits storm_setup }
    ensures tables { TablesFit storm_setup }
    ensures events { (seed count : ℕ) → AllByRecursion EventFits (storm_events seed count) }
    ensures through { (seed count : ℕ) → count ≤ 10000 → GetsThrough storm_setup (storm_events seed count) }
{}
