//! Theorems about echoes, as clauses of functions that do nothing.
ghost use Rattle.std.specs.Prelude.{◌≡◌, ℕ, List};
ghost use Rattle.book_link.specs.declared.event.Event.{Event};
ghost use Rattle.book_scope_run.specs.Echoes.{echoes_from, told_text};

/// Without what is echoed the text of a link file's run is its report.
pub fn the_report_is_told()
    ensures { (n : ℕ) (lines : List (List ℕ)) (events : List Event) (report : List ℕ)
        → told_text (echoes_from n lines events report) ≡ report }
{}
