//! What a wait brings about by itself on a link with retransmission timers.
ghost use Rattle.std.specs.Prelude.{List};
ghost use Rattle.book_link.specs.Worlds.{Setup};
ghost use Rattle.book_cmd_link.specs.declared.timed.TimedEvent.{TimedEvent};
ghost use Rattle.book_cmd_link.specs.TimedRuns.{expand};
ghost use Rattle.law_progress.specs.Waits.{WaitsResend};

/// Where something that an end sent isn't acknowledged, and its live session isn't closed, its
/// timer runs, and each wait of the end that reaches to its expiry begins with sending again. It
/// holds after every list of events and waits.
pub fn waits_resend()
    ensures { (setup : Setup) (events : List TimedEvent)
        → WaitsResend setup (expand setup events).progress }
{}
