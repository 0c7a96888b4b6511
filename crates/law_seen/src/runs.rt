//! Each run over tables that are aligned.
ghost use Rattle.book_keys.specs.declared.plan.Plan.{Plan};
ghost use Rattle.book_link.specs.Worlds.{Setup};
ghost use Rattle.law_seen.specs.Carried.{CarriesEveryRun, IsAligned};
ghost use Rattle.law_link.specs.Laws.{SetupFits, TablesFit};

/// Where the judgement on the tables of both ends is `aligned`, each segment that comes as it was made and in
/// time passes the check at the session that it is addressed to, and no send within the plan's times lacks
/// a key: in each run of at most 32,768 events over these tables, as the plan says how clocks differ.
pub fn aligned_carries()
    ensures { (plan : Plan) (setup : Setup) → SetupFits setup → TablesFit setup → IsAligned plan setup
        → CarriesEveryRun plan setup }
{}
