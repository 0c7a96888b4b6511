//! The top call over files in memory.
ghost use Rattle.law_memory.specs.InMemory.{IsAnswered};

/// Over a key file and an input in memory, where no read and no write fails, [`ao_run::run`] gives the answer to
/// its words, whole: the status, the output and the text for standard error are those of
/// `answer words keys input`. Or it ends with 7, since memory ran out.
pub fn answer_in_memory()
    ensures { IsAnswered }
{}
