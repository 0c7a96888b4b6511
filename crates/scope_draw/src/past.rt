//! What is kept of the rungs above: which segments came, and where the arrows of segments begin.
ghost use Rattle.std.specs.Prelude.{◌≡◌, ◌∷◌, ◌==◌, ◌<◌, ◌+◌, Some, None, ℕ, List, [], OnOk, get_or, length};
ghost use Rattle.std.specs.Prelude.{if◌then◌else◌};
ghost use Rattle.std.specs.Option.{option_or};
ghost use Rattle.book_draw.specs.declared.rung.Rung.{Rung as Step};
ghost use Rattle.page_draw_svg.specs.Placements.{start_at, start_in, arrow_start, start_of_brought};

use book_base::End;
use book_draw::{Brought, Rung, Sketch};
use draw_ladder::Seen;
use page_draw_svg::Start;
use std::alloc::{AllocError, Global};

/// What is kept of rungs.
#[derive(Drop)]
pub(crate) struct Past {
    /// Which segments came.
    pub(crate) seen: Seen,
    /// At each number, where the arrow of the segment of this number begins.
    pub(crate) starts: Vec<Option<Start>>,
}

/// Grows the starts until there is a place at the number.
fn make_room(starts: &mut Vec<Option<Start>>, number: u32) -> Result<(), AllocError>
    ensures same { OnOk result ((n : ℕ) → get_or starts.new.items n None ≡ get_or starts.old.items n None) }
    ensures long { OnOk result (number < length starts.new.items) }
{
    let missing = (number as usize + 1).saturating_sub(starts.len());
    for _more in 0..missing {
        starts.push(None)?;
    }
    Ok(())
}

/// Keeps where the arrow of the segment of this number begins.
fn keep_start(starts: &mut Vec<Option<Start>>, number: u32, start: Start) -> Result<(), AllocError>
    ensures { OnOk result ((n : ℕ) → get_or starts.new.items n None
        ≡ (if n == number then Some start else get_or starts.old.items n None)) }
{
    make_room(starts, number)?;
    starts[number as usize] = Some(start);
    Ok(())
}

fn start_at(end: End, row: u32, sketch: &Sketch) -> Start
    ensures { result ≡ start_at end row sketch.now }
{
    Start {
        end,
        row,
        key_id: sketch.key_id,
    }
}

impl Past {
    ghost use Rattle.scope_draw.specs.Kept.{Keeps};

    /// Before anything was seen.
    pub(crate) fn new(alloc: Global) -> Past
        ensures { Keeps result 0 [] }
    {
        Past {
            seen: Seen::new(alloc),
            starts: Vec::new(alloc),
        }
    }

    /// Where the arrow of the segment of this number begins.
    fn arrow_start(&self, number: u32) -> Option<Start>
        ensures { (row : ℕ) (rs : List Step) → Keeps self.now row rs → result ≡ arrow_start number rs }
    {
        *self.starts.get(number as usize)?
    }

    /// Where the arrow of what came begins.
    pub(crate) fn start_of_brought(&self, what: Brought) -> Option<Start>
        ensures { (row : ℕ) (rs : List Step) → Keeps self.now row rs → result ≡ start_of_brought rs what }
    {
        match what {
            Brought::Segment(number) => self.arrow_start(number),
            Brought::Altered(number) => self.arrow_start(number),
            Brought::Injected => None,
        }
    }

    /// Keeps where an arrow begins, if the rung in this row makes a segment.
    fn keep(&mut self, row: u32, rung: &Rung) -> Result<(), AllocError>
        ensures starts { OnOk result ((n : ℕ) → get_or self.new.starts.items n None
            ≡ option_or (start_in n row rung.now) (get_or self.old.starts.items n None)) }
        ensures seen { OnOk result (self.new.seen ≡ self.old.seen) }
    {
        match rung {
            Rung::Made(end, sketch, _) => {
                keep_start(&mut self.starts, sketch.name, start_at(*end, row, sketch))
            }
            _ => Ok(()),
        }
    }

    /// Sees the rung in this row, behind those that were seen. An error only for want of memory.
    pub(crate) fn see(&mut self, row: u32, rung: &Rung) -> Result<(), AllocError>
        ensures { OnOk result ((rs : List Step) → Keeps self.old row rs → Keeps self.new (row + 1) (rung.now ∷ rs)) }
    {
        self.keep(row, rung)?;
        self.seen.see(*rung)
    }
}
