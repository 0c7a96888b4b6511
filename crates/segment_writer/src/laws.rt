//! What is laid out is the segment of the definitions, as a clause of a function that does nothing.
ghost use Rattle.std.specs.Prelude.{◌≡◌, ℕ, List, length};
ghost use Rattle.book_base.specs.declared.address.Pair.{Pair};
ghost use Rattle.book_base.specs.Algorithms.{mac_length_of};
ghost use Rattle.book_keys.specs.Coordination.{Sending};
ghost use Rattle.book_endpoint.specs.Emissions.{Draft, written};
ghost use Rattle.book_endpoint.specs.States.{EndState};
ghost use Rattle.tcp_segment.specs.Layout.{drafted};
ghost use Rattle.segment_writer.specs.Heads.{head_for};

/// What is laid out of the head of a draft, a MAC of its row's length and its payload is the segment
/// of the draft in its written form.
#[tactic(auto, using(crate::proofs::HeadLaws::drafts_are))]
pub fn heads_are_drafts()
    ensures { (pair : Pair) (s : EndState) (draft : Draft) (chosen : Sending) (m : List ℕ)
        → length m ≡ mac_length_of chosen.row.algorithm
        → drafted (head_for pair s draft chosen) m draft.payload ≡ written pair s draft chosen m }
{}
