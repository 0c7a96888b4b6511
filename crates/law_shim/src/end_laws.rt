//! What holds of each run.
ghost use Rattle.std.specs.Prelude.{◌≡◌, ℕ, List, Ok, Some, true};
ghost use Rattle.book_base.specs.declared.address.Pair.{Pair};
ghost use Rattle.book_segments.specs.Segments.{Segment, reading};
ghost use Rattle.book_segments.specs.Spelling.{AreBytes, Fits};
ghost use Rattle.book_keys.specs.Plans.{mirrored};
ghost use Rattle.book_keys.specs.Rows.{Row};
ghost use Rattle.book_endpoint.specs.Arrivals.{arrive};
ghost use Rattle.book_endpoint.specs.Emissions.{Emission, Emits, emit, resend};
ghost use Rattle.book_endpoint.specs.States.{EndState};
ghost use Rattle.book_endpoint.specs.Verdicts.{Finding};
ghost use Rattle.book_shim.specs.declared.kept.Kept.{Kept};
ghost use Rattle.book_shim.specs.Keeping.{Setting};
ghost use Rattle.book_shim.specs.Leaving.{Sealed, send_sealed};
ghost use Rattle.book_shim.specs.Arriving.{Opened, inbound};
ghost use Rattle.law_shim.specs.Beside.{Event, run, was_made, was_sealed, IsBytewise};
ghost use Rattle.law_shim.specs.EndOrigins.{IsOfEnd, IsOfKernel};
ghost use Rattle.law_shim.specs.Ready.{IsReady, GoesThrough, IsWelcome, IsHandedOn};

/// Whatever the shim's kernel gives, whatever an end of our own makes, in whatever states, whatever comes from the
/// network, and under whatever tables and clocks: what is handed to the shim's kernel is a segment that the end made,
/// and what passes at the end is one that the shim's kernel gave; in the same context, so on the connection of the
/// same two initial sequence numbers, and the same in all of TCP but options and checksum; unless it is a forgery.
pub fn authentic_beside_an_end()
    ensures to_the_kernel { (pair : Pair) (events : List Event) (here : Setting) (bytes : List ℕ) (t : Opened)
        → AreBytes bytes
        → inbound here pair (run pair events).kept bytes ≡ Ok t
        → was_made t.passed (run pair events).made ≡ true → IsOfEnd pair events t }
    ensures to_the_end { (pair : Pair) (events : List Event) (rows : List Row) (now : ℕ) (s : EndState)
        (bytes : List ℕ) (p : Finding) → IsBytewise events → AreBytes bytes
        → (arrive rows (mirrored pair) now s (reading bytes)).passed ≡ Some p
        → was_sealed p (run pair events).sealed ≡ true → IsOfKernel pair events s bytes p }
{}

/// What a shim seals passes the check of an end of our own that is ready for it, under its number.
pub fn passes_at_an_end()
    ensures { (sending : Setting) (pair : Pair) (kept : Kept) (d : Segment) (m : Sealed) (rows : List Row) (now : ℕ)
        (s : EndState) → Fits d → send_sealed sending pair kept d ≡ Ok m
        → IsReady rows (mirrored pair) now s m → GoesThrough rows (mirrored pair) now s m }
{}

/// What an end of our own makes, next or again, is taken by a shim that is ready for it, and handed on as it was made.
pub fn taken_from_an_end()
    ensures next { (here : Setting) (pair : Pair) (g : Kept) (rows : List Row) (now : ℕ) (s : EndState) (e : Emission)
        → emit rows (mirrored pair) now s ≡ Emits e → IsWelcome here pair g e → IsHandedOn here pair g e }
    ensures again { (here : Setting) (pair : Pair) (g : Kept) (rows : List Row) (now : ℕ) (s : EndState) (e : Emission)
        → resend rows (mirrored pair) now s ≡ Emits e → IsWelcome here pair g e → IsHandedOn here pair g e }
{}
