//! The laws of the messages of a stream.
ghost use Rattle.std.specs.Prelude.{◌≡◌, ℕ, ◌+◌, ◌<◌, List, ◌++◌, Some};
ghost use Rattle.std.specs.List.{All};
ghost use Rattle.book_bgp.specs.declared.bgp_fault.BgpFault.{BgpFault};
ghost use Rattle.book_bgp.specs.Messages.{Message, IsMessage, spell_messages, messages, behind, fault_in};

/// The messages of a stream are spelled one after another from its front, and every list of messages
/// that is spelled so begins them: they are the greatest such list (RFC 4271, section 4).
pub fn messages_are_the_greatest()
    ensures are { (bytes : List ℕ) → All (λ b. b < 256) bytes → All IsMessage (messages bytes) }
    ensures spelled { (bytes : List ℕ) → All (λ b. b < 256) bytes
        → bytes ≡ spell_messages (messages bytes) ++ behind bytes }
    ensures greatest { (list : List Message) (rest : List ℕ) → All IsMessage list
        → messages (spell_messages list ++ rest) ≡ list ++ messages rest }
{}

/// The messages of a part of a stream that begins at its front begin the stream's messages; and where
/// a fault ends them, it ends the stream's too.
pub fn messages_of_more_begin_alike()
    ensures prefix { (bytes more : List ℕ) → (later : List Message)
        × (messages (bytes ++ more) ≡ messages bytes ++ later) }
    ensures fault { (bytes more : List ℕ) (fault : BgpFault) → fault_in bytes ≡ Some fault
        → (messages (bytes ++ more) ≡ messages bytes) × (fault_in (bytes ++ more) ≡ Some fault) }
{}
