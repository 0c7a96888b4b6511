//! The law of the line form of a pcap file.
ghost use Rattle.std.specs.Prelude.{◌≡◌, ℕ, ◌<◌, ◌≤◌, List, [], ◌∷◌, length, map, codes, None};
ghost use Rattle.std.specs.List.{All};
ghost use Rattle.book_pcap.specs.Packets.{most_capture, packets_of};
ghost use Rattle.book_answer.specs.Answers.{answer};
ghost use Rattle.book_cmd_check.specs.StoredPackets.{stored_packet};
ghost use Rattle.book_cmd_check.specs.StoredLines.{stored_input};
ghost use Rattle.law_pcap.specs.LineForms.{line_form};

/// A pcap file is judged as its line form is, which has a line for each packet up to the first fault:
/// its time and its datagram in hexadecimal, or a number sign where the packet is passed over.
///
/// The line form has no fault, and its stored segments are the packets with a datagram, each with
/// its packet's number. So `check --pcap` of a file writes what `check` writes of the file's line form,
/// where both are within the limit of an input; and where the file has no fault the two answer alike
/// in all. `name` is the word for the key file, `keys` what it holds.
pub fn files_are_judged_as_their_line_forms()
    ensures stored { (file : List ℕ) → All (λ b. b < 256) file
        → stored_input (line_form file) ≡ record { stored = map stored_packet (packets_of file).list; fault = None } }
    ensures output { (name keys file : List ℕ) → All (λ b. b < 256) file → length file ≤ most_capture
        → length (line_form file) ≤ most_capture
        → (answer (codes "check" ∷ codes "--pcap" ∷ name ∷ []) keys file).output
        ≡ (answer (codes "check" ∷ name ∷ []) keys (line_form file)).output }
    ensures whole { (name keys file : List ℕ) → All (λ b. b < 256) file → length file ≤ most_capture
        → length (line_form file) ≤ most_capture → (packets_of file).fault ≡ None
        → answer (codes "check" ∷ codes "--pcap" ∷ name ∷ []) keys file
        ≡ answer (codes "check" ∷ name ∷ []) keys (line_form file) }
{}
