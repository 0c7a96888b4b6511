//! The laws of the packets of a file.
ghost use Rattle.std.specs.Prelude.{◌≡◌, ℕ, ◌+◌, ◌<◌, List, [], length, Some, None};
ghost use Rattle.std.specs.List.{All};
ghost use Rattle.book_pcap.specs.declared.pcap_head.Head.{Head};
ghost use Rattle.book_pcap.specs.Packets.{Kept, Packet, BadRecord, with_datagrams, packets_of};
ghost use Rattle.book_pcap.specs.PacketFiles.{IsFile, IsBroken};

/// A file has these packets and no fault exactly where it is a header and records that keep them; and
/// these and a record that isn't whole exactly where it is a header, records that keep them, and bytes
/// that don't begin with a record (libpcap, pcap-savefile).
pub fn packets_are_the_grammar()
    ensures read { (file : List ℕ) (list : List Packet) → packets_of file ≡ record { list = list; fault = None }
        → (head : Head) × (kept : List Kept) × IsFile head kept [] file × (list ≡ with_datagrams head.link 1 kept) }
    ensures only { (head : Head) (kept : List Kept) (file : List ℕ) → All (λ b. b < 256) file → IsFile head kept [] file
        → packets_of file ≡ record { list = with_datagrams head.link 1 kept; fault = None } }
    ensures broken { (file : List ℕ) (list : List Packet) (n : ℕ)
        → packets_of file ≡ record { list = list; fault = Some (BadRecord n) }
        → (head : Head) × (kept : List Kept) × (tail : List ℕ) × IsFile head kept tail file × IsBroken head.order tail
        × (list ≡ with_datagrams head.link 1 kept) × (n ≡ 1 + length kept) }
    ensures only_broken { (head : Head) (kept : List Kept) (tail file : List ℕ) → All (λ b. b < 256) file
        → IsFile head kept tail file
        → IsBroken head.order tail
        → packets_of file
        ≡ record { list = with_datagrams head.link 1 kept; fault = Some (BadRecord (1 + length kept)) } }
{}
