//! The laws above the frames of a link, and above the records and blocks of a file.
ghost use Rattle.std.specs.Prelude.{◌≡◌, ℕ, ◌<◌, true, false, List, [], ◌++◌, length, Option, Some, None, Ok, Err};
ghost use Rattle.book_pcap.specs.declared.pcap_head.ByteOrder.{ByteOrder};
ghost use Rattle.book_captures.specs.declared.pcap_head.PcapHead.{PcapHead};
ghost use Rattle.book_captures.specs.PcapFiles.{KeptPacket, pcap_record_at, IsPcapRecord, IsPcapFile};
ghost use Rattle.book_captures.specs.declared.capture_parts.Cause.TheVariants.{Record};
ghost use Rattle.book_captures.specs.declared.pcap_head.RecordFault.{RecordFault};
ghost use Rattle.book_captures.specs.Parts.{is_pcapng};
ghost use Rattle.book_captures.specs.Captures.{CapturePacket, capture_of};
ghost use Rattle.book_captures.specs.WholeFiles.{packets_kept, capture_kept, capture_broken, capture_in_blocks};
ghost use Rattle.book_captures.specs.Blocks.{Block, block_at, IsBlock};
ghost use Rattle.book_captures.specs.PcapngFiles.{AreBlocks, BrokenBlock, blocks_of, EndsBroken};
ghost use Rattle.std.specs.List.{All};
ghost use Rattle.book_captures.specs.declared.link_type.Protocol.TheVariants.{Ip, Labels};
ghost use Rattle.book_captures.specs.Frames.{ethertype, behind_tags, behind_labels};
ghost use Rattle.book_captures.specs.Spelled.{TagEntry, IsTag, first_kind, spell_tags, LabelEntry, spell_label};
ghost use Rattle.book_captures.specs.Spelled.{spell_labels};

/// Any number of tags in front of what a frame carries changes nothing (IEEE 802.1Q, 9.6), and a stack of
/// labels is passed over up to its bottom (RFC 3032, section 2.1).
pub fn tags_and_labels_are_passed_over()
    ensures tags { (tags : List TagEntry) (kind : ℕ) (body : List ℕ) → All IsTag tags
        → behind_tags (ethertype (first_kind tags kind)) (spell_tags tags kind body)
        ≡ behind_tags (ethertype kind) body }
    ensures labels { (above : List LabelEntry) (bottom : LabelEntry) (body : List ℕ)
        → behind_labels Labels (spell_labels above (spell_label bottom 1 ++ body))
        ≡ Ok (record { protocol = Ip; body = body }) }
{}

/// A record of a classic pcap file is read exactly where the bytes are one, with what follows it (libpcap,
/// pcap-savefile).
pub fn records_are_their_grammar()
    ensures read { (head : PcapHead) (text : List ℕ) (kept : KeptPacket) (rest : List ℕ)
        → pcap_record_at head text ≡ Ok (kept, rest)
        → (one : List ℕ) × IsPcapRecord head kept one × (text ≡ one ++ rest) }
    ensures only { (head : PcapHead) (kept : KeptPacket) (one rest : List ℕ) → IsPcapRecord head kept one
        → pcap_record_at head (one ++ rest) ≡ Ok (kept, rest) }
{}

/// A block of a pcapng file is read exactly where the bytes are one, with what follows it
/// (draft-ietf-opsawg-pcapng, section 3.1).
pub fn blocks_are_their_grammar()
    ensures read { (section : Option ByteOrder) (text : List ℕ) (block : Block) (rest : List ℕ)
        → block_at section text ≡ Ok (block, rest)
        → (one : List ℕ) × IsBlock section block one × (text ≡ one ++ rest) }
    ensures only { (section : Option ByteOrder) (block : Block) (one rest : List ℕ) → IsBlock section block one
        → block_at section (one ++ rest) ≡ Ok (block, rest) }
{}

/// A pcapng file has these blocks and no fault exactly where it is these, one after another; and these and
/// a fault, at this block and byte, exactly where behind them stand bytes that don't begin with a block,
/// for that reason (draft-ietf-opsawg-pcapng, section 3).
pub fn captures_are_their_grammar()
    ensures read { (list : List Block) (file : List ℕ) → blocks_of file ≡ record { list = list; broken = None }
        → AreBlocks None list file }
    ensures only { (list : List Block) (file : List ℕ) → AreBlocks None list file
        → blocks_of file ≡ record { list = list; broken = None } }
    ensures broken { (list : List Block) (why : BrokenBlock) (file : List ℕ)
        → blocks_of file ≡ record { list = list; broken = Some why } → EndsBroken list why file }
    ensures only_broken { (list : List Block) (why : BrokenBlock) (file : List ℕ) → EndsBroken list why file
        → blocks_of file ≡ record { list = list; broken = Some why } }
{}

/// The capture in a classic pcap file has these packets and no fault exactly where the file is a header and
/// records that keep them; and these and a faulty record exactly where behind them stand bytes that don't
/// begin with a record, for that reason (libpcap, pcap-savefile).
pub fn captures_of_pcap_files_are_their_grammar()
    ensures read { (file : List ℕ) (packets : List CapturePacket) → is_pcapng file ≡ false
        → capture_of file ≡ record { packets = packets; passed = 0; fault = None }
        → (head : PcapHead) × (kept : List KeptPacket) × IsPcapFile head kept [] file
        × (packets ≡ packets_kept head 1 kept) }
    ensures only { (head : PcapHead) (kept : List KeptPacket) (file : List ℕ) → All (λ b. b < 256) file
        → IsPcapFile head kept [] file
        → capture_of file ≡ capture_kept head kept }
    ensures broken { (file : List ℕ) (packets : List CapturePacket) (why : RecordFault) (number byte : ℕ)
        → is_pcapng file ≡ false
        → capture_of file
        ≡ record {
          packets = packets;
          passed = 0;
          fault = Some (record { cause = Record why; number = number; byte = byte });
        }
        → (head : PcapHead) × (kept : List KeptPacket) × (tail : List ℕ) × IsPcapFile head kept tail file
        × (0 < length tail)
        × (pcap_record_at head tail ≡ Err why) × (capture_of file ≡ capture_broken head kept why) }
    ensures only_broken { (head : PcapHead) (kept : List KeptPacket) (tail file : List ℕ) (why : RecordFault)
        → All (λ b. b < 256) file
        → IsPcapFile head kept tail file → 0 < length tail → pcap_record_at head tail ≡ Err why
        → capture_of file ≡ capture_broken head kept why }
{}

/// The capture in a pcapng file is the one in its blocks, up to the first whose fields are refused
/// (draft-ietf-opsawg-pcapng).
pub fn captures_of_pcapng_files_are_in_their_blocks()
    ensures { (file : List ℕ) → is_pcapng file ≡ true → capture_of file ≡ capture_in_blocks (blocks_of file) }
{}
