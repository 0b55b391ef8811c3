//! What holds of each capture.
ghost use Rattle.std.specs.Prelude.{◌≡◌, ◌<◌, ◌+◌, ◌%◌, ℕ, Bool, true, List, [], length};
ghost use Rattle.std.specs.List.{AllByRecursion};
ghost use Rattle.journal.specs.declared.journal.Actor.{Actor};
ghost use Rattle.capture_laws.specs.Frames.{ip, ip_head, segment_sum, word_sum};
ghost use Rattle.capture_laws.specs.declared.shapes.Captured.{Captured};
ghost use Rattle.capture_laws.specs.declared.shapes.Port.{Port};
ghost use Rattle.report.specs.Records.{ByteEntry};
ghost use Rattle.capture_laws.specs.File.{AreBlocks, blocks_of};
ghost use Rattle.capture_laws.specs.Interfaces.{capture_of, interface_of, ports_of_packets};
ghost use Rattle.capture_laws.specs.Packets.{AreInSequence, HasByte, FitsPacket, captured, posted_on};
ghost use Rattle.capture_laws.specs.Streams.{direction, joined};

/// What the streams of a journal's capture say.
pub fn streams_law()
    // The payloads of a direction, joined, are the bodies of the letters that are posted there, in order.
    ensures joined { (k : ℕ) (journal : List ByteEntry) → joined k (captured journal) ≡ posted_on k journal }
    // A segment's numbers are one more than the bytes of their directions before it, counted round.
    ensures numbered { (journal : List ByteEntry) → AreInSequence [] (captured journal) }
    // A segment has at most 65,495 bytes.
    ensures short { (journal : List ByteEntry) → AllByRecursion (λ p. FitsPacket p.way p.payload) (captured journal) }
    // The directions between actors of one byte are apart.
    ensures apart { (a b c d : Actor) → HasByte a → HasByte b → HasByte c → HasByte d → direction a b ≡ direction c d → (a ≡ c) × (b ≡ d) }
    // So are the addresses of such actors.
    ensures addressed { (a b : Actor) → HasByte a → HasByte b → ip a ≡ ip b → a ≡ b }
{}

/// What the bytes of a capture are: its blocks, each of a length that is a multiple of four and that it tells twice.
pub fn blocks_law()
    ensures blocks { (ports : List Port) (packets : List Captured) → AreBlocks (blocks_of ports packets) (capture_of ports packets) }
    // A packet is seen at one of the interfaces before it: two, and one for each port.
    ensures told { (packets : List Captured) → AllByRecursion (λ p. interface_of (ports_of_packets packets) p.way < 2 + length (ports_of_packets packets)) packets }
{}

/// What the checksums of a segment's heads are: with them the words sum to a multiple of 65,535.
pub fn checksums_law()
    ensures ip { (from to : Actor) (count : ℕ) → word_sum true (ip_head from to count) % 65535 ≡ 0 }
    ensures tcp { (from to : Actor) (sequence acknowledged : ℕ) (ends : Bool) (payload : List ℕ) → segment_sum from to sequence acknowledged ends payload % 65535 ≡ 0 }
{}
