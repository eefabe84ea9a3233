//! Laws of frames.

ghost use Rattle.std.specs.Prelude.{◌≡◌, ℕ, List, length, Some};
ghost use Rattle.std.specs.List.{filter_map, AllByRecursion};
ghost use Rattle.pcap_capture.specs.declared.clock.Clock.{Clock};
ghost use Rattle.pcap_capture.specs.declared.packet.Packet.{Packet};
ghost use Rattle.pcap_capture.specs.Frames.{frame_of};
ghost use Rattle.pcap_capture.specs.File.{file_of};
ghost use Rattle.pcap_capture.specs.Reading.{frames_of_file};
ghost use Rattle.pcap_capture.specs.Laws.{AreCheckValues, IsAddressed, HoldsPacket};

/// States that both check sequences make of the digits 1 to 9 what their descriptions say.
pub fn check_values()
    ensures { AreCheckValues }
{}

/// States that whoever reads a packet's frame finds its message there: addresses, version, type and
/// payload, byte for byte.
pub fn frame_is_read()
    ensures { (packet : Packet) (frame : List ℕ) → IsAddressed packet → frame_of packet ≡ Some frame
        → HoldsPacket frame packet }
{}

/// States that whoever reads a file from record to record finds the frames of its packets, in
/// order, and nothing else.
pub fn file_is_read()
    ensures { (clock : Clock) (packets : List Packet) → AllByRecursion IsAddressed packets
        → frames_of_file (length packets) (file_of clock packets) ≡ filter_map frame_of packets }
{}
