//! Laws over the bytes of packets. The functions are empty: their contracts are the laws.
ghost use Rattle.packet_code.specs.Laws.{NoEncodingBeginsAnother};

/// Two packets of which one's bytes begin the other's are the same packet, and nothing is left over.
pub fn no_encoding_begins_another()
    ensures { NoEncodingBeginsAnother }
{}
