//! What holds of every header: nothing here runs.

ghost use Rattle.scion_packet.specs.Header.{IsHeader};
ghost use Rattle.scion_header.specs.Header.{header_fields};
ghost use Rattle.scion_header.specs.declared.header.Header.{Header};

/// Each field of a header has room for its number, and the header's length covers the addresses: so
/// what `write_header` writes is the spelling of a lawful header.
pub fn header_is_lawful()
    ensures { (h : Header) → IsHeader (header_fields h) }
{}
