//! The header of a slot.
ghost use Rattle.std.specs.Prelude.{◌≡◌};
ghost use Rattle.txn_log.specs.Stored.{header_text};

/// What stands at the front of a slot: its generation, the parameters of the store, and how many
/// transactions and roots there were before its first record.
#[derive(Clone, Copy, Debug, PartialEq, Eq)]
pub struct Header {
    pub generation: u64,
    pub queues: u8,
    pub limit: u64,
    pub transactions: u64,
    pub roots: u64,
}

/// Bytes 1 to 41 of a slot with this header.
pub fn header_bytes(header: &Header) -> [u8; 41]
    ensures { result ≡ header_text header.now }
{
    let mut bytes = [0; 41];
    bytes[..8].copy_from_slice(b"FLOWSTR2");
    bytes[8..16].copy_from_slice(&header.generation.to_be_bytes());
    bytes[16] = header.queues;
    bytes[17..25].copy_from_slice(&header.limit.to_be_bytes());
    bytes[25..33].copy_from_slice(&header.transactions.to_be_bytes());
    bytes[33..41].copy_from_slice(&header.roots.to_be_bytes());
    bytes
}
