// What the programs `long_cases` and `long_check_cases` read of a record alike. The module `long_case_record` of host/reference has its
// layout.
ghost use Rattle.std.specs.Prelude.{◌≡◌, ◌+◌, ◌*◌, ◌≤◌, get_or, take, drop};
ghost use Rattle.std.specs.Int.Bits.{bit_xor};

// The order of a record.
pub fn order(record: &[u8; 1136]) -> u16
    ensures { result ≡ get_or record.now 2 0 + 256 * get_or record.now 3 0 }
{
    u16::from_le_bytes([record[2], record[3]])
}

// The series of a record: its byte with the lowest bit flipped, so that 0 is series 1.
pub fn series(record: &[u8; 1136]) -> u8
    ensures { result ≡ bit_xor (get_or record.now 10 0) 1 }
{
    record[10] ^ 1
}

// The length of a slice of a record, which has room for 560 bytes.
pub fn slice_length(low: u8, high: u8) -> usize
    ensures room { result ≤ 560 }
    ensures told { low + 256 * high ≤ 560 → result ≡ low + 256 * high }
{
    usize::from(u16::from_le_bytes([low, high])).min(560)
}

// The bytes of the first slice.
pub fn input(record: &[u8; 1136]) -> &[u8]
    ensures { get_or record.now 4 0 + 256 * get_or record.now 5 0 ≤ 560
        → result.now ≡ take (get_or record.now 4 0 + 256 * get_or record.now 5 0) (drop 16 record.now) }
{
    let end = 16 + slice_length(record[4], record[5]);
    &record[16..end]
}
