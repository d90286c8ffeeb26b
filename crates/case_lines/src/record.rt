// What the programs `cases` and `check_cases` read of a record alike. The module `case_record` of host/reference has its layout.
ghost use Rattle.std.specs.Prelude.{◌≡◌, ◌+◌, ◌*◌, ◌≤◌, get_or, take, drop};
ghost use Rattle.std.specs.Int.Bits.{bit_xor};

// The order of a record.
pub fn order(record: &[u8; 160]) -> u16
    ensures { result ≡ get_or record.now 2 0 + 256 * get_or record.now 152 0 }
{
    u16::from_le_bytes([record[2], record[152]])
}

// The series of a record: its byte with the lowest bit flipped, so that 0 is series 1.
pub fn series(record: &[u8; 160]) -> u8
    ensures { result ≡ bit_xor (get_or record.now 154 0) 1 }
{
    record[154] ^ 1
}

// The length of a slice of a record, which has room for 72 bytes.
pub fn slice_length(stored: u8) -> usize
    ensures room { result ≤ 72 }
    ensures told { stored ≤ 72 → result ≡ stored }
{
    usize::from(stored).min(72)
}

// The bytes of the first slice.
pub fn input(record: &[u8; 160]) -> &[u8]
    ensures { get_or record.now 3 0 ≤ 72 → result.now ≡ take (get_or record.now 3 0) (drop 8 record.now) }
{
    let end = 8 + slice_length(record[3]);
    &record[8..end]
}
