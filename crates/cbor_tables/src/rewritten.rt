//! What is left of bytes that were read in place.

/// Whether these are the same bytes as those, in any order: joining in place loses none.
pub fn are_rearranged(bytes: &[u8], those: &[u8]) -> bool {
    let mut counts = [0usize; 256];
    for byte in those {
        let count = &mut counts[usize::from(*byte)];
        *count = count.saturating_add(1);
    }
    for byte in bytes {
        let count = &mut counts[usize::from(*byte)];
        if *count == 0 {
            return false;
        }
        *count -= 1;
    }
    bytes.len() == those.len()
}
