//! The number of a head (RFC 8949, section 3).

ghost use Rattle.std.specs.Prelude.{MatchOption};
ghost use Rattle.cbor_pushed.specs.Scanned.{HasNoNumber, IsNumber};

/// The number after a first byte with these lower five bits, and how many bytes are after it.
#[tactic(auto, using(crate::proofs::Lasts::last_all), unfolding(cbor_model::specs::Reader::number_behind))]
pub(crate) fn number(low: u8, bytes: &[u8]) -> Option<(u64, usize)>
    ensures { MatchOption result (HasNoNumber low bytes.now) (IsNumber low bytes.now) }
{
    match low {
        0..=23 => Some((low as u64, bytes.len())),
        24 => {
            let (n, rest) = bytes.split_first_chunk::<1>()?;
            Some((n[0] as u64, rest.len()))
        }
        25 => {
            let (n, rest) = bytes.split_first_chunk::<2>()?;
            Some((u16::from_be_bytes(*n) as u64, rest.len()))
        }
        26 => {
            let (n, rest) = bytes.split_first_chunk::<4>()?;
            Some((u32::from_be_bytes(*n) as u64, rest.len()))
        }
        27 => {
            let (n, rest) = bytes.split_first_chunk::<8>()?;
            Some((u64::from_be_bytes(*n), rest.len()))
        }
        _ => None,
    }
}
