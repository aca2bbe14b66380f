// What has more than 64 bits stays near the largest number, far above the limit.
fn time_of(text: &[u8]) -> Option<u64> {
    if text.is_empty() {
        return None;
    }
    let mut n: u64 = 0;
    for b in text {
        let digit = char::from(*b).to_digit(10)?;
        n = n.saturating_mul(10).saturating_add(u64::from(digit));
    }
    Some(n)
}

// Of an argument; more than 64 digits are not read.
pub(crate) fn time_argument(text: &str) -> Option<u64> {
    let bytes = text.as_bytes();
    if bytes.len() > 64 {
        return None;
    }
    time_of(bytes)
}
