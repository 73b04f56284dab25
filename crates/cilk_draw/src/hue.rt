//! The colours by which instances are told from one another.

/// The class of the bars of an instance, by its path. Instances whose paths differ at their end alone have different ones, as far as there are any.
pub(crate) fn hue_of(path: &str) -> &'static str {
    let mut sum = 0_u32;
    for byte in path.bytes() {
        sum = (sum % 7).saturating_mul(3).saturating_add(u32::from(byte));
    }
    match sum % 7 {
        0 => "bar h0",
        1 => "bar h1",
        2 => "bar h2",
        3 => "bar h3",
        4 => "bar h4",
        5 => "bar h5",
        _ => "bar h6",
    }
}
