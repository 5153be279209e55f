use record::{Cause, Denial};

// The number at which a host was refused as malformed, if it was: an `Option`, since a made host cannot be compared.
pub(crate) fn refused_at<H: Drop>(r: Result<H, Denial>) -> Option<usize> {
    match r {
        Err(
            Denial {
                cause: Cause::MalformedBundle,
                place: None,
                byte,
            },
        ) => Some(byte),
        _ => None,
    }
}
