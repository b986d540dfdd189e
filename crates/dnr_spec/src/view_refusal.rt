/// Why a text is no URL that the engine decides. The length of the text is tested first, then in this
/// order what the text holds, and last the length of the serialization.
#[derive(Clone, Copy, Debug, PartialEq, Eq)]
pub enum ViewRefusal {
    /// The text, or else its serialization, is longer than 65,536 bytes.
    UrlTooLong,
    /// The URL Standard reads no URL in the text.
    BadUrl,
    /// The scheme is none of `Scheme`.
    BadScheme,
    /// The host is absent or empty, or has a character that no host of a view has.
    BadHost,
    /// Memory ran out.
    NoMemory,
}
